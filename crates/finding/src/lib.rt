// What made a number hold: looked for in the input, and said below the refusal in two lines, what was found and what was expected there.
#![tactic(auto)]

pub mod arms;
pub mod entries;
pub mod journals;
pub mod markings;
pub mod parts;
pub mod recorded;
pub mod stores;
pub mod words;
