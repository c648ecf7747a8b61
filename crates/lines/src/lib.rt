// The lines that the program prints, `key: value` each.
#![tactic(auto)]

pub mod display;
pub mod names;
pub mod refusals;
pub mod states;
