// What is printed, whether all of it was written, and the status that the program ends with.
#![tactic(auto)]

pub mod page;
pub mod status;
