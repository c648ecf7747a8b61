// Arguments, files read whole and files written, with one line on standard error where one of them will not do.
#![tactic(auto)]

pub mod appending;
pub mod arguments;
pub mod complaints;
mod joining;
pub mod known;
pub mod locking;
pub mod reading;
mod reasons;
pub mod writing;
