// Help: how each command is called, and what it answers.
#![tactic(auto)]

pub mod help;
pub mod texts;
pub mod usage;
