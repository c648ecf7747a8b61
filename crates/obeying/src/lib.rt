// The program between its arguments and its answers.
#![tactic(auto)]

mod answers;
pub mod calls;
mod task;
