// A call taken apart: its operands and its numbers, and wrong use, each with its one line.
#![tactic(auto)]

pub mod numbers;
pub mod wrong;
