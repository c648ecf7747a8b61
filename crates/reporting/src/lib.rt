// Whether a job can still end from a marking, in lines.
#![tactic(auto)]

pub mod ends;
pub mod search;
