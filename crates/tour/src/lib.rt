// A small job's files, and a walk through the accident that must not happen again.
#![tactic(auto)]

pub mod job;
pub mod parts;
pub mod walk;
