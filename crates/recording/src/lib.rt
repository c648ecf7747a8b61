// Records: folded, joined, applied, restored from, and shown.
#![tactic(auto)]

pub mod applying;
pub mod folds;
mod never;
