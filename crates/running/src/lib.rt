// Journals listed, and run from a marking: how they end, whether the job can end after them, laps without end, and
// the tracker.
#![tactic(auto)]

pub mod course;
pub mod laps_told;
pub mod listing;
pub mod markings;
pub mod runs;
pub mod tracks;
