// The answers of the border that look ahead, as structs of words: what comes of a lap without end, where the tracker
// goes, and whether a job can still end. What is said of the fields `number` and `waiting` of the other answers holds
// of these.
#![tactic(auto)]

use moves::Marking;

pub mod endless;
pub mod reach;
pub mod tracks;

// The verdict is 1 for accepted and 2 for starved, with the starved step. Index and pass are those of a refused entry.
#[repr(C)]
#[derive(Clone, Copy)]
pub struct Lapped {
    pub number: u64,
    pub waiting: u64,
    pub verdict: u64,
    pub step: u64,
    pub index: u64,
    pub pass: u64,
}

// The verdict is 1 for undecided, 2 for none and 3 for reachable, with the fewest entries that are needed. `looked` is
// how many markings were looked at.
#[repr(C)]
#[derive(Clone, Copy)]
pub struct Ends {
    pub number: u64,
    pub verdict: u64,
    pub fewest: u64,
    pub looked: u64,
}

// A state of the tracker. A flag above 0 is up.
#[repr(C)]
#[derive(Clone, Copy)]
pub struct Track {
    pub marking: Marking,
    pub rank: u64,
    pub flag: u64,
}

// The state after, or from 11 on the state handed in.
#[repr(C)]
#[derive(Clone, Copy)]
pub struct Tracked {
    pub number: u64,
    pub waiting: u64,
    pub track: Track,
}
