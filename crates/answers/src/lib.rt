// The answers to the calls of the border, as structs of words, since C has no enum that holds something. A number is 0 where a call is
// answered. With 15 `waiting` is the set of all steps that are waited for, and with every other number 0. What a number leaves without a
// value is 0.
#![tactic(auto)]

use moves::{Entry, Marking};

pub mod folded;
pub mod lent;
pub mod told;

// `finished` is 1 where no step is both due and included.
#[repr(C)]
#[derive(Clone, Copy)]
pub struct Ending {
    pub number: u64,
    pub finished: u64,
}

// Nothing but whether the entry is allowed.
#[repr(C)]
#[derive(Clone, Copy)]
pub struct Asked {
    pub number: u64,
    pub waiting: u64,
}

// The steps that are allowed.
#[repr(C)]
#[derive(Clone, Copy)]
pub struct Allowed {
    pub number: u64,
    pub steps: u64,
}

// The marking after, or from 11 on the marking handed in.
#[repr(C)]
#[derive(Clone, Copy)]
pub struct Moved {
    pub number: u64,
    pub waiting: u64,
    pub marking: Marking,
}

// Beside a marking that is changed where it lies.
#[repr(C)]
#[derive(Clone, Copy)]
pub struct Kept {
    pub number: u64,
    pub waiting: u64,
}

// How many entries passed, which is the index of the refused one; and the marking after them.
#[repr(C)]
#[derive(Clone, Copy)]
pub struct Ran {
    pub number: u64,
    pub waiting: u64,
    pub entries: u64,
    pub marking: Marking,
}

// `ended` is 1 where no entry is left.
#[repr(C)]
#[derive(Clone, Copy)]
pub struct Walked {
    pub number: u64,
    pub ended: u64,
    pub entry: Entry,
}

// How many bytes are written.
#[repr(C)]
#[derive(Clone, Copy)]
pub struct Written {
    pub number: u64,
    pub length: u64,
}
