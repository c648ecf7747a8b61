// Folded records: what a journal needs and does, without the journal.
#![tactic(auto)]

ghost use Rattle.std.specs.Prelude.{◌≡◌};
ghost use Rattle.records.specs.Answers.{the_join, the_application};

use moves::{Denied, Marking, Refusal};

pub mod inner;

// What is needed of a marking, and what is then done to it. Never: no marking will do. A flag beside the sets and no enum: the 65 bytes and
// C's nine words (`record_bytes`, `record_words`) have never and the sets so.
#[derive(Clone, Copy)]
pub struct Record {
    pub never: bool,
    pub needin: u64,
    pub needex: u64,
    pub needout: u64,
    pub done: u64,
    pub dueset: u64,
    pub dueclear: u64,
    pub inset: u64,
    pub inclear: u64,
}

impl Record {
    // The record of the empty journal.
    pub const IDENTITY: Record = Record {
        never: false,
        needin: 0,
        needex: 0,
        needout: 0,
        done: 0,
        dueset: 0,
        dueclear: 0,
        inset: 0,
        inclear: 0,
    };

    // This record, then the other, for n steps. Refusals 2, 10.
    #[tactic(auto, unfolding(crate::specs::Answers::the_join, crate::specs::Answers::recorded_of, moves::specs::First::first))]
    pub fn join(self, other: Record, n: u64) -> Result<Record, Refusal>
        ensures { result ≡ the_join n self other }
    {
        if !inner::counts(n) {
            return Err(Refusal::Counts);
        }
        let good = inner::well_formed(n, self) & inner::well_formed(n, other);
        if !good {
            return Err(Refusal::IllFormed);
        }
        Ok(inner::joined(self, other))
    }

    // This record at a marking of n steps. Refusals 2, 8, 10, 16.
    pub fn apply(self, m: Marking, n: u64) -> Result<Marking, Denied>
        ensures { result ≡ the_application n self m }
    {
        if !inner::counts(n) {
            return Err(Denied::from(Refusal::Counts));
        }
        if !moves::inner::fits(n, m) {
            return Err(Denied::from(Refusal::Outside));
        }
        if !inner::well_formed(n, self) {
            return Err(Denied::from(Refusal::IllFormed));
        }
        inner::applied(self, m)
    }
}
