// Journals: entries of three bytes, read, run and walked.
#![tactic(auto)]

ghost use Rattle.std.specs.Prelude.{◌≡◌};
ghost use Rattle.rules.specs.Graph.{graph_of};
ghost use Rattle.moves.specs.Move.{no_marking};
ghost use Rattle.journal.specs.Ran.{stopped};
ghost use Rattle.journal.specs.Run.{the_run};
ghost use Rattle.journal.specs.Walk.{stride_at};

use crate::inner::length_fits;
use crate::quick::run_entries;
use moves::{Entry, Marking, NONE, Refusal};
use rules::Job;

pub mod inner;
pub mod quick;

// All entries pass: the marking at the end, and how many they are.
#[derive(Clone, Copy)]
pub struct Ended {
    pub marking: Marking,
    pub entries: u16,
}

// The first entry that is not allowed: its index, the marking before it and its refusal. Below 11 there is no entry: index and marking are
// zeros.
#[derive(Clone, Copy)]
pub struct Stopped {
    pub index: u16,
    pub marking: Marking,
    pub refusal: Refusal,
}

// Before any entry is looked at.
impl From<Refusal> for Stopped {
    ghost from_gives = { λ r s. s ≡ stopped 0 no_marking r };

    fn from(refusal: Refusal) -> Stopped {
        Stopped {
            index: 0,
            marking: NONE,
            refusal,
        }
    }
}

// A walk keeps hold of the lent journal and of its place in it, the number of entries handed out. It is no `Iterator`: over a
// length that does not fit it says 7 at every place (`stride_at`).
#[derive(Clone, Copy)]
pub struct Walk<'a> {
    pub journal: &'a [u8],
    pub place: usize,
}

// What a walk says: the entry at its place, or that there is none left, or 7; and its next place.
#[derive(Clone, Copy)]
pub struct Stride {
    pub said: Result<Option<Entry>, Refusal>,
    pub place: usize,
}

// Run a journal from a marking. Refusals 2, 4, 6, 7, 8, then 11 to 15 of the earliest refused entry.
pub fn run<'a, 'b>(g: &'a Job, m: Marking, j: &'b [u8]) -> Result<Ended, Stopped>
    ensures { result ≡ the_run (graph_of g.now) m j.now }
{
    rules::check(g)?;
    if !length_fits(j) {
        return Err(Stopped::from(Refusal::Length));
    }
    if !moves::inner::fits(g[0], m) {
        return Err(Stopped::from(Refusal::Outside));
    }
    run_entries(g, m, j)
}

impl<'a> Walk<'a> {
    // A walk at the start of a journal. It always succeeds.
    pub fn new(journal: &'a [u8]) -> Walk<'a>
        ensures { (result.journal ≡ journal.entry) × (result.place ≡ 0) }
    {
        Walk { journal, place: 0 }
    }

    // What the walk says; its place moves behind the entry that it hands out, and stays put otherwise. Refusal 7.
    pub fn next(&mut self) -> Result<Option<Entry>, Refusal>
        ensures said { result ≡ (stride_at self.old.journal.now self.old.place).said }
        ensures journal { self.new.journal ≡ self.old.journal }
        ensures place { self.new.place ≡ (stride_at self.old.journal.now self.old.place).place }
    {
        let o = inner::step_at(self.journal, self.place);
        self.place = o.place;
        o.said
    }
}

// One call of a walk over `j` that stands at `place`: for callers who keep the place themselves. Refusal 7.
pub fn walk_at(j: &[u8], place: usize) -> Stride
    ensures { result ≡ stride_at j.now place }
{
    let mut w = Walk::new(j);
    w.place = place;
    Stride {
        said: w.next(),
        place: w.place,
    }
}
