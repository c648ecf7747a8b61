// Markings, entries, and the answers to taking a step: what every floor speaks of, with the numbers on the door.
#![tactic(auto)]

ghost use Rattle.std.specs.Prelude.{◌≡◌};
ghost use Rattle.moves.specs.First.{number_of, waiting_of, told_of};
ghost use Rattle.moves.specs.Move.{denied, no_marking};

pub mod inner;

// A step, counted from 0.
#[repr(C)]
#[derive(Clone, Copy, PartialEq, Eq)]
pub struct Step(pub u8);

// A step's rank in the tracker, counted from 1.
#[derive(Clone, Copy)]
pub struct Rank(pub u8);

// A person takes a step in a role.
#[repr(C)]
#[derive(Clone, Copy, PartialEq, Eq)]
pub struct Entry {
    pub person: u8,
    pub step: Step,
    pub role: u8,
}

// Three sets of steps: done before (Ex), due (Re), included (In).
#[repr(C)]
#[derive(Clone, Copy, PartialEq, Eq)]
pub struct Marking {
    pub done: u64,
    pub due: u64,
    pub included: u64,
}

pub const NONE: Marking = Marking {
    done: 0,
    due: 0,
    included: 0,
};

// The refusals of the whole house, in the order of their numbers.
#[derive(Clone, Copy)]
pub enum Refusal {
    Layout,
    Counts,
    Bodies,
    Beyond,
    Arrows,
    Both,
    Length,
    Outside,
    NoRank,
    IllFormed,
    Unknown,
    NotHeld,
    NotOnStep,
    Excluded,
    Waits(u64),
    NotApplied,
    EmptyLap,
    Room,
    Store,
    Arms,
}

// A refusal, and the marking that goes with it: from 11 on the one handed in, below an empty one.
#[derive(Clone, Copy)]
pub struct Denied {
    pub marking: Marking,
    pub refusal: Refusal,
}

// What a refusal says: its number on the door, and with 15 the set of steps that are waited for (empty with every other).
#[derive(Clone, Copy)]
pub struct Told {
    pub number: u8,
    pub waiting: u64,
}

impl Refusal {
    // The number on the door.
    #[tactic(auto, unfolding(crate::specs::First::number_of))]
    pub fn number(self) -> u8
        ensures { result ≡ number_of self }
    {
        match self {
            Refusal::Layout => 1,
            Refusal::Counts => 2,
            Refusal::Bodies => 3,
            Refusal::Beyond => 4,
            Refusal::Arrows => 5,
            Refusal::Both => 6,
            Refusal::Length => 7,
            Refusal::Outside => 8,
            Refusal::NoRank => 9,
            Refusal::IllFormed => 10,
            Refusal::Unknown => 11,
            Refusal::NotHeld => 12,
            Refusal::NotOnStep => 13,
            Refusal::Excluded => 14,
            Refusal::Waits(_) => 15,
            Refusal::NotApplied => 16,
            Refusal::EmptyLap => 17,
            Refusal::Room => 18,
            Refusal::Store => 22,
            Refusal::Arms => 30,
        }
    }

    // The steps that are waited for.
    #[tactic(auto, unfolding(crate::specs::First::waiting_of))]
    pub fn waiting(self) -> u64
        ensures { result ≡ waiting_of self }
    {
        match self {
            Refusal::Waits(open) => open,
            _ => 0,
        }
    }
}

// A refusal below 11, which gives no marking back.
impl From<Refusal> for Denied {
    ghost from_gives = { λ r d. d ≡ denied no_marking r };

    fn from(refusal: Refusal) -> Denied {
        Denied {
            marking: NONE,
            refusal,
        }
    }
}

#[tactic(auto, unfolding(crate::specs::First::told_of))]
pub fn tell(r: Refusal) -> Told
    ensures { result ≡ told_of r }
{
    Told {
        number: r.number(),
        waiting: r.waiting(),
    }
}
