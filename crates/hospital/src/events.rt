// The events of Fig. 3, as steps of a job. Section 4 gives sign rank 1, so it stands first.
use moves::{Entry, Step};
use std::fmt;
use std::fmt::Display;

#[derive(Clone, Copy)]
pub enum Event {
    Sign,
    Give,
    Prescribe,
    Distrust,
}

impl Display for Event {
    fn fmt<W: fmt::Write>(&self, f: &mut fmt::Formatter<W>) -> fmt::Result {
        match self {
            Event::Sign => write!(f, "sign"),
            Event::Give => write!(f, "give medicine"),
            Event::Prescribe => write!(f, "prescribe medicine"),
            Event::Distrust => write!(f, "don't trust"),
        }
    }
}

impl Event {
    // The doctor, person 0, signs and prescribes in role 0; the nurse, person 1, gives and distrusts in role 1.
    pub fn entry(self) -> Entry {
        let who = match self {
            Event::Sign | Event::Prescribe => 0,
            Event::Give | Event::Distrust => 1,
        };
        Entry {
            person: who,
            step: Step(self as u8),
            role: who,
        }
    }
}
