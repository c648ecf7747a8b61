// Markings, endings, entries and records.
ghost use Rattle.std.specs.Prelude.{◌≡◌};

use crate::display::Set;
use crate::refusals::say_refused;
use itoa::Buffer;
use moves::{Entry, Marking, Refusal};
use output::page::Page;
use output::status::Answer;
use records::Record;
use rules::Ending;
use std::convert::From;
use std::fmt;
use std::fmt::Display;

pub fn say_marking(page: &mut Page, m: Marking) {
    writeln!(page, "done: {}", Set(m.done));
    writeln!(page, "due: {}", Set(m.due));
    writeln!(page, "included: {}", Set(m.included));
}

// The ending of a job at marking m; where it is open, with the steps that are both due and included.
pub fn say_ending(page: &mut Page, e: Result<Ending, Refusal>, m: Marking) -> Answer {
    match e {
        Ok(Ending::Finished) => {
            writeln!(page, "finished: yes");
            Answer::Answered
        }
        Ok(Ending::Open) => {
            writeln!(page, "finished: no");
            writeln!(page, "to do: {}", Set(sets::meet(m.due, m.included)));
            Answer::No
        }
        Err(r) => say_refused(page, None, r),
    }
}

// An entry as somebody states it: a number may be too large for any entry.
#[derive(Clone, Copy)]
pub struct Stated {
    pub person: u64,
    pub step: u64,
    pub role: u64,
}

impl From<Entry> for Stated {
    ghost from_gives = { λ e s. (s.person ≡ e.person) × (s.step ≡ e.step.0) × (s.role ≡ e.role) };

    fn from(e: Entry) -> Stated {
        Stated {
            person: e.person as u64,
            step: e.step.0 as u64,
            role: e.role as u64,
        }
    }
}

// By `itoa` and not by `write!`, which takes longer for a number than for all else of its line: a journal has many.
fn number<W: fmt::Write>(f: &mut fmt::Formatter<W>, n: u64) -> fmt::Result {
    let mut digits = Buffer::new();
    f.write_str(digits.format(n))
}

impl Display for Stated {
    fn fmt<W: fmt::Write>(&self, f: &mut fmt::Formatter<W>) -> fmt::Result {
        let s = *self;
        f.write_str("person ")?;
        number(f, s.person)?;
        f.write_str(", step ")?;
        number(f, s.step)?;
        f.write_str(", role ")?;
        number(f, s.role)
    }
}

pub fn say_record(page: &mut Page, r: Record) {
    writeln!(page, "never: {}", if r.never { "yes" } else { "no" });
    writeln!(page, "NeedIn, must be included: {}", Set(r.needin));
    writeln!(page, "NeedEx, must have been done: {}", Set(r.needex));
    writeln!(
        page,
        "NeedOutOrEx, must be excluded or done: {}",
        Set(r.needout)
    );
    writeln!(page, "Done, is done: {}", Set(r.done));
    writeln!(page, "DueSet, becomes due: {}", Set(r.dueset));
    writeln!(page, "DueClear, is due no more: {}", Set(r.dueclear));
    writeln!(page, "InSet, becomes included: {}", Set(r.inset));
    writeln!(page, "InClear, becomes excluded: {}", Set(r.inclear));
}
