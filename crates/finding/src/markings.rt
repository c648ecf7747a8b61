// Number 8, and 4 of a first marking: the first set of a marking that names steps beyond the count.
ghost use Rattle.std.specs.Prelude.{◌≡◌, ◌≤◌};
ghost use Rattle.finding.specs.Found.{stray_of};

use crate::parts::{Held, beyond, held_in};
use crate::words::{All, say_finding};
use moves::Marking;
use output::page::Page;
use std::fmt;
use std::fmt::Display;

// A set of a marking.
#[derive(Clone, Copy, Debug, PartialEq, Eq)]
pub enum State {
    Done,
    Due,
    Included,
}

impl Display for State {
    fn fmt<W: fmt::Write>(&self, f: &mut fmt::Formatter<W>) -> fmt::Result {
        match self {
            State::Done => write!(f, "done"),
            State::Due => write!(f, "due"),
            State::Included => write!(f, "included"),
        }
    }
}

// The steps beyond n of the first of done, due, included that has such.
pub fn first_stray(n: u64, m: Marking) -> Option<Held<State>>
    requires { n ≤ 64 }
    ensures { result ≡ stray_of n m }
{
    held_in(State::Done, beyond(n, m.done))
        .or(held_in(State::Due, beyond(n, m.due)))
        .or(held_in(State::Included, beyond(n, m.included)))
}

// Steps beyond n, and whose set has them, where that has to be said.
pub fn say_beyond(page: &mut Page, stray: Held<State>, whose: &str, n: u64) {
    say_finding(page, format_args!("{stray}{whose}"), All("steps", n));
}

pub fn say_found(page: &mut Page, steps: u64, m: Marking) {
    if 64 < steps {
        return;
    }
    if let Some(stray) = first_stray(steps, m) {
        say_beyond(page, stray, "", steps);
    }
}
