// Numbers 10 and 16 of records, and 2 of a stated number of steps.
ghost use Rattle.std.specs.Prelude.{◌≡◌, ◌<◌, ◌≤◌};
ghost use Rattle.finding.specs.Found.{lack_of};

use crate::parts::{Held, beyond, byte, eight, held_in};
use crate::words::{All, Bytes, say_finding};
use lines::display::Set;
use moves::Marking;
use output::page::Page;
use records::Record;
use std::fmt;
use std::fmt::Display;

// A set of a record.
#[derive(Clone, Copy, Debug, PartialEq, Eq)]
pub enum Part {
    NeedIn,
    NeedEx,
    NeedOutOrEx,
    Done,
    DueSet,
    DueClear,
    InSet,
    InClear,
}

// In the order of the bytes.
const PARTS: [Part; 8] = [
    Part::NeedIn,
    Part::NeedEx,
    Part::NeedOutOrEx,
    Part::Done,
    Part::DueSet,
    Part::DueClear,
    Part::InSet,
    Part::InClear,
];

// The sets that may have no step in common, in the order of the rule.
const PAIRS: [(Part, Part); 6] = [
    (Part::NeedIn, Part::NeedOutOrEx),
    (Part::NeedEx, Part::NeedOutOrEx),
    (Part::Done, Part::NeedEx),
    (Part::InSet, Part::NeedIn),
    (Part::InSet, Part::InClear),
    (Part::DueSet, Part::DueClear),
];

impl Display for Part {
    fn fmt<W: fmt::Write>(&self, f: &mut fmt::Formatter<W>) -> fmt::Result {
        let name = match self {
            Part::NeedIn => "NeedIn",
            Part::NeedEx => "NeedEx",
            Part::NeedOutOrEx => "NeedOutOrEx",
            Part::Done => "Done",
            Part::DueSet => "DueSet",
            Part::DueClear => "DueClear",
            Part::InSet => "InSet",
            Part::InClear => "InClear",
        };
        write!(f, "{name}")
    }
}

// Two sets and the steps that both have.
#[derive(Clone, Copy)]
struct Clash {
    one: Part,
    other: Part,
    steps: u64,
}

impl Display for Clash {
    fn fmt<W: fmt::Write>(&self, f: &mut fmt::Formatter<W>) -> fmt::Result {
        let Clash { one, other, steps } = *self;
        let steps = Set(steps);
        write!(f, "steps {steps} in {one} and in {other}")
    }
}

// A set of a record, read from its bytes.
fn set(s: &[u8], part: Part) -> u64 {
    let at = match part {
        Part::NeedIn => 1,
        Part::NeedEx => 9,
        Part::NeedOutOrEx => 17,
        Part::Done => 25,
        Part::DueSet => 33,
        Part::DueClear => 41,
        Part::InSet => 49,
        Part::InClear => 57,
    };
    eight(s, at)
}

// The first set with steps beyond n; with n = 0, the first with any.
fn first_beyond(s: &[u8], n: u64) -> Option<Held<Part>>
    requires { n ≤ 64 }
{
    PARTS
        .iter()
        .find_map(|part| held_in(*part, beyond(n, set(s, *part))))
}

fn first_clash(s: &[u8]) -> Option<Clash> {
    PAIRS.iter().find_map(|(one, other)| {
        let steps = sets::meet(set(s, *one), set(s, *other));
        if steps == 0 {
            return None;
        }
        Some(Clash {
            one: *one,
            other: *other,
            steps,
        })
    })
}

// The bytes of a record whose never is 0 or 1.
fn say_sets(page: &mut Page, n: u64, s: &[u8]) {
    if 64 < n {
        return;
    }
    let held_though_never = if byte(s, 0) == 1 {
        first_beyond(s, 0)
    } else {
        None
    };
    if let Some(held) = held_though_never {
        say_finding(
            page,
            format_args!("{held} of a record that is never"),
            "every set empty",
        );
    } else if let Some(held) = first_beyond(s, n) {
        say_finding(page, held, All("steps", n));
    } else if let Some(clash) = first_clash(s) {
        say_finding(page, clash, "no step in both");
    }
}

pub fn say_found(page: &mut Page, n: u64, bytes: &[u8]) {
    let never = byte(bytes, 0);
    if bytes.len() != 65 {
        say_finding(page, Bytes(bytes.len()), "65");
    } else if 1 < never {
        say_finding(
            page,
            format_args!("byte 0 is {never}"),
            "1 for never, 0 otherwise",
        );
    } else {
        say_sets(page, n, bytes);
    }
}

// A number that is too large for a word is taken as the largest.
pub fn say_count_of(page: &mut Page, n: u64) {
    let more = if n == u64::MAX { " or more" } else { "" };
    say_finding(page, format_args!("N is {n}{more}"), "1 to 64");
}

// What a record needs of a marking.
#[derive(Clone, Copy, Debug, PartialEq, Eq)]
pub enum Need {
    In,
    Ex,
    OutOrEx,
}

// The first need that the marking does not meet.
pub fn first_lack(r: Record, m: Marking) -> Option<Held<Need>>
    ensures { result ≡ lack_of r m }
{
    held_in(Need::In, sets::minus(r.needin, m.included))
        .or(held_in(Need::Ex, sets::minus(r.needex, m.done)))
        .or(held_in(
            Need::OutOrEx,
            sets::minus(sets::meet(r.needout, m.included), m.done),
        ))
}

fn say_lack(page: &mut Page, x: Held<Need>) {
    let steps = Set(x.steps);
    let (state, wants) = match x.set {
        Need::In => ("not included", "included, by NeedIn"),
        Need::Ex => ("not done", "done, by NeedEx"),
        Need::OutOrEx => ("included and not done", "excluded or done, by NeedOutOrEx"),
    };
    say_finding(page, format_args!("steps {steps}, {state}"), wants);
}

pub fn say_unapplied(page: &mut Page, r: Record, m: Marking) {
    if r.never {
        say_finding(
            page,
            "a record that is never",
            "one that some marking suits",
        );
    } else if let Some(lack) = first_lack(r, m) {
        say_lack(page, lack);
    }
}
