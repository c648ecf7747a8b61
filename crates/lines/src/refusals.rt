// Refusals in words: what each number says, understandable by itself on a screen.
use crate::display::Set;
use crate::names::say_file;
use moves::Refusal;
use output::page::Page;
use output::status::Answer;
use std::fmt;
use std::fmt::Display;

pub fn words(r: Refusal) -> &'static str {
    match r {
        Refusal::Layout => "not laid out as a sheet",
        Refusal::Counts => "a count is out of range",
        Refusal::Bodies => "the bodies of the sheet do not fit its counts",
        Refusal::Beyond => "something is named that the counts do not have",
        Refusal::Arrows => "an arrow of the sheet is wrong or out of order",
        Refusal::Both => "a step includes and excludes the same step",
        Refusal::Length => "the bytes of the journal are no multiple of 3, or too many",
        Refusal::Outside => "the marking has a step that the graph does not have",
        Refusal::NoRank => "no step has this rank",
        Refusal::IllFormed => "the record is not well-formed",
        Refusal::Unknown => "no such person, step or role",
        Refusal::NotHeld => "the person does not hold this role",
        Refusal::NotOnStep => "the step's action does not have this role",
        Refusal::Excluded => "the step is not included",
        Refusal::Waits(_) => "the step waits for steps that are not done",
        Refusal::NotApplied => "the record does not apply to the marking",
        Refusal::EmptyLap => "the lap is empty",
        Refusal::Room => "there is too little room",
        Refusal::Store => "the store is no whole number of markings from 1 to 2,048",
        Refusal::Arms => "the number of arms is not from 2 to 16",
    }
}

// A refusal as it is printed: its number and words.
#[derive(Clone, Copy)]
pub struct Numbered(pub Refusal);

impl Display for Numbered {
    fn fmt<W: fmt::Write>(&self, f: &mut fmt::Formatter<W>) -> fmt::Result {
        let Numbered(r) = *self;
        write!(f, "{} {}", r.number(), words(r))
    }
}

// The lines that a refusal begins with: its number and words, and the argument that names the file, if one does.
pub fn say_refused(page: &mut Page, at: Option<usize>, r: Refusal) -> Answer {
    writeln!(page, "refused: {}", Numbered(r));
    say_file(page, at);
    Answer::Refused
}

// With 15 every step that is waited for, in order; nothing with any other.
pub fn say_waited(page: &mut Page, r: Refusal) {
    if let Refusal::Waits(open) = r {
        writeln!(page, "waits for: {}", Set(open));
    }
}
