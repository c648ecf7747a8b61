// A stem, then a lap without end.
use crate::course::{Course, Input, is_journal, say_unmeasured};
use laps::{Broken, Endless, Pass};
use lines::refusals::{say_refused, say_waited};
use lines::states::Stated;
use moves::Refusal;
use output::page::Page;
use output::status::Answer;
use std::convert::From;

fn words(p: Pass) -> &'static str {
    match p {
        Pass::Stem => "0, stem",
        Pass::First => "1, first lap",
        Pass::Second => "2, second lap",
        Pass::Later => "3, later lap",
    }
}

// The stem's length is looked at first: where it is right, 7 is the lap's.
fn say_lengths(page: &mut Page, stem: Input, lap: Input) -> Answer {
    if is_journal(stem.bytes) {
        say_unmeasured(page, lap)
    } else {
        say_unmeasured(page, stem)
    }
}

fn say_empty(page: &mut Page, lap: Input, r: Refusal) -> Answer {
    let refused = say_refused(page, lap.at, r);
    writeln!(page, "found: the lap has 0 entries\nexpected: at least 1");
    refused
}

// Refused before any entry.
fn say_unlapped(page: &mut Page, stem: &Course, lap: Input, r: Refusal) -> Answer {
    match r {
        Refusal::Length => say_lengths(page, stem.journal, lap),
        Refusal::Outside => stem.say_unstarted(page, r),
        Refusal::EmptyLap => say_empty(page, lap, r),
        _ => stem.say_refused(page, r),
    }
}

// Stopped at entry k of the course's journal, which is the stem or the lap.
fn say_halt(page: &mut Page, course: &Course, k: u16, p: Pass, r: Refusal) -> Answer {
    let refused = course.say_refused(page, r);
    if let Some(e) = course.entry(usize::from(k)) {
        course.say_met(page, e, r);
        writeln!(page, "pass: {}\nentry {k}: {}", words(p), Stated::from(e));
    }
    say_waited(page, r);
    refused
}

// The lap in the stem's place.
fn around<'a>(stem: &Course<'a>, lap: Input<'a>) -> Course<'a> {
    Course {
        journal: lap,
        ..*stem
    }
}

// The journal is the stem.
pub fn lap(page: &mut Page, stem: &Course, lap: Input) -> Answer {
    match laps::lap(stem.job, stem.start, stem.journal.bytes, lap.bytes) {
        Ok(Endless::Accepted) => {
            writeln!(page, "verdict: accepted");
            Answer::Answered
        }
        Ok(Endless::Starved(step)) => {
            writeln!(page, "verdict: starved\nstarved step: {}", step.0);
            Answer::No
        }
        Err(Broken::Refused(r)) => say_unlapped(page, stem, lap, r),
        Err(Broken::Stopped(k, Pass::Stem, r)) => say_halt(page, stem, k, Pass::Stem, r),
        Err(Broken::Stopped(k, p, r)) => say_halt(page, &around(stem, lap), k, p, r),
    }
}
