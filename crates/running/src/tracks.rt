// The tracker, entry by entry.
use crate::course::{Course, is_journal, say_unmeasured};
use lines::display::Flag;
use lines::refusals::say_waited;
use lines::states::{Stated, say_marking};
use moves::Entry;
use output::page::Page;
use output::status::Answer;
use std::convert::From;
use tracker::{Track, Unmoved};

fn say_place(page: &mut Page, t: Track) {
    writeln!(page, "rank {}, flag {}", t.rank.0, Flag(t.flag));
}

// The state after entry k, which is e; or the one that stays, where it is refused.
fn advanced(
    page: &mut Page,
    course: &Course,
    t: Track,
    k: usize,
    e: Entry,
) -> Result<Track, Track> {
    match tracker::advance(course.job, t, e) {
        Ok(next) => {
            write!(page, "entry {k}: {}, ", Stated::from(e));
            say_place(page, next);
            Ok(next)
        }
        Err(Unmoved::Stays(before, r)) => {
            course.say_refused(page, r);
            course.say_met(page, e, r);
            writeln!(page, "entry {k}: {}", Stated::from(e));
            say_waited(page, r);
            writeln!(page, "rank: {}", before.rank.0);
            writeln!(page, "flag: {}", Flag(before.flag));
            Err(before)
        }
        Err(Unmoved::Refused(r)) => {
            course.say_refused(page, r);
            Err(t)
        }
    }
}

// The state after the journal; or the one that stays, where an entry is refused.
fn follow(page: &mut Page, course: &Course, start: Track) -> Result<Track, Track> {
    let mut t = start;
    for k in 0..course.journal.bytes.len() / 3 {
        if let Some(e) = course.entry(k) {
            t = advanced(page, course, t, k, e)?;
        }
    }
    Ok(t)
}

fn say_tracked(page: &mut Page, course: &Course, start: Track) -> Answer {
    write!(page, "start: ");
    say_place(page, start);
    match follow(page, course, start) {
        Ok(end) => {
            say_marking(page, end.marking);
            Answer::Answered
        }
        Err(end) => {
            say_marking(page, end.marking);
            Answer::Refused
        }
    }
}

pub fn track(page: &mut Page, course: &Course) -> Answer {
    if !is_journal(course.journal.bytes) {
        return say_unmeasured(page, course.journal);
    }
    match tracker::start(course.job, course.start) {
        Ok(start) => say_tracked(page, course, start),
        Err(Unmoved::Refused(r) | Unmoved::Stays(_, r)) => course.say_unstarted(page, r),
    }
}
