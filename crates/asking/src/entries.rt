// One entry more behind a journal: is it allowed, and is it put there?
use files::appending::{End, append};
use files::complaints::Complained;
use journal::Ended;
use lines::refusals::{say_refused, say_waited};
use lines::states::{Stated, say_ending, say_marking};
use moves::{Entry, Marking, Refusal, Step};
use output::page::Page;
use output::status::Answer;
use rules::Job;
use running::course::Course;

// The most bytes that a journal may have: no entry more fits.
const FULL: usize = 65535;

// An entry's parts are bytes, for C. There are at most 64 of anything, so that 255 stands for every number that no byte has: nobody, no
// step, no role.
fn narrow(x: u64) -> u8 {
    u8::try_from(x).unwrap_or(u8::MAX)
}

fn entry_of(e: Stated) -> Entry {
    Entry {
        person: narrow(e.person),
        step: Step(narrow(e.step)),
        role: narrow(e.role),
    }
}

fn say_full(page: &mut Page, course: &Course) -> Answer {
    let refused = say_refused(page, course.journal.at, Refusal::Length);
    finding::journals::say_full(page, course.journal.bytes);
    refused
}

// The entry stands in no file, so that none is named.
fn say_not(page: &mut Page, g: &Job, end: Ended, e: Stated, r: Refusal) -> Answer {
    let refused = say_refused(page, None, r);
    finding::entries::say_found(page, g, e, r);
    writeln!(page, "entry {}: {e}", end.entries);
    say_waited(page, r);
    say_marking(page, end.marking);
    refused
}

fn ask_at(page: &mut Page, g: &Job, end: Ended, e: Stated) -> Answer {
    match rules::ask(g, end.marking, entry_of(e)) {
        Ok(()) => {
            writeln!(page, "allowed: yes\nentry {}: {e}", end.entries);
            Answer::Answered
        }
        Err(r) => say_not(page, g, end, e, r),
    }
}

// The entry behind the journal.
pub fn ask(page: &mut Page, course: &Course, e: Stated) -> Answer {
    if course.journal.bytes.len() == FULL {
        return say_full(page, course);
    }
    match course.run() {
        Ok(end) => ask_at(page, course.job, end, e),
        Err(stopped) => course.say_halted(page, stopped),
    }
}

// Puts the entry's bytes behind the journal that argument `at` names. A journal that was not found is made. Where none is named, nothing
// can be said to be taken.
fn keep(page: &Page, at: Option<usize>, end: Option<u32>, e: Entry) -> Result<(), Complained> {
    match at {
        Some(at) => append(
            &page.rt(),
            End { at, length: end },
            &[e.person, e.step.0, e.role],
        ),
        None => Err(Complained),
    }
}

fn say_taken(page: &mut Page, g: &Job, after: Marking, k: u16, e: Stated) -> Answer {
    writeln!(page, "taken: yes\nentry {k}: {e}");
    say_marking(page, after);
    say_ending(page, rules::finished(g, after), after)
}

// It is said to be taken when it is on the device.
fn take_at(
    page: &mut Page,
    course: &Course,
    end: Ended,
    e: Stated,
    at: Option<usize>,
) -> Result<Answer, Complained> {
    let entry = entry_of(e);
    match rules::take(course.job, end.marking, entry) {
        Ok(after) => {
            let k = end.entries;
            let found = course.journal.at;
            keep(page, at, found.map(|_| 3 * u32::from(k)), entry)?;
            Ok(say_taken(page, course.job, after, k, e))
        }
        Err(denied) => Ok(say_not(page, course.job, end, e, denied.refusal)),
    }
}

// The same, and an entry that is allowed is put behind the journal that argument `at` names. It may not be there yet: then nothing
// names the course's journal, and it is made.
pub fn take(
    page: &mut Page,
    course: &Course,
    e: Stated,
    at: Option<usize>,
) -> Result<Answer, Complained> {
    if course.journal.bytes.len() == FULL {
        return Ok(say_full(page, course));
    }
    match course.run() {
        Ok(end) => take_at(page, course, end, e, at),
        Err(stopped) => Ok(course.say_halted(page, stopped)),
    }
}
