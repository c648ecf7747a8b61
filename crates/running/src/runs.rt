// Journals run from a marking.
use crate::course::Course;
use crate::markings::{keep_marking, say_kept};
use files::complaints::Complained;
use files::writing::Target;
use journal::Ended;
use lines::states::{say_ending, say_marking};
use output::page::Page;
use output::status::Answer;
use reporting::ends::say_after;
use rules::Job;

pub fn say_ended(page: &mut Page, g: &Job, end: Ended, t: Target) -> Result<Answer, Complained> {
    let m = end.marking;
    keep_marking(page, t, m)?;
    writeln!(page, "entries: {}", end.entries);
    say_marking(page, m);
    let ending = say_ending(page, rules::finished(g, m), m);
    say_kept(page, t);
    Ok(ending)
}

pub fn run(page: &mut Page, course: &Course, t: Target) -> Result<Answer, Complained> {
    match course.run() {
        Ok(end) => say_ended(page, course.job, end, t),
        Err(stopped) => Ok(course.say_halted(page, stopped)),
    }
}

// Is the job finished after the journal?
pub fn finished(page: &mut Page, course: &Course) -> Answer {
    match course.run() {
        Ok(end) => say_ending(page, rules::finished(course.job, end.marking), end.marking),
        Err(stopped) => course.say_halted(page, stopped),
    }
}

// Can the job still end after the journal? Looked for with a store for that many markings.
pub fn ends(page: &mut Page, course: &Course, markings: u64) -> Answer {
    match course.run() {
        Ok(end) => say_after(page, course.job, end, markings),
        Err(stopped) => course.say_halted(page, stopped),
    }
}
