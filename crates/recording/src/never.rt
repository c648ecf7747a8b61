// Why a journal can never pass.
use files::complaints::{Complained, complain};
use journal::Stopped;
use lines::refusals::words;
use lines::states::Stated;
use moves::{Refusal, Step};
use output::page::Page;
use rules::{EXCLUDES, Job};
use running::course::Course;
use running::markings::all_done;
use std::convert::From;

fn excludes(g: &Job, a: Step, s: Step) -> bool {
    a.0 < 64 && s.0 < 64 && sets::has(g[EXCLUDES + a.0 as usize], s.0)
}

// Does entry i exclude step s?
fn excludes_at(course: &Course, i: u16, s: Step) -> bool {
    course
        .entry(usize::from(i))
        .is_some_and(|e| excludes(course.job, e.step, s))
}

// The last entry before k that excludes step s.
fn excluder(course: &Course, k: u16, s: Step) -> Option<u16> {
    (0..k).rev().find(|i| excludes_at(course, *i, s))
}

fn say_excluder(page: &mut Page, course: &Course, k: u16, s: Step) {
    if let Some(i) = excluder(course, k, s) {
        writeln!(
            page,
            "entry {i} has excluded the step, and none since has included it"
        );
    }
}

fn say_because(page: &mut Page, course: &Course, s: Stopped) {
    let k = s.index;
    if let Some(e) = course.entry(usize::from(k)) {
        write!(page, "because: entry {k}: {}, ", Stated::from(e));
        match s.refusal {
            Refusal::Excluded => say_excluder(page, course, k, e.step),
            r => writeln!(page, "{}", words(r)),
        }
    }
}

// From the marking in which everything is done and included the run stops at the entry that is asked for.
pub fn say_never(page: &mut Page, course: &Course) -> Complained {
    writeln!(page, "never: yes");
    let furthest = Course {
        start: all_done(course.job[0].min(64)),
        ..*course
    };
    if let Err(stopped) = furthest.run() {
        say_because(page, course, stopped);
    }
    complain(
        &page.rt(),
        "ulz: fold: no marking lets this journal pass, nothing is written; --never writes the record that says so\n",
    )
}
