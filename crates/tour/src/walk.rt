// The accident, step by step. The texts are ours; what is allowed, each marking and the record are the box's answers.
use crate::job::{CHECK, PUBLISH, REBOOT, START, job, rewritten, role_name, step_name};
use crate::parts::Folder;
use files::complaints::Complained;
use lines::refusals::{Numbered, say_refused};
use lines::states::{say_ending, say_marking, say_record};
use moves::{Entry, Marking, Step};
use output::page::Page;
use output::status::Answer;
use records::Record;
use reporting::ends::say_from;
use reporting::search::MOST;
use rules::Job;

fn say_state(page: &mut Page, g: &Job, m: Marking) {
    say_marking(page, m);
    say_ending(page, rules::finished(g, m), m);
}

fn say_wish(page: &mut Page, e: Entry) {
    let Step(s) = e.step;
    let who = role_name(e.role);
    write!(page, "\nThe {who} takes step {s}, {}: ", step_name(s));
}

// Somebody wants to take a step. The marking after it, or the same where it is not allowed.
fn tried(page: &mut Page, g: &Job, m: Marking, who: [u8; 3]) -> Marking {
    let [person, step, role] = who;
    let e = Entry {
        person,
        step: Step(step),
        role,
    };
    say_wish(page, e);
    match rules::take(g, m, e) {
        Ok(next) => {
            writeln!(page, "allowed");
            say_state(page, g, next);
            next
        }
        Err(denied) => {
            writeln!(page, "not allowed: {}", Numbered(denied.refusal));
            denied.marking
        }
    }
}

// Can the job still end from marking m, as the reboot has left it? And a job with a slip, after a reboot of its own?
fn look_ahead(page: &mut Page, g: &Job, m: Marking) -> Answer {
    writeln!(
        page,
        "\nCan the job still end after the reboot, where only the check is due?"
    );
    say_from(page, g, m, MOST);
    writeln!(
        page,
        "\nThe office writes the job anew, and by a slip no role is left to the order check."
    );
    let other = rewritten();
    let rebooted = tried(page, &other, START, REBOOT);
    say_from(page, &other, rebooted, MOST);
    writeln!(
        page,
        "The check is due, and nobody may do it: a dead end, found before anyone is on the mast."
    );
    Answer::Answered
}

// What follows where the cabinet has started again.
fn go_on(page: &mut Page, g: &Job, m: Marking) -> Answer {
    say_state(page, g, m);
    let still = tried(page, g, m, PUBLISH);
    write!(page, "The record has kept that the check is due. ");
    writeln!(
        page,
        "A box that started again from a shortened journal had lost it: the accident."
    );
    let checked = tried(page, g, still, CHECK);
    tried(page, g, checked, PUBLISH);
    look_ahead(page, g, m)
}

fn start_again(page: &mut Page, g: &Job, r: Record) -> Answer {
    say_record(page, r);
    writeln!(
        page,
        "\nThe cabinet forgets the journal and starts again from the record:"
    );
    match folding::restore(g, r, b"", START) {
        Ok(end) => go_on(page, g, end.marking),
        Err(stopped) => say_refused(page, None, stopped.refusal),
    }
}

fn say_walk(page: &mut Page, g: &Job) -> Answer {
    write!(
        page,
        "\nA job of three steps: 0 reboot, 1 order check, 2 publish. "
    );
    writeln!(page, "After a reboot the order of the sensors is checked");
    write!(
        page,
        "before anything is published. Person 0 is a climber, "
    );
    writeln!(
        page,
        "role 0; person 1 sits at the desk, role 1. At the start:"
    );
    say_state(page, g, START);
    let rebooted = tried(page, g, START, REBOOT);
    tried(page, g, rebooted, PUBLISH);
    writeln!(
        page,
        "\nThe journal so far, one entry, is folded into a record of 65 bytes:"
    );
    match folding::fold(g, &REBOOT) {
        Ok(r) => start_again(page, g, r),
        Err(r) => say_refused(page, None, r),
    }
}

// The files into the folder, then the walk.
pub fn sample(page: &mut Page, folder: Folder) -> Result<Answer, Complained> {
    let g = job();
    folder.store_parts(page, &g)?;
    Ok(say_walk(page, &g))
}
