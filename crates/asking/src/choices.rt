// Who may take which step now, and what keeps the others back: all people, or one of them.
ghost use Rattle.std.specs.Prelude.{◌<◌};

use crate::whom::{steps_held, steps_of, steps_to_each};
use journal::Ended;
use lines::display::Set;
use lines::refusals::say_refused;
use lines::states::{Stated, say_ending, say_marking};
use moves::inner::waits;
use moves::{Entry, Marking, Refusal, Step};
use output::page::Page;
use output::status::Answer;
use rules::{CONDITIONS, Job};
use running::course::Course;

// The step stands first: the lines go step by step.
fn say_may(page: &mut Page, e: Entry) {
    let Step(s) = e.step;
    writeln!(page, "may: step {s}, person {}, role {}", e.person, e.role);
}

// What is shown of a job at a marking, of the person or of all: the steps that are allowed to them, those that they hold a role for, and
// those that are allowed to each person.
#[derive(Clone, Copy)]
struct Shown<'a> {
    job: &'a Job,
    marking: Marking,
    person: Option<u64>,
    now: u64,
    held: u64,
    to: [u64; 16],
}

impl Shown<'_> {
    // The step is allowed to the person: in which roles?
    fn say_roles(&self, page: &mut Page, s: u8, person: u8) {
        // A role that there is not is refused.
        for role in 0..16 {
            let e = Entry {
                person,
                step: Step(s),
                role,
            };
            if rules::ask(self.job, self.marking, e).is_ok() {
                say_may(page, e);
            }
        }
    }

    fn say_people(&self, page: &mut Page, s: u8)
        requires { s < 64 }
    {
        for (person, steps) in (0..16).zip(&self.to) {
            if sets::has(*steps, s) {
                self.say_roles(page, s, person);
            }
        }
    }

    // Whoever comes furthest is kept back by what the step waits for, or by its exclusion; else nobody comes as far.
    fn say_back(&self, page: &mut Page, s: u8)
        requires { s < 64 }
    {
        if !sets::has(self.held, s) {
            match self.person {
                None => writeln!(page, ", nobody holds a role that it has"),
                Some(p) => writeln!(page, ", person {p} holds no role that it has"),
            }
        } else if !sets::has(self.marking.included, s) {
            writeln!(page, ", not included");
        } else {
            let open = waits(self.job[CONDITIONS + s as usize], self.marking);
            writeln!(page, ", waits for {}", Set(open));
        }
    }

    fn say_choice(&self, page: &mut Page, s: u8)
        requires { s < 64 }
    {
        if sets::has(self.now, s) {
            self.say_people(page, s);
            return;
        }
        write!(page, "blocked: step {s}");
        self.say_back(page, s);
    }

    fn say_choices(&self, page: &mut Page) {
        for s in 0..self.job[0].min(64) {
            self.say_choice(page, s as u8);
        }
    }
}

// The person was named by the call, so that no file is; and there is no entry.
fn say_nobody(page: &mut Page, g: &Job, m: Marking, person: Option<u64>, r: Refusal) -> Answer {
    let refused = say_refused(page, None, r);
    let stated = Stated {
        person: person.unwrap_or(0),
        step: 0,
        role: 0,
    };
    finding::entries::say_found(page, g, stated, r);
    say_marking(page, m);
    refused
}

// The steps `now` are what is allowed to them.
fn say_shown(page: &mut Page, g: &Job, end: Ended, person: Option<u64>, now: u64) -> Answer {
    let m = end.marking;
    writeln!(page, "entries: {}", end.entries);
    say_marking(page, m);
    let shown = Shown {
        job: g,
        marking: m,
        person,
        now,
        held: steps_held(g, person),
        to: steps_to_each(g, m, person),
    };
    shown.say_choices(page);
    say_ending(page, rules::finished(g, m), m)
}

fn may_at(page: &mut Page, g: &Job, end: Ended, person: Option<u64>) -> Answer {
    match steps_of(g, end.marking, person) {
        Ok(now) => say_shown(page, g, end, person, now),
        Err(r) => say_nobody(page, g, end.marking, person, r),
    }
}

// All people, or the person who is named.
pub fn may(page: &mut Page, course: &Course, person: Option<u64>) -> Answer {
    match course.run() {
        Ok(end) => may_at(page, course.job, end, person),
        Err(stopped) => course.say_halted(page, stopped),
    }
}
