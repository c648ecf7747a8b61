// A graph, line by line.
ghost use Rattle.std.specs.Prelude.{◌<◌};

use lines::display::Set;
use moves::Marking;
use output::page::Page;
use rules::{ALLOWS, CONDITIONS, EXCLUDES, HOLDS, INCLUDES, Job, LABELS, RESPONSES};

pub fn say_counts(page: &mut Page, g: &Job) {
    writeln!(page, "steps: {}", g[0]);
    writeln!(page, "people: {}", g[1]);
    writeln!(page, "roles: {}", g[2]);
    writeln!(page, "actions: {}", g[3]);
}

// The four tables of arrows stand one behind the other, and a row names the steps that it points at.
pub fn say_arrow_count(page: &mut Page, g: &Job) {
    // By a loop: that what `sum` adds up fits was tried, and did not prove.
    let mut total = 0;
    for x in &g[CONDITIONS..ALLOWS] {
        total += x.count_ones();
    }
    writeln!(page, "arrows: {total}");
}

pub fn say_people(page: &mut Page, g: &Job) {
    for (p, roles) in (0..g[1]).zip(&g[HOLDS..LABELS]) {
        writeln!(page, "person {p}: roles {}", Set(*roles));
    }
}

pub fn say_actions(page: &mut Page, g: &Job) {
    for (a, roles) in (0..g[3]).zip(&g[ALLOWS..HOLDS]) {
        writeln!(page, "action {a}: roles {}", Set(*roles));
    }
}

fn roles_of(g: &Job, action: u64) -> u64 {
    if action < 64 {
        g[ALLOWS + action as usize]
    } else {
        0
    }
}

// A step has the roles of its action.
fn say_step(page: &mut Page, g: &Job, s: u8, m: Marking)
    requires { s < 64 }
{
    let action = g[LABELS + s as usize];
    write!(
        page,
        "step {s}: action {action}, roles {}",
        Set(roles_of(g, action))
    );
    if sets::has(m.included, s) {
        write!(page, ", included");
    } else {
        write!(page, ", excluded");
    }
    if sets::has(m.done, s) {
        write!(page, ", done");
    }
    if sets::has(m.due, s) {
        write!(page, ", due");
    }
    writeln!(page);
}

pub fn say_steps(page: &mut Page, g: &Job, m: Marking) {
    for s in 0..g[0].min(64) {
        say_step(page, g, s as u8, m);
    }
}

#[derive(Clone, Copy)]
enum Kind {
    Condition,
    Response,
    Include,
    Exclude,
}

// The arrow from a to b.
fn say_arrow(page: &mut Page, kind: Kind, a: usize, b: u8) {
    match kind {
        Kind::Condition => {
            write!(page, "condition {a} {b}: if step {a} is included, ");
            writeln!(page, "it must have been done before step {b}");
        }
        Kind::Response => {
            writeln!(page, "response {a} {b}: doing step {a} makes step {b} due");
        }
        Kind::Include => {
            writeln!(page, "include {a} {b}: doing step {a} includes step {b}");
        }
        Kind::Exclude => {
            writeln!(page, "exclude {a} {b}: doing step {a} excludes step {b}");
        }
    }
}

// The arrows of a kind: row a holds the steps that a points at.
fn say_kind(page: &mut Page, kind: Kind, rows: &[u64]) {
    for (a, x) in rows.iter().enumerate() {
        for b in sets::members(*x) {
            say_arrow(page, kind, a, b);
        }
    }
}

// A graph holds a condition with the step that waits; the line has it from the step that is waited for.
pub fn say_arrows(page: &mut Page, g: &Job) {
    let steps = g[0].min(64) as u8;
    let turned = arrows::turned(steps, &g[CONDITIONS..RESPONSES]);
    say_kind(page, Kind::Condition, &turned);
    say_kind(page, Kind::Response, &g[RESPONSES..INCLUDES]);
    say_kind(page, Kind::Include, &g[INCLUDES..EXCLUDES]);
    say_kind(page, Kind::Exclude, &g[EXCLUDES..ALLOWS]);
}
