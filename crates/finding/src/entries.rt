// Numbers 11 to 15: what an entry that is not allowed meets of the graph, and what the refusal itself tells.
use crate::words::{All, say_finding};
use lines::display::Set;
use lines::states::Stated;
use moves::Refusal;
use output::page::Page;
use rules::{ALLOWS, HOLDS, Job, LABELS};

fn say_unknown(page: &mut Page, g: &Job, e: Stated) {
    let Stated { person, step, role } = e;
    let steps = g[0];
    let people = g[1];
    let roles = g[2];
    if people <= person {
        say_finding(page, format_args!("person {person}"), All("people", people));
    } else if steps <= step {
        say_finding(page, format_args!("step {step}"), All("steps", steps));
    } else {
        say_finding(page, format_args!("role {role}"), All("roles", roles));
    }
}

fn say_holder(page: &mut Page, g: &Job, e: Stated) {
    let Stated { person, role, .. } = e;
    if 15 < person {
        return;
    }
    let held = Set(g[HOLDS + person as usize]);
    say_finding(
        page,
        format_args!("person {person}, roles {held}"),
        format_args!("role {role} among them"),
    );
}

// A step has the roles of its action.
fn say_action(page: &mut Page, g: &Job, e: Stated) {
    let Stated { step, role, .. } = e;
    if 63 < step {
        return;
    }
    let action = g[LABELS + step as usize];
    if 63 < action {
        return;
    }
    let allows = Set(g[ALLOWS + action as usize]);
    say_finding(
        page,
        format_args!("step {step}, action {action}, roles {allows}"),
        format_args!("role {role} among them"),
    );
}

fn say_excluded(page: &mut Page, step: u64) {
    say_finding(page, format_args!("step {step}, excluded"), "included");
}

fn say_waits(page: &mut Page, waiting: u64, step: u64) {
    let waiting = Set(waiting);
    say_finding(
        page,
        format_args!("steps {waiting}, included and not done"),
        format_args!("done before step {step}"),
    );
}

pub fn say_found(page: &mut Page, g: &Job, e: Stated, r: Refusal) {
    match r {
        Refusal::Unknown => say_unknown(page, g, e),
        Refusal::NotHeld => say_holder(page, g, e),
        Refusal::NotOnStep => say_action(page, g, e),
        Refusal::Excluded => say_excluded(page, e.step),
        Refusal::Waits(waiting) => say_waits(page, waiting, e.step),
        _ => {}
    }
}
