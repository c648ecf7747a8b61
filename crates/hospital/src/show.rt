// States as plain lines.
use crate::events::Event;
use moves::Marking;
use output::page::Page;
use rules::{CONDITIONS, Job};
use tracker::Track;

// What the icons of Fig. 5 say of a step: its box dashed if it is excluded, a tick if it has been done, a mark if it is due, and a
// sign if a condition of it is included and not done.
fn say_step(page: &mut Page, g: &Job, m: Marking, e: Event) {
    let s = e as u8;
    write!(page, "  {e}:");
    if sets::has(m.included, s) {
        write!(page, " included");
    } else {
        write!(page, " excluded");
    }
    if sets::has(m.done, s) {
        write!(page, ", done");
    }
    if sets::has(m.due, s) {
        write!(page, ", due");
    }
    if moves::inner::waits(g[CONDITIONS + e as usize], m) != 0 {
        write!(page, ", blocked");
    }
    writeln!(page);
}

pub fn say_marking(page: &mut Page, g: &Job, m: Marking) {
    say_step(page, g, m, Event::Prescribe);
    say_step(page, g, m, Event::Sign);
    say_step(page, g, m, Event::Give);
    if 3 < g[0] {
        say_step(page, g, m, Event::Distrust);
    }
    if m.due & m.included == 0 {
        writeln!(page, "  finished");
    } else {
        writeln!(page, "  not finished");
    }
}

pub fn say_track(page: &mut Page, t: Track) {
    let due = t.marking.due & t.marking.included;
    let verdict = if t.flag { "accepting" } else { "not accepting" };
    write!(page, ": rank {}, {verdict}, due:", t.rank.0);
    for e in [Event::Sign, Event::Give] {
        if sets::has(due, e as u8) {
            write!(page, " {e}");
        }
    }
    if due == 0 {
        write!(page, " nothing");
    }
    writeln!(page);
}
