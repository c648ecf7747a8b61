// Runs the paper's worked examples: Fig. 3(a), the two runs of Fig. 5 on Fig. 3(b), and the automaton of Fig. 3(a) (Fig. 6). What is
// written is held against crates/hospital/stdout, and that against the paper's text, which is quoted here state by state.
#![tactic(auto)]

use events::Event;
use events::Event::{Distrust, Give, Prescribe, Sign};
use graphs::{START_A, START_B};
use moves::Marking;
use output::page::Page;
use rules::Job;
use show::{say_marking, say_track};
use tracker::{Track, Unmoved};

mod events;
mod graphs;
mod show;

// Take a step and show the state after it.
fn act(page: &mut Page, g: &Job, m: Marking, e: Event) -> Marking {
    write!(page, "{e}");
    match rules::take(g, m, e.entry()) {
        Ok(next) => {
            writeln!(page);
            say_marking(page, g, next);
            next
        }
        Err(denied) => {
            writeln!(page, ": refused");
            denied.marking
        }
    }
}

// The start, and the state after each step.
fn run(page: &mut Page, g: &Job, start: Marking, events: &[Event]) {
    writeln!(page, "start");
    say_marking(page, g, start);
    let mut m = start;
    for e in events {
        m = act(page, g, m, *e);
    }
}

// Medicine is given several times, and a new prescription with its signature comes between without holding the nurse up.
const FIGURE_3A: [Event; 8] = [Give, Prescribe, Sign, Give, Give, Prescribe, Give, Sign];

// Four states: at first only prescribe medicine is free; after it sign and give medicine are due, and sign is free; after sign the other
// two are free; after give medicine don't trust is out.
const FIGURE_5A: [Event; 3] = [Prescribe, Sign, Give];

// Six states: the third step is don't trust, after which give medicine is out and still due, and sign is due; sign lets give medicine in
// again; at the end everything was done once and don't trust is out.
const FIGURE_5B: [Event; 5] = [Prescribe, Sign, Distrust, Sign, Give];

// A step of the automaton.
fn track(page: &mut Page, g: &Job, t: Track, e: Event) -> Track {
    write!(page, "{e}");
    match tracker::advance(g, t, e.entry()) {
        Ok(next) => {
            say_track(page, next);
            next
        }
        Err(Unmoved::Stays(before, _)) => {
            writeln!(page, ": refused");
            before
        }
        Err(Unmoved::Refused(_)) => {
            writeln!(page, ": refused");
            t
        }
    }
}

// In S7 and in S11 sign, of rank 1, and give medicine are both pending. From S7 sign leads to S10, whose flag is up, and give medicine to
// S9, whose flag is down. From S11 it is the other way round: give medicine leads to S16 with the flag up, sign to S12 with the flag down.
fn figure_6(page: &mut Page, g: &Job) {
    write!(page, "\nFig. 6\nstart");
    let Ok(start) = tracker::start(g, START_A) else {
        writeln!(page, ": refused");
        return;
    };
    say_track(page, start);
    let a = track(page, g, start, Prescribe);
    let b = track(page, g, a, Sign);
    let c = track(page, g, b, Give);
    write!(page, "to S7: ");
    let s7 = track(page, g, c, Prescribe);
    write!(page, "S7 to S9: ");
    track(page, g, s7, Give);
    write!(page, "S7 to S10: ");
    let s10 = track(page, g, s7, Sign);
    write!(page, "to S11: ");
    let s11 = track(page, g, s10, Prescribe);
    write!(page, "S11 to S12: ");
    track(page, g, s11, Sign);
    write!(page, "S11 to S16: ");
    track(page, g, s11, Give);
}

fn main(rt: HostRuntime) {
    let mut page = Page::blank(rt);
    let a = graphs::prescribe();
    let b = graphs::check();
    writeln!(page, "Fig. 3(a)");
    run(&mut page, &a, START_A, &FIGURE_3A);
    writeln!(page, "\nFig. 5(a)");
    run(&mut page, &b, START_B, &FIGURE_5A);
    writeln!(page, "\nFig. 5(b)");
    run(&mut page, &b, START_B, &FIGURE_5B);
    figure_6(&mut page, &a);
    page.flush();
}
