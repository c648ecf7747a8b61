// Numbers 5 and 6 of a sheet: the first arrow that is wrong or out of order, and the first pair that both includes and excludes.
use crate::said::{Body, Sheet};
use arrows::runs::Arrow;
use finding::words::{All, say_finding};
use output::page::Page;
use std::fmt;
use std::fmt::Display;

// An arrow in a line: kind, from, to.
#[derive(Clone, Copy)]
struct Triple(Arrow);

impl Display for Triple {
    fn fmt<W: fmt::Write>(&self, f: &mut fmt::Formatter<W>) -> fmt::Result {
        let Arrow { kind, from, to } = self.0;
        write!(f, "{kind} {from} {to}")
    }
}

// What is wrong with an arrow.
#[derive(Clone, Copy)]
enum Why {
    Kind,
    Step,
    // the arrow before it is no lower one
    Order(Arrow),
}

// An arrow, counted from 0, and what is wrong with it.
#[derive(Clone, Copy)]
struct Wrong {
    at: usize,
    arrow: Arrow,
    why: Why,
}

fn wrong_with(before: Option<Arrow>, a: Arrow, steps: usize) -> Option<Why> {
    if 3 < a.kind {
        return Some(Why::Kind);
    }
    if steps <= a.from as usize {
        return Some(Why::Step);
    }
    if steps <= a.to as usize {
        return Some(Why::Step);
    }
    match before {
        Some(b) if a <= b => Some(Why::Order(b)),
        _ => None,
    }
}

fn first_wrong(arrows: &[u8], steps: usize) -> Option<Wrong> {
    let (arrows, _) = arrows.as_chunks::<3>();
    let mut before = None;
    for (at, bytes) in arrows.iter().enumerate() {
        let [kind, from, to] = *bytes;
        let arrow = Arrow { kind, from, to };
        if let Some(why) = wrong_with(before, arrow, steps) {
            return Some(Wrong { at, arrow, why });
        }
        before = Some(arrow);
    }
    None
}

pub fn say_wrong(page: &mut Page, sheet: Sheet) {
    let steps = sheet.steps();
    let Some(Wrong { at, arrow, why }) = first_wrong(sheet.bytes(Body::Arrows), steps) else {
        return;
    };
    let shown = Triple(arrow);
    match why {
        Why::Kind => say_finding(
            page,
            format_args!("arrow {at} is {shown}"),
            "a kind from 0 to 3",
        ),
        Why::Step => say_finding(
            page,
            format_args!("arrow {at} is {shown}"),
            All("steps", steps as u64),
        ),
        Why::Order(before) => {
            let last = Triple(before);
            say_finding(
                page,
                format_args!("arrow {at} is {shown}, after {last}"),
                "arrows in ascending order, no arrow twice",
            );
        }
    }
}

// A step, and the lowest of the steps that it both includes and excludes.
#[derive(Clone, Copy)]
struct Both {
    from: usize,
    to: u8,
}

fn shared(includes: &[u64], excludes: &[u64]) -> Option<Both> {
    for (from, (a, b)) in includes.iter().zip(excludes).enumerate() {
        let both = sets::meet(*a, *b);
        if both != 0 {
            return Some(Both {
                from,
                to: sets::lowest(both),
            });
        }
    }
    None
}

fn first_both(arrows: &[u8], steps: usize) -> Option<Both> {
    let mut table = [0u64; 256];
    if 64 < steps {
        return None;
    }
    if arrows.len() % 3 != 0 {
        return None;
    }
    arrows::read(arrows, steps as u8, &mut table);
    shared(&table[128..192], &table[192..])
}

pub fn say_both(page: &mut Page, sheet: Sheet) {
    if let Some(Both { from, to }) = first_both(sheet.bytes(Body::Arrows), sheet.steps()) {
        say_finding(
            page,
            format_args!("step {from} includes and excludes step {to}"),
            "one of the two",
        );
    }
}
