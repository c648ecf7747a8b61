// What the search came to.
use crate::search::{MOST, searched};
use deadend::Ends;
use journal::Ended;
use lines::refusals::say_refused;
use lines::states::say_marking;
use moves::{Marking, Refusal};
use output::page::Page;
use output::status::Answer;
use rules::Job;

// A larger store could tell, if there is one.
fn say_undecided(page: &mut Page, markings: u64, looked: u16) -> Answer {
    let hope = if markings < MOST {
        "a larger one could tell"
    } else {
        "and it may not have more"
    };
    writeln!(page, "can end: undecided\nlooked at: {looked}");
    writeln!(page, "store: {markings} markings are too few, {hope}");
    Answer::Unsure
}

fn say_ends(page: &mut Page, markings: u64, ends: Ends) -> Answer {
    match ends {
        Ends::Undecided(looked) => say_undecided(page, markings, looked),
        Ends::None(looked) => {
            writeln!(page, "can end: no\nlooked at: {looked}");
            Answer::No
        }
        Ends::Reachable(fewest, looked) => {
            writeln!(
                page,
                "can end: yes\nfewest entries: {fewest}\nlooked at: {looked}"
            );
            Answer::Answered
        }
    }
}

// From marking m, with a store for that many markings.
pub fn say_from(page: &mut Page, g: &Job, m: Marking, markings: u64) -> Answer {
    match searched(g, m, markings) {
        Ok(ends) => say_ends(page, markings, ends),
        Err(r) => say_refused(page, None, r),
    }
}

// The store is in no file.
fn say_unsearched(page: &mut Page, m: Marking, markings: u64, r: Refusal) -> Answer {
    let refused = say_refused(page, None, r);
    finding::stores::say_found(page, markings);
    say_marking(page, m);
    refused
}

// From where a journal has ended.
pub fn say_after(page: &mut Page, g: &Job, end: Ended, markings: u64) -> Answer {
    let m = end.marking;
    match searched(g, m, markings) {
        Ok(ends) => {
            writeln!(page, "entries: {}", end.entries);
            say_marking(page, m);
            say_ends(page, markings, ends)
        }
        Err(r) => say_unsearched(page, m, markings, r),
    }
}
