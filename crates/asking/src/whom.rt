// The steps that are allowed to the people spoken of, as sets: to the person, or to all where none is named.
use greying::{allowed_to, allowed_to_someone};
use moves::{Marking, Refusal};
use rules::Job;
use running::markings::all_done;
use std::array;

pub fn steps_of(g: &Job, m: Marking, person: Option<u64>) -> Result<u64, Refusal> {
    match person {
        Some(p) => allowed_to(g, m, p),
        None => allowed_to_someone(g, m),
    }
}

// The steps that they hold a role for: where all are done and included, only a role can be missing.
pub fn steps_held(g: &Job, person: Option<u64>) -> u64 {
    steps_of(g, all_done(g[0].min(64)), person).unwrap_or(0)
}

fn steps_to(g: &Job, m: Marking, person: Option<u64>, p: u64) -> u64 {
    if person.is_none_or(|named| named == p) {
        allowed_to(g, m, p).unwrap_or(0)
    } else {
        0
    }
}

// The steps that are allowed to each person: none to one who is not spoken of.
pub fn steps_to_each(g: &Job, m: Marking, person: Option<u64>) -> [u64; 16] {
    array::from_fn(|p| steps_to(g, m, person, p as u64))
}
