// Folding journals into records, and going on from a record.
#![tactic(auto)]

ghost use Rattle.std.specs.Prelude.{◌≡◌};
ghost use Rattle.rules.specs.Graph.{graph_of};
ghost use Rattle.folding.specs.Answers.{the_fold, the_restoring};

use crate::inner::fold_entries;
use journal::inner::length_fits;
use journal::{Ended, Stopped};
use moves::{Marking, Refusal};
use records::Record;
use records::inner::{given, suits, well_formed};
use rules::Job;

pub mod inner;

// The record of a journal on a graph. Refusals 2, 4, 6, 7.
pub fn fold<'a, 'b>(g: &'a Job, j: &'b [u8]) -> Result<Record, Refusal>
    ensures { result ≡ the_fold (graph_of g.now) j.now }
{
    rules::check(g)?;
    if !length_fits(j) {
        return Err(Refusal::Length);
    }
    Ok(fold_entries(g, j))
}

// A record, then the rest of a journal, from a marking: what a cabinet does after a reboot. Refusals 2, 4, 6, 7, 8, 10, 16, then 11
// to 15 of the earliest refused entry.
pub fn restore<'a, 'b>(g: &'a Job, r: Record, j: &'b [u8], m: Marking) -> Result<Ended, Stopped>
    ensures { result ≡ the_restoring (graph_of g.now) r j.now m }
{
    let steps = g[0];
    rules::check(g)?;
    if !length_fits(j) {
        return Err(Stopped::from(Refusal::Length));
    }
    if !moves::inner::fits(steps, m) {
        return Err(Stopped::from(Refusal::Outside));
    }
    if !well_formed(steps, r) {
        return Err(Stopped::from(Refusal::IllFormed));
    }
    if !suits(r, m) {
        return Err(Stopped {
            index: 0,
            marking: m,
            refusal: Refusal::NotApplied,
        });
    }
    journal::quick::run_entries(g, given(r, m), j)
}
