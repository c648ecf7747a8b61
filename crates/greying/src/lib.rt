// Which steps are not grey: those that a person may take now in some role, and those that someone may.
#![tactic(auto)]

ghost use Rattle.std.specs.Prelude.{◌≡◌};
ghost use Rattle.rules.specs.Graph.{graph_of};
ghost use Rattle.greying.specs.Greying.{the_choice, the_choice_of_all};

use crate::inner::{choice_of_all_on, choice_on};
use moves::{Marking, Refusal};
use rules::Job;

pub mod inner;

// The steps that are allowed to the person. Refusals 2, 4, 6, 8, 11.
pub fn allowed_to(g: &Job, m: Marking, person: u64) -> Result<u64, Refusal>
    ensures value { result ≡ the_choice (graph_of g.now) m person }
    ensures lent { g.exit.now ≡ g.entry.now }
{
    rules::check(g)?;
    choice_on(g, m, person)
}

// The steps that are allowed to someone. Two calls and no `Option`: C has both, and 11 is of the first alone. Refusals 2, 4, 6, 8.
pub fn allowed_to_someone(g: &Job, m: Marking) -> Result<u64, Refusal>
    ensures value { result ≡ the_choice_of_all (graph_of g.now) m }
    ensures lent { g.exit.now ≡ g.entry.now }
{
    rules::check(g)?;
    choice_of_all_on(g, m)
}
