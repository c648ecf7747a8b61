// The steps that are not grey, on a graph with nothing against it. That nothing is against the graph is asked by each function and stands
// in no type: docs/PROMISES.md names them, with what they take for granted.
ghost use Rattle.std.specs.Prelude.{◌≡◌};
ghost use Rattle.sets.specs.Sets.{meet, gather};
ghost use Rattle.rules.specs.Graph.{graph_of, graph_verdict, roles_held};
ghost use Rattle.greying.specs.Greying.{the_choice, the_choice_of_all};
ghost use Rattle.greying.specs.Rows.{Tabled, row_passes, rows_passing, steps_for};

use moves::inner::{fits, waits};
use moves::{Marking, Refusal};
use rules::inner::row_at;
use rules::{ALLOWS, CONDITIONS, HOLDS, Job, LABELS, RESPONSES, WORDS};
use tables::roles_named;

// Has who holds these roles one that the row allows, and is nothing waited for?
fn passes(held: u64, allows: u64, conditions: u64, m: Marking) -> bool
    ensures { result ≡ row_passes held allows conditions m }
{
    let both = held & allows;
    let awaited = waits(conditions, m);
    (both != 0) & (awaited == 0)
}

// The steps below `count` whose rows let pass, from the last to the first: what is found is moved up by a step at every row, and the
// row's own step is put below it, so that no row needs a branch or a shift of its own. A step's roles are read at its action.
fn passing<'a>(
    labels: &'a [u64],
    allows: &'a [u64],
    conditions: &'a [u64],
    count: usize,
    held: u64,
    m: Marking,
) -> u64
    requires { Tabled count labels.now allows.now conditions.now }
    ensures { result ≡ rows_passing labels.now allows.now conditions.now count held m }
{
    let mut found = 0;
    for s in (0..count).rev() {
        let a = labels[s] as usize;
        found = (found + found) + (passes(held, allows[a], conditions[s], m) as u64);
    }
    found
}

// Of the steps that pass those that are included.
fn not_excluded(found: u64, included: u64) -> u64
    ensures { result ≡ meet found included }
{
    found & included
}

// The roles that someone holds.
pub fn roles_of_all(g: &Job) -> u64
    ensures { result ≡ gather 16 (roles_held (graph_of g.now)) }
{
    let w = &g[..];
    roles_named(&w[HOLDS..LABELS])
}

// The steps that who holds these roles may take.
pub fn steps_for(g: &Job, m: Marking, held: u64) -> u64
    requires { graph_verdict (graph_of g.now) ≡ Ok tt }
    ensures { result ≡ steps_for (graph_of g.now) m held }
{
    let n = g[0] as usize;
    let w = &g[..];
    let found = passing(
        &w[LABELS..WORDS],
        &w[ALLOWS..HOLDS],
        &w[CONDITIONS..RESPONSES],
        n,
        held,
        m,
    );
    not_excluded(found, m.included)
}

// A marking and a person. Refusals 8, 11.
pub fn choice_on(g: &Job, m: Marking, person: u64) -> Result<u64, Refusal>
    requires { graph_verdict (graph_of g.now) ≡ Ok tt }
    ensures { result ≡ the_choice (graph_of g.now) m person }
{
    if !fits(g[0], m) {
        return Err(Refusal::Outside);
    }
    if g[1] <= person {
        return Err(Refusal::Unknown);
    }
    Ok(steps_for(g, m, row_at(g, person as u8, 0).held))
}

// A marking, and whoever there is. Refusal 8.
pub fn choice_of_all_on(g: &Job, m: Marking) -> Result<u64, Refusal>
    requires { graph_verdict (graph_of g.now) ≡ Ok tt }
    ensures { result ≡ the_choice_of_all (graph_of g.now) m }
{
    if !fits(g[0], m) {
        return Err(Refusal::Outside);
    }
    Ok(steps_for(g, m, roles_of_all(g)))
}
