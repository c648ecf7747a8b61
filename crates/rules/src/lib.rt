// The paper's Definitions 3 to 5: graphs, and asking for a step and taking it on one.
#![tactic(auto)]

ghost use Rattle.std.specs.Prelude.{◌≡◌};
ghost use Rattle.rules.specs.Graph.{graph_of, counts_of, graph_verdict};
ghost use Rattle.rules.specs.Answers.{the_asked, the_move, the_ending};

use crate::inner::{ask_on, finished_on, take_asked};
use moves::{Denied, Entry, Marking, Refusal};
use tables::{Counts, Kinds, labels_fit, roles_fit};

pub mod inner;

// A job: the counts of steps, people, roles and actions, then the tables, each from its first word on. A set is a word. It is one
// block and no struct: C lends it so.
pub const CONDITIONS: usize = 4;

pub const RESPONSES: usize = 68;

pub const INCLUDES: usize = 132;

pub const EXCLUDES: usize = 196;

// The roles of the actions.
pub const ALLOWS: usize = 260;

pub const HOLDS: usize = 324;

// The actions of the steps.
pub const LABELS: usize = 340;

pub const WORDS: usize = 404;

pub type Job = [u64; WORDS];

#[derive(Clone, Copy, PartialEq, Eq)]
pub enum Ending {
    Finished,
    Open,
}

// The counts of the job, whatever they are.
pub fn counts(g: &Job) -> Counts
    ensures { result ≡ counts_of (graph_of g.now) }
{
    Counts {
        steps: g[0],
        people: g[1],
        roles: g[2],
        actions: g[3],
    }
}

// Is this a graph? Refusals 2, 4, 6.
pub fn check(g: &Job) -> Result<(), Refusal>
    ensures { result ≡ graph_verdict (graph_of g.now) }
{
    let c = counts(g);
    if !c.fit() {
        return Err(Refusal::Counts);
    }
    let w = &g[..];
    let kinds = Kinds {
        conditions: &w[CONDITIONS..RESPONSES],
        responses: &w[RESPONSES..INCLUDES],
        includes: &w[INCLUDES..EXCLUDES],
        excludes: &w[EXCLUDES..ALLOWS],
    };
    let arrows = kinds.checked(c.steps);
    let named = roles_fit(
        c.actions,
        c.people,
        c.roles,
        &w[ALLOWS..HOLDS],
        &w[HOLDS..LABELS],
    );
    if !((named & labels_fit(c.steps, c.actions, &w[LABELS..WORDS])) & arrows.fit) {
        return Err(Refusal::Beyond);
    }
    if !arrows.apart {
        return Err(Refusal::Both);
    }
    Ok(())
}

// May the step be taken? Nothing is changed by asking. Job, marking and entry stay three, as C hands them over. Refusals 2, 4, 6, 8,
// 11 to 15.
pub fn ask(g: &Job, m: Marking, e: Entry) -> Result<(), Refusal>
    ensures value { result ≡ the_asked (graph_of g.now) m e }
    ensures lent { g.exit.now ≡ g.entry.now }
{
    check(g)?; // 2, 4, 6 come before what the marking and the entry are asked
    ask_on(g, m, e)
}

// Take one step: ask, and if it is allowed the marking after. Refusals 2, 4, 6, 8, 11 to 15, as `ask`.
pub fn take(g: &Job, m: Marking, e: Entry) -> Result<Marking, Denied>
    ensures { result ≡ the_move (graph_of g.now) m e }
{
    take_asked(g, m, e, ask(g, m, e))
}

// Is the job finished: is no step both due and included? Refusals 2, 4, 6, 8.
pub fn finished(g: &Job, m: Marking) -> Result<Ending, Refusal>
    ensures { result ≡ the_ending (graph_of g.now) m }
{
    check(g)?;
    finished_on(g[0], m)
}
