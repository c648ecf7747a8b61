// Asking and taking on a graph with nothing against it. That nothing is against the graph is asked by each function and stands
// in no type: docs/PROMISES.md names them, with what they take for granted.
ghost use Rattle.std.specs.Prelude.{◌≡◌, ◌+◌, ◌<◌, ◌≤◌};
ghost use Rattle.moves.specs.Move.{after, denied, given_back};
ghost use Rattle.tables.specs.Tables.{row, table_at};
ghost use Rattle.rules.specs.Graph.{graph_of, graph_verdict, action_of};
ghost use Rattle.rules.specs.Answers.{the_asked, the_move, asked_on, entry_asked, refusal_in, ending_on, row_of};

use crate::{ALLOWS, CONDITIONS, EXCLUDES, Ending, HOLDS, INCLUDES, Job, LABELS, RESPONSES};
use moves::inner::{Row, ask_row, fits, give_back, moved};
use moves::{Denied, Entry, Marking, Refusal};

// Row s of the table of `count` rows from word `at` on. The count is handed in for the contract, whose definition has it (`table_at`).
fn word(g: &Job, at: usize, count: usize, s: u8) -> u64
    requires { (at + count ≤ 404) × (s < count) }
    ensures { result ≡ row (table_at at count g.now) s }
{
    let i = s as usize;
    g[at + i]
}

// The action of step s.
pub fn action(g: &Job, s: u8) -> u8
    requires { (graph_verdict (graph_of g.now) ≡ Ok tt) × (s < 64) }
    ensures { (result ≡ action_of (graph_of g.now) s) × (result < 64) }
{
    word(g, LABELS, 64, s) as u8
}

// What an entry of person p and step s meets of the graph.
pub fn row_at(g: &Job, p: u8, s: u8) -> Row
    requires { (graph_verdict (graph_of g.now) ≡ Ok tt) × (p < 16) × (s < 64) }
    ensures { result ≡ row_of (graph_of g.now) p s }
{
    let a = action(g, s);
    Row {
        held: word(g, HOLDS, 16, p),
        allows: word(g, ALLOWS, 64, a),
        conditions: word(g, CONDITIONS, 64, s),
        responses: word(g, RESPONSES, 64, s),
        includes: word(g, INCLUDES, 64, s),
        excludes: word(g, EXCLUDES, 64, s),
    }
}

// Is the entry allowed? Refusals 11 to 15.
pub fn ask_entry(g: &Job, m: Marking, e: Entry) -> Result<(), Refusal>
    requires { graph_verdict (graph_of g.now) ≡ Ok tt }
    ensures { result ≡ entry_asked (graph_of g.now) m e }
{
    let p = e.person;
    let s = e.step.0;
    let r = e.role;
    if g[1] <= p as u64 {
        return Err(Refusal::Unknown);
    }
    if g[0] <= s as u64 {
        return Err(Refusal::Unknown);
    }
    if g[2] <= r as u64 {
        return Err(Refusal::Unknown);
    }
    ask_row(row_at(g, p, s), m, e)
}

// A marking and an entry. Refusals 8, 11 to 15.
pub fn ask_on(g: &Job, m: Marking, e: Entry) -> Result<(), Refusal>
    requires { graph_verdict (graph_of g.now) ≡ Ok tt }
    ensures { result ≡ asked_on (graph_of g.now) m e }
{
    if !fits(g[0], m) {
        return Err(Refusal::Outside);
    }
    ask_entry(g, m, e)
}

// What is against an entry that is not allowed, for those who know by a quicker way that it is not.
pub fn against(g: &Job, m: Marking, e: Entry) -> Refusal
    requires { graph_verdict (graph_of g.now) ≡ Ok tt }
    ensures { result ≡ refusal_in (entry_asked (graph_of g.now) m e) }
{
    match ask_entry(g, m, e) {
        Ok(()) => Refusal::Unknown,
        Err(r) => r,
    }
}

// The marking after an entry that is allowed.
pub fn taken(g: &Job, m: Marking, e: Entry) -> Marking
    requires { (graph_verdict (graph_of g.now) ≡ Ok tt) × (e.person < 16) × (e.step.0 < 64) }
    ensures { result ≡ after (row_of (graph_of g.now) e.person e.step.0) m e.step.0 }
{
    let p = e.person;
    let s = e.step.0;
    moved(row_at(g, p, s), m, s)
}

// A refusal of an entry at marking m.
fn denied(m: Marking, r: Refusal) -> Denied
    ensures { result ≡ denied (given_back m r) r }
{
    Denied {
        marking: give_back(m, r),
        refusal: r,
    }
}

// What comes of an entry that was asked for: if it is allowed the marking after, else its refusal.
pub fn take_asked(g: &Job, m: Marking, e: Entry, o: Result<(), Refusal>) -> Result<Marking, Denied>
    requires { o ≡ the_asked (graph_of g.now) m e }
    ensures { result ≡ the_move (graph_of g.now) m e }
{
    match o {
        Ok(()) => Ok(taken(g, m, e)),
        Err(r) => Err(denied(m, r)),
    }
}

// A marking of a graph with that many steps, at most 64. Refusal 8.
pub fn finished_on(steps: u64, m: Marking) -> Result<Ending, Refusal>
    requires { steps ≤ 64 }
    ensures { result ≡ ending_on steps m }
{
    if !fits(steps, m) {
        return Err(Refusal::Outside);
    }
    if m.due & m.included == 0 {
        Ok(Ending::Finished)
    } else {
        Ok(Ending::Open)
    }
}
