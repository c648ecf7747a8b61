// What one step, one entry and a list of entries need and do. That nothing is against the graph is asked by each function and stands in no
// type: docs/PROMISES.md names them, with what they take for granted.
ghost use Rattle.std.specs.Prelude.{◌≡◌, ◌%◌, ◌<◌, length, ◌&&◌};
ghost use Rattle.sets.specs.Sets.{has};
ghost use Rattle.rules.specs.Graph.{graph_of, graph_verdict};
ghost use Rattle.journal.specs.Journal.{entries};
ghost use Rattle.folding.specs.Fold.{step_record, entry_record, fold_of};

use journal::inner::entry_at;
use moves::Entry;
use moves::inner::Row;
use records::Record;
use records::inner::{NEVER, composed, tidied};
use rules::Job;
use rules::inner::row_at;

// May the entry's role take the step, if its person holds it?
pub fn admits(w: Row, role: u8) -> bool
    requires { role < 16 }
    ensures { result ≡ (has w.held role && has w.allows role) }
{
    sets::has(w.held & w.allows, role)
}

// What step s needs and does.
pub fn step_record(w: Row, s: u8) -> Record
    requires { s < 64 }
    ensures { result ≡ step_record w s }
{
    let one = sets::single(s);
    Record {
        never: false,
        needin: one,
        needex: 0,
        needout: w.conditions,
        done: one,
        dueset: w.responses,
        dueclear: one,
        inset: w.includes ^ (w.includes & w.excludes),
        inclear: w.excludes,
    }
}

// What an entry needs and does, with nothing tidied, on a graph with nothing against it: there only a known person holds a role, and
// only known roles are held, so that these counts need not be looked at.
pub fn entry_record(g: &Job, e: Entry) -> Record
    requires { graph_verdict (graph_of g.now) ≡ Ok tt }
    ensures { result ≡ entry_record (graph_of g.now) e }
{
    let p = e.person;
    let s = e.step.0;
    let role = e.role;
    if 16 <= p {
        return NEVER;
    }
    if g[0] <= s as u64 {
        return NEVER;
    }
    if 16 <= role {
        return NEVER;
    }
    let w = row_at(g, p, s);
    if !admits(w, role) {
        return NEVER;
    }
    step_record(w, s)
}

// The same record, said with one set less: a loop that carries it has one less to keep.
pub fn cleared(r: Record) -> Record
    requires { r.dueclear ≡ r.done }
    ensures { result ≡ r }
{
    Record {
        dueclear: r.done,
        ..r
    }
}

// The entries, on a graph and a journal that are as they should be.
pub fn fold_entries<'a, 'b>(g: &'a Job, j: &'b [u8]) -> Record
    requires { (graph_verdict (graph_of g.now) ≡ Ok tt) × (length j.now % 3 ≡ 0) }
    ensures { result ≡ fold_of (graph_of g.now) (entries j.now) }
{
    let count = j.len() / 3;
    let mut r = Record::IDENTITY;
    for k in 0..count {
        let e = entry_record(g, entry_at(j, k));
        if e.never {
            return NEVER;
        }
        r = cleared(composed(r, e));
        if r.never {
            return NEVER;
        }
    }
    tidied(r)
}
