// Taking a step on the numbers of its row, for loops that read one row an entry.
ghost use Rattle.std.specs.Prelude.{◌≡◌, ◌+◌, ◌<◌, ◌≤◌};
ghost use Rattle.moves.specs.First.{first};
ghost use Rattle.moves.specs.Move.{given_back, row_lines, after, after_one, waits_for, marking_fits, rank_of};

use crate::{Entry, Marking, NONE, Rank, Refusal, Step};

// What an entry meets of the graph: the roles its person holds, the roles of its step, and the step's arrows.
#[derive(Clone, Copy)]
pub struct Row {
    pub held: u64,
    pub allows: u64,
    pub conditions: u64,
    pub responses: u64,
    pub includes: u64,
    pub excludes: u64,
}

// The conditions that are included and not done.
pub fn waits(conditions: u64, m: Marking) -> u64
    ensures { result ≡ waits_for conditions m }
{
    let open = conditions & m.included;
    open ^ (open & m.done)
}

// The marking after the step that is alone in `one`.
fn after_one(w: Row, m: Marking, one: u64) -> Marking
    ensures { result ≡ after_one w m one }
{
    Marking {
        done: m.done | one,
        due: (m.due ^ (m.due & one)) | w.responses,
        included: (m.included | w.includes) ^ ((m.included | w.includes) & w.excludes),
    }
}

// The marking after step s.
pub fn moved(w: Row, m: Marking, s: u8) -> Marking
    requires { s < 64 }
    ensures { result ≡ after w m s }
{
    after_one(w, m, sets::single(s))
}

// Does its row allow an entry? Refusals 12 to 15. All tests, and the set that 15 hands out, read the marking as it is handed in.
pub fn ask_row(w: Row, m: Marking, e: Entry) -> Result<(), Refusal>
    requires { (e.step.0 < 64) × (e.role < 64) }
    ensures { result ≡ first (row_lines w m e) }
{
    let s = e.step.0;
    let r = e.role;
    if !sets::has(w.held, r) {
        return Err(Refusal::NotHeld);
    }
    if !sets::has(w.allows, r) {
        return Err(Refusal::NotOnStep);
    }
    if !sets::has(m.included, s) {
        return Err(Refusal::Excluded);
    }
    let open = waits(w.conditions, m);
    if open != 0 {
        return Err(Refusal::Waits(open));
    }
    Ok(())
}

// The marking that goes with a refusal: from 11 on the one handed in, below 11 an empty one.
pub fn give_back(m: Marking, r: Refusal) -> Marking
    ensures { result ≡ given_back m r }
{
    if r.number() < 11 {
        return NONE;
    }
    m
}

// Does the marking name only the n steps?
pub fn fits(n: u64, m: Marking) -> bool
    requires { n ≤ 64 }
    ensures { result ≡ marking_fits n m }
{
    (m.done | m.due) | m.included <= sets::full(n)
}

// The rank of a step.
pub fn rank_of(s: Step) -> Rank
    requires { s.0 < 64 }
    ensures { result.0 ≡ rank_of s.0 }
{
    Rank(s.0 + 1)
}
