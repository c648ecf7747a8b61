// The kept marking: a cabinet has one marking for good, which every allowed entry changes in place. `keep` takes it by `&mut`.
#![tactic(auto)]

ghost use Rattle.std.specs.Prelude.{◌≡◌};
ghost use Rattle.rules.specs.Graph.{graph_of};
ghost use Rattle.kept.specs.Keep.{kept_by, the_kept};

use moves::{Denied, Entry, Marking};
use rules::Job;

// The answer of the move, and the marking that lies there then.
#[derive(Clone, Copy)]
pub struct Kept {
    pub answer: Result<Marking, Denied>,
    pub marking: Marking,
}

// A refusal leaves what was kept. Both arms are written out: kept/changed_by_refusal and kept/unchanged_by_step are edits of them.
#[tactic(auto, unfolding(crate::specs::Keep::kept_by))]
fn kept_by(m: Marking, answer: Result<Marking, Denied>) -> Marking
    ensures { result ≡ kept_by m answer }
{
    match answer {
        Ok(next) => next,
        Err(_) => m,
    }
}

// The move's answer, beside the marking to keep. Refusals 2, 4, 6, 8, 11 to 15.
#[tactic(auto, unfolding(crate::specs::Keep::the_kept))]
pub fn keeping(m: Marking, g: &Job, e: Entry) -> Kept
    ensures { result ≡ the_kept (graph_of g.now) m e }
{
    let answer = rules::take(g, m, e);
    Kept {
        answer,
        marking: kept_by(m, answer),
    }
}

// An entry on the kept marking, which is altered where it lies. Refusals 2, 4, 6, 8, 11 to 15.
pub fn keep<'s, 'a>(m: &'s mut Marking, g: &'a Job, e: Entry) -> Result<Marking, Denied>
    ensures { (result ≡ (the_kept (graph_of g.now) m.old e).answer)
        × (m.new ≡ (the_kept (graph_of g.now) m.old e).marking) }
{
    let o = keeping(*m, g, e);
    *m = o.marking;
    o.answer
}

// The same for callers who hold the marking by value: it is laid down, lent and taken up again.
pub fn kept_after<'a>(m: Marking, g: &'a Job, e: Entry) -> Kept
    ensures { result ≡ the_kept (graph_of g.now) m e }
{
    let mut kept = m;
    let answer = keep(&mut kept, g, e);
    Kept {
        answer,
        marking: kept,
    }
}
