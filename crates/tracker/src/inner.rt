// What is against graph and marking, and the tracker's rule on states. That a rank is at most 64 is asked by each function and stands in no
// type: docs/PROMISES.md names them, with what they take for granted.
ghost use Rattle.std.specs.Prelude.{◌≡◌, ◌<◌, ◌≤◌};
ghost use Rattle.moves.specs.First.{first};
ghost use Rattle.rules.specs.Graph.{graph_of};
ghost use Rattle.tracker.specs.Tracker.{above, pool, begin, rest, track_after, is_rank, meets, start_lines, idle_lines};

use crate::Track;
use moves::{Marking, Rank, Refusal, Step};
use rules::Job;

// What is against the graph and the marking. Refusals 2, 4, 6, 8.
pub fn sound(g: &Job, m: Marking) -> Result<(), Refusal>
    ensures { result ≡ first (start_lines (graph_of g.now) m) }
{
    rules::check(g)?;
    if !moves::inner::fits(g[0], m) {
        return Err(Refusal::Outside);
    }
    Ok(())
}

// What is against the graph and a state of the tracker. Refusals 2, 4, 6, 8, 9.
pub fn sound_state(g: &Job, t: Track) -> Result<(), Refusal>
    ensures { result ≡ first (idle_lines (graph_of g.now) t) }
{
    sound(g, t.marking)?;
    if !ranked(g[0], t.rank) {
        return Err(Refusal::NoRank);
    }
    Ok(())
}

// Is this the rank of one of n steps?
pub fn ranked(n: u64, i: Rank) -> bool
    ensures { result ≡ is_rank n i.0 }
{
    (1 <= i.0) & (i.0 as u64 <= n)
}

// Those of p with rank above i.
pub fn above(i: Rank, p: u64) -> u64
    requires { i.0 ≤ 64 }
    ensures { result ≡ above i.0 p }
{
    let passed = sets::full(i.0 as u64);
    p ^ (p & passed)
}

// The steps whose lowest is looked at: those of p with rank above i, or if there are none, p.
pub fn pool(i: Rank, p: u64) -> u64
    requires { i.0 ≤ 64 }
    ensures { result ≡ pool i.0 p }
{
    let high = above(i, p);
    if high == 0 { p } else { high }
}

// Is x the step e, or not in q?
pub fn meets(x: u8, e: u8, q: u64) -> bool
    requires { x < 64 }
    ensures { result ≡ meets x e q }
{
    (x == e) | !sets::has(q, x)
}

// The state that a marking starts with.
pub fn begin(m: Marking) -> Track
    ensures { result ≡ begin m }
{
    Track {
        marking: m,
        rank: Rank(1),
        flag: m.due & m.included == 0,
    }
}

// The state after an idle move.
pub fn rest(t: Track) -> Track
    ensures { result ≡ rest t }
{
    let kept = t.marking;
    Track {
        flag: kept.due & kept.included == 0,
        ..t
    }
}

// The state after step e, which led to the marking `next`.
pub fn follow(t: Track, next: Marking, e: Step) -> Track
    requires { t.rank.0 ≤ 64 }
    ensures { result ≡ track_after t next e.0 }
{
    let m = t.marking;
    let i = t.rank;
    let q = next.due & next.included;
    let stays = Track {
        marking: next,
        rank: i,
        flag: q == 0,
    };
    let ahead = pool(i, m.due & m.included);
    if ahead == 0 {
        return stays;
    }
    let x = sets::lowest(ahead);
    if meets(x, e.0, q) {
        return Track {
            marking: next,
            rank: moves::inner::rank_of(Step(x)),
            flag: true,
        };
    }
    stays
}
