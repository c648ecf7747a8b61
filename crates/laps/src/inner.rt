// The stem, then the lap twice: on a graph, journals and a marking with nothing against them. That is asked by each function and
// stands in no type: docs/PROMISES.md names them, with what they take for granted.
ghost use Rattle.std.specs.Prelude.{◌≡◌, ◌%◌, ◌<◌, ◌≤◌, length, Ok};
ghost use Rattle.rules.specs.Graph.{graph_of, graph_verdict};
ghost use Rattle.sets.specs.Sets.{lowest};
ghost use Rattle.journal.specs.Journal.{entries};
ghost use Rattle.laps.specs.Decision.{still, judged, halt, leg_of, second_lap, first_lap, decision};

use crate::{Broken, Endless, Pass};
use journal::inner::entry_at;
use journal::quick::{SINGLES, allowed, run_entries};
use moves::{Marking, Refusal, Step};
use rules::Job;
use rules::inner::{against, taken};

// Every step there could be.
const ALL: u64 = 18446744073709551615;

// The end of a journal: the marking there, and the steps that were due and included in every marking on the way and not done.
#[derive(Clone, Copy)]
pub struct Leg {
    pub marking: Marking,
    pub left: u64,
}

// The first entry of a journal that is not allowed.
#[derive(Clone, Copy)]
pub struct Halt {
    pub index: u16,
    pub refusal: Refusal,
}

// The steps of x that are due and included in m, less s.
fn remain(x: u64, m: Marking, s: u8) -> u64
    requires { s < 64 }
    ensures { result ≡ still x m s }
{
    let open = (m.due & m.included) & x;
    open ^ (open & sets::single(s))
}

fn lowest_of(x: u64) -> Step
    ensures { result.0 ≡ lowest 64 x }
{
    Step(sets::lowest(x))
}

// What is said of a lap in which x are the steps that stay due and included and are not done.
fn judge(x: u64) -> Endless
    ensures { Ok result ≡ judged x }
{
    if x == 0 {
        return Endless::Accepted;
    }
    Endless::Starved(lowest_of(x))
}

// The entries, on a graph and a journal that are as they should be. Refusals 11 to 15.
fn go_through<'a>(g: &'a Job, m: Marking, j: &[u8]) -> Result<Leg, Halt>
    requires { (graph_verdict (graph_of g.now) ≡ Ok tt) × (length j.now % 3 ≡ 0) × (length j.now ≤ 65535) }
    ensures { result ≡ leg_of (graph_of g.now) m (entries j.now) }
{
    let singles = SINGLES;
    let count = j.len() / 3;
    let mut at = m;
    let mut left = ALL;
    for k in 0..count {
        let e = entry_at(j, k);
        if !allowed(&singles, g, at, e) {
            let index = k as u16;
            return Err(halted(index, against(g, at, e)));
        }
        let next = taken(g, at, e);
        left = remain(left, at, e.step.0);
        at = next;
    }
    Ok(Leg { marking: at, left })
}

fn halted(index: u16, refusal: Refusal) -> Halt
    ensures { result ≡ halt index refusal }
{
    Halt { index, refusal }
}

// The lap's second time. By `match`: each time gives the error its own pass, and `map_err` with a closure is no plainer. Refusals 11 to 15.
fn second_lap<'a>(g: &'a Job, m: Marking, lap: &[u8]) -> Result<Endless, Broken>
    requires { (graph_verdict (graph_of g.now) ≡ Ok tt) × (length lap.now % 3 ≡ 0) × (length lap.now ≤ 65535) }
    ensures { result ≡ second_lap (graph_of g.now) m (entries lap.now) }
{
    match go_through(g, m, lap) {
        Err(h) => Err(Broken::Stopped(h.index, Pass::Second, h.refusal)),
        Ok(leg) => Ok(judge(leg.left)),
    }
}

// The lap's first time, and then its second. Refusals 11 to 15.
fn first_lap<'a>(g: &'a Job, m: Marking, lap: &[u8]) -> Result<Endless, Broken>
    requires { (graph_verdict (graph_of g.now) ≡ Ok tt) × (length lap.now % 3 ≡ 0) × (length lap.now ≤ 65535) }
    ensures { result ≡ first_lap (graph_of g.now) m (entries lap.now) }
{
    match run_entries(g, m, lap) {
        Err(stop) => Err(Broken::Stopped(stop.index, Pass::First, stop.refusal)),
        Ok(again) => second_lap(g, again.marking, lap),
    }
}

// The stem, and then the lap twice, on a graph, journals and a marking that are as they should be. Refusals 11 to 15.
pub fn decide<'a>(g: &'a Job, m: Marking, stem: &[u8], lap: &[u8]) -> Result<Endless, Broken>
    requires { (graph_verdict (graph_of g.now) ≡ Ok tt)
        × (length stem.now % 3 ≡ 0) × (length stem.now ≤ 65535)
        × (length lap.now % 3 ≡ 0) × (length lap.now ≤ 65535) }
    ensures { result ≡ decision (graph_of g.now) m (entries stem.now) (entries lap.now) }
{
    match run_entries(g, m, stem) {
        Err(stop) => Err(Broken::Stopped(stop.index, Pass::Stem, stop.refusal)),
        Ok(start) => first_lap(g, start.marking, lap),
    }
}
