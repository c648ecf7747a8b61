// The tracker of the paper's Definition 7: it sees to it that no due step waits for ever.
#![tactic(auto)]

ghost use Rattle.std.specs.Prelude.{◌≡◌};
ghost use Rattle.rules.specs.Graph.{graph_of};
ghost use Rattle.tracker.specs.Tracker.{the_start, the_idle, the_step};

use crate::inner::{begin, follow, rest, sound, sound_state};
use moves::{Entry, Marking, Rank, Refusal};
use rules::Job;
use rules::inner::{ask_entry, taken};

pub mod inner;

// A marking, the rank that was served last, and the flag.
#[derive(Clone, Copy)]
pub struct Track {
    pub marking: Marking,
    pub rank: Rank,
    pub flag: bool,
}

// Why there is no state after: a refusal below 11; or one from 11 on, and the state that was handed in.
#[derive(Clone, Copy)]
pub enum Unmoved {
    Refused(Refusal),
    Stays(Track, Refusal),
}

// A refusal below 11, which gives no state back.
impl From<Refusal> for Unmoved {
    ghost use Rattle.tracker.specs.declared.Unmoved.{Unmoved};

    ghost from_gives = { λ r u. u ≡ Unmoved.Refused r };

    fn from(refusal: Refusal) -> Unmoved {
        Unmoved::Refused(refusal)
    }
}

// The state that a marking starts with. Refusals 2, 4, 6, 8.
pub fn start(g: &Job, m: Marking) -> Result<Track, Unmoved>
    ensures { result ≡ the_start (graph_of g.now) m }
{
    sound(g, m)?;
    Ok(begin(m))
}

// A move in which nothing is done. Refusals 2, 4, 6, 8, 9.
pub fn idle(g: &Job, t: Track) -> Result<Track, Unmoved>
    ensures { result ≡ the_idle (graph_of g.now) t }
{
    sound_state(g, t)?;
    Ok(rest(t))
}

// Take one step. Refusals 2, 4, 6, 8, 9, 11 to 15.
pub fn advance(g: &Job, t: Track, e: Entry) -> Result<Track, Unmoved>
    ensures { result ≡ the_step (graph_of g.now) t e }
{
    sound_state(g, t)?;
    match ask_entry(g, t.marking, e) {
        Ok(()) => Ok(follow(t, taken(g, t.marking, e), e.step)),
        Err(r) => Err(Unmoved::Stays(t, r)),
    }
}
