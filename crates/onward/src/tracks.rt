// The tracker's states and answers, in words.
ghost use Rattle.std.specs.Prelude.{◌≡◌};
ghost use Rattle.tracker.specs.Tracker.{number_of_tracked, waiting_of_tracked};
ghost use Rattle.onward.specs.Tracks.{rank_in, track_in, track_out, track_of_tracked};

use crate::{Track, Tracked};
use answers::told::said;
use moves::{NONE, Rank};
use tracker::Unmoved;

// The state that stands where there is none, since C's struct has no place for none. No step has its rank.
pub const NOWHERE: Track = Track {
    marking: NONE,
    rank: 0,
    flag: 0,
};

// No graph has a rank of 0, and none has one beyond a byte.
fn rank(i: u64) -> Rank
    ensures { result ≡ rank_in i }
{
    if i < 256 { Rank(i as u8) } else { Rank(0) }
}

pub fn track(t: Track) -> tracker::Track
    ensures { result ≡ track_in t }
{
    tracker::Track {
        marking: t.marking,
        rank: rank(t.rank),
        flag: 0 < t.flag,
    }
}

fn track_out(t: tracker::Track) -> Track
    ensures { result ≡ track_out t }
{
    Track {
        marking: t.marking,
        rank: t.rank.0 as u64,
        flag: t.flag as u64,
    }
}

// The answer to the state t, which comes back as it was, word for word, from 11 on. Inlined, since the compiler else hands both over
// through memory.
#[inline]
#[tactic(auto, unfolding(tracker::specs::Tracker::number_of_tracked, tracker::specs::Tracker::waiting_of_tracked, crate::specs::Tracks::track_of_tracked))]
pub fn tracked(t: Track, o: Result<tracker::Track, Unmoved>) -> Tracked
    ensures number_value { result.number ≡ number_of_tracked o }
    ensures waiting_value { result.waiting ≡ waiting_of_tracked o }
    ensures track_value { result.track ≡ track_of_tracked t o }
{
    match o {
        Ok(next) => Tracked {
            number: 0,
            waiting: 0,
            track: track_out(next),
        },
        Err(Unmoved::Refused(r)) => {
            let w = said(r);
            Tracked {
                number: w.number,
                waiting: w.waiting,
                track: NOWHERE,
            }
        }
        Err(Unmoved::Stays(_, r)) => {
            let w = said(r);
            Tracked {
                number: w.number,
                waiting: w.waiting,
                track: t,
            }
        }
    }
}
