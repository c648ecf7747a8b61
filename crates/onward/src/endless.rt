// The answer to a lap, in words.
ghost use Rattle.std.specs.Prelude.{◌≡◌};
ghost use Rattle.laps.specs.Laps.{number_of_pass};
ghost use Rattle.onward.specs.Endless.{lapped_of};

use crate::Lapped;
use answers::told::said;
use laps::{Broken, Pass};

// Written out, as `number_of_pass` is.
#[tactic(auto, unfolding(laps::specs::Laps::number_of_pass))]
fn pass(p: Pass) -> u64
    ensures { result ≡ number_of_pass p }
{
    match p {
        Pass::Stem => 0,
        Pass::First => 1,
        Pass::Second => 2,
        Pass::Later => 3,
    }
}

#[tactic(auto, unfolding(laps::specs::Laps::number_of_lap, laps::specs::Laps::waiting_of_lap, laps::specs::Laps::starved_of_lap, laps::specs::Laps::index_of_lap, laps::specs::Laps::pass_of_lap, crate::specs::Endless::verdict_of_lap))]
pub fn lapped(o: Result<laps::Endless, Broken>) -> Lapped
    ensures { result ≡ lapped_of o }
{
    match o {
        Ok(laps::Endless::Accepted) => Lapped {
            number: 0,
            waiting: 0,
            verdict: 1,
            step: 0,
            index: 0,
            pass: 0,
        },
        Ok(laps::Endless::Starved(s)) => Lapped {
            number: 0,
            waiting: 0,
            verdict: 2,
            step: s.0 as u64,
            index: 0,
            pass: 0,
        },
        Err(Broken::Refused(r)) => {
            let w = said(r);
            Lapped {
                number: w.number,
                waiting: w.waiting,
                verdict: 0,
                step: 0,
                index: 0,
                pass: 0,
            }
        }
        Err(Broken::Stopped(k, p, r)) => {
            let w = said(r);
            Lapped {
                number: w.number,
                waiting: w.waiting,
                verdict: 0,
                step: 0,
                index: k as u64,
                pass: pass(p),
            }
        }
    }
}
