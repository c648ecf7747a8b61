// Laps: a stem, then a lap without end.
#![tactic(auto)]

ghost use Rattle.std.specs.Prelude.{◌≡◌};
ghost use Rattle.rules.specs.Graph.{graph_of};
ghost use Rattle.laps.specs.declared.Broken.{Broken};
ghost use Rattle.laps.specs.Laps.{LapAnswer};

use crate::inner::decide;
use journal::inner::length_fits;
use moves::{Marking, Refusal, Step};
use rules::Job;

pub mod inner;

// The stem, the lap's first time, its second, any later one.
#[derive(Clone, Copy)]
pub enum Pass {
    Stem,
    First,
    Second,
    Later,
}

// The run goes on for ever, and is accepted or starves a step, the lowest such.
#[derive(Clone, Copy)]
pub enum Endless {
    Accepted,
    Starved(Step),
}

// The input was refused, and no entry was looked at; or an entry was not allowed: where it stands in its journal, in which pass, and why.
#[derive(Clone, Copy)]
pub enum Broken {
    Refused(Refusal),
    Stopped(u16, Pass, Refusal),
}

impl From<Refusal> for Broken {
    ghost from_gives = { λ r b. b ≡ Broken.Refused r };

    fn from(refusal: Refusal) -> Broken {
        Broken::Refused(refusal)
    }
}

// The stem, then the lap for ever. Refusals 2, 4, 6, 7, 8, 17, then 11 to 15 of the earliest refused entry.
pub fn lap<'a, 'b, 'c>(
    g: &'a Job,
    m: Marking,
    stem: &'b [u8],
    lap: &'c [u8],
) -> Result<Endless, Broken>
    ensures { LapAnswer (graph_of g.now) m stem.now lap.now result }
{
    rules::check(g)?;
    if !(length_fits(stem) & length_fits(lap)) {
        return Err(Broken::Refused(Refusal::Length));
    }
    if !moves::inner::fits(g[0], m) {
        return Err(Broken::Refused(Refusal::Outside));
    }
    if lap.len() == 0 {
        return Err(Broken::Refused(Refusal::EmptyLap));
    }
    decide(g, m, stem, lap)
}
