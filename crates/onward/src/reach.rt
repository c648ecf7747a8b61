// The answer to whether a job can still end, in words.
ghost use Rattle.std.specs.Prelude.{◌≡◌};
ghost use Rattle.deadend.specs.DeadEnd.{number_of_ends, verdict_of_ends, fewest_of_ends, looked_of_ends};

use crate::Ends;
use answers::told::said;
use moves::Refusal;

#[tactic(auto, unfolding(deadend::specs::DeadEnd::number_of_ends, deadend::specs::DeadEnd::verdict_of_ends, deadend::specs::DeadEnd::fewest_of_ends, deadend::specs::DeadEnd::looked_of_ends))]
pub fn told(o: Result<deadend::Ends, Refusal>) -> Ends
    ensures number_value { result.number ≡ number_of_ends o }
    ensures verdict_value { result.verdict ≡ verdict_of_ends o }
    ensures fewest_value { result.fewest ≡ fewest_of_ends o }
    ensures looked_value { result.looked ≡ looked_of_ends o }
{
    match o {
        Ok(deadend::Ends::Undecided(looked)) => Ends {
            number: 0,
            verdict: 1,
            fewest: 0,
            looked: looked as u64,
        },
        Ok(deadend::Ends::None(looked)) => Ends {
            number: 0,
            verdict: 2,
            fewest: 0,
            looked: looked as u64,
        },
        Ok(deadend::Ends::Reachable(fewest, looked)) => Ends {
            number: 0,
            verdict: 3,
            fewest: fewest as u64,
            looked: looked as u64,
        },
        Err(r) => Ends {
            number: said(r).number,
            verdict: 0,
            fewest: 0,
            looked: 0,
        },
    }
}
