// Number and values of each case of an answer, in words.
ghost use Rattle.std.specs.Prelude.{◌≡◌};
ghost use Rattle.moves.specs.First.{number_of_verdict, number_of, waiting_of};
ghost use Rattle.moves.specs.Move.{number_of_asked, waiting_of_asked, number_of_move, waiting_of_move, marking_of_move};
ghost use Rattle.rules.specs.Answers.{number_of_ending};
ghost use Rattle.greying.specs.Greying.{number_of_choice, steps_of_choice};
ghost use Rattle.journal.specs.Run.{number_of_run, waiting_of_run, index_of_run, marking_of_run};
ghost use Rattle.journal.specs.Walk.{number_of_walked, entry_of_walked};
ghost use Rattle.records.specs.Answers.{number_of_applied, marking_of_applied};
ghost use Rattle.sheet.specs.Sheet.{number_of_written, length_of_written};
ghost use Rattle.answers.specs.Values.{finished_of_ending, ended_of_walked, length_of_spelling};

use crate::{Allowed, Asked, Ending, Moved, Ran, Walked, Written};
use journal::{Ended, Stopped};
use moves::{Denied, Entry, Marking, Refusal, Step};

const NOBODY: Entry = Entry {
    person: 0,
    step: Step(0),
    role: 0,
};

// What a refusal says, in words: `Told` has a byte for the number.
#[derive(Clone, Copy)]
pub struct Words {
    pub number: u64,
    pub waiting: u64,
}

// The answers are told by functions and not by `From`: `moved` and `applied`, and `verdict` and `asked`, go from one and the same type and
// say different things, and one way to tell is plainer than two.
pub fn said(r: Refusal) -> Words
    ensures number_value { result.number ≡ number_of r }
    ensures waiting_value { result.waiting ≡ waiting_of r }
{
    Words {
        number: r.number() as u64,
        waiting: r.waiting(),
    }
}

#[tactic(auto, unfolding(moves::specs::First::number_of_verdict))]
pub fn verdict(v: Result<(), Refusal>) -> u64
    ensures { result ≡ number_of_verdict v }
{
    match v {
        Ok(()) => 0,
        Err(r) => said(r).number,
    }
}

#[tactic(auto, unfolding(rules::specs::Answers::number_of_ending, crate::specs::Values::finished_of_ending))]
pub fn ending(o: Result<rules::Ending, Refusal>) -> Ending
    ensures number_value { result.number ≡ number_of_ending o }
    ensures finished_value { result.finished ≡ finished_of_ending o }
{
    match o {
        Ok(rules::Ending::Finished) => Ending {
            number: 0,
            finished: 1,
        },
        Ok(rules::Ending::Open) => Ending {
            number: 0,
            finished: 0,
        },
        Err(r) => Ending {
            number: said(r).number,
            finished: 0,
        },
    }
}

#[tactic(auto, unfolding(moves::specs::Move::number_of_asked, moves::specs::Move::waiting_of_asked))]
pub fn asked(o: Result<(), Refusal>) -> Asked
    ensures number_value { result.number ≡ number_of_asked o }
    ensures waiting_value { result.waiting ≡ waiting_of_asked o }
{
    match o {
        Ok(()) => Asked {
            number: 0,
            waiting: 0,
        },
        Err(r) => {
            let w = said(r);
            Asked {
                number: w.number,
                waiting: w.waiting,
            }
        }
    }
}

#[tactic(auto, unfolding(greying::specs::Greying::number_of_choice, greying::specs::Greying::steps_of_choice))]
pub fn allowed(o: Result<u64, Refusal>) -> Allowed
    ensures number_value { result.number ≡ number_of_choice o }
    ensures steps_value { result.steps ≡ steps_of_choice o }
{
    match o {
        Ok(steps) => Allowed { number: 0, steps },
        Err(r) => Allowed {
            number: said(r).number,
            steps: 0,
        },
    }
}

#[tactic(auto, unfolding(moves::specs::Move::number_of_move, moves::specs::Move::waiting_of_move, moves::specs::Move::marking_of_move))]
pub fn moved(o: Result<Marking, Denied>) -> Moved
    ensures number_value { result.number ≡ number_of_move o }
    ensures waiting_value { result.waiting ≡ waiting_of_move o }
    ensures marking_value { result.marking ≡ marking_of_move o }
{
    match o {
        Ok(next) => Moved {
            number: 0,
            waiting: 0,
            marking: next,
        },
        Err(d) => {
            let w = said(d.refusal);
            Moved {
                number: w.number,
                waiting: w.waiting,
                marking: d.marking,
            }
        }
    }
}

#[tactic(auto, unfolding(records::specs::Answers::number_of_applied, records::specs::Answers::marking_of_applied))]
pub fn applied(o: Result<Marking, Denied>) -> Moved
    ensures number_value { result.number ≡ number_of_applied o }
    ensures waiting_value { result.waiting ≡ 0 }
    ensures marking_value { result.marking ≡ marking_of_applied o }
{
    match o {
        Ok(next) => Moved {
            number: 0,
            waiting: 0,
            marking: next,
        },
        Err(d) => Moved {
            number: said(d.refusal).number,
            waiting: 0,
            marking: d.marking,
        },
    }
}

#[tactic(auto, unfolding(journal::specs::Run::number_of_run, journal::specs::Run::waiting_of_run, journal::specs::Run::index_of_run, journal::specs::Run::marking_of_run))]
pub fn ran(o: Result<Ended, Stopped>) -> Ran
    ensures number_value { result.number ≡ number_of_run o }
    ensures waiting_value { result.waiting ≡ waiting_of_run o }
    ensures entries_value { result.entries ≡ index_of_run o }
    ensures marking_value { result.marking ≡ marking_of_run o }
{
    match o {
        Ok(end) => Ran {
            number: 0,
            waiting: 0,
            entries: end.entries as u64,
            marking: end.marking,
        },
        Err(stop) => {
            let w = said(stop.refusal);
            Ran {
                number: w.number,
                waiting: w.waiting,
                entries: stop.index as u64,
                marking: stop.marking,
            }
        }
    }
}

// A match in a match: of one over both the compiler makes a comparison more for each.
#[tactic(auto, unfolding(journal::specs::Walk::number_of_walked, crate::specs::Values::ended_of_walked, journal::specs::Walk::entry_of_walked))]
pub fn walked(o: Result<Option<Entry>, Refusal>) -> Walked
    ensures number_value { result.number ≡ number_of_walked o }
    ensures ended_value { result.ended ≡ ended_of_walked o }
    ensures result_value { result.entry ≡ entry_of_walked o }
{
    match o {
        Ok(at) => match at {
            Some(entry) => Walked {
                number: 0,
                ended: 0,
                entry,
            },
            None => Walked {
                number: 0,
                ended: 1,
                entry: NOBODY,
            },
        },
        Err(r) => Walked {
            number: said(r).number,
            ended: 0,
            entry: NOBODY,
        },
    }
}

// A record has 65 bytes.
#[tactic(auto, unfolding(moves::specs::First::number_of_verdict, crate::specs::Values::length_of_spelling))]
pub fn spelt(v: Result<(), Refusal>) -> Written
    ensures number_value { result.number ≡ number_of_verdict v }
    ensures length_value { result.length ≡ length_of_spelling v }
{
    match v {
        Ok(()) => Written {
            number: 0,
            length: 65,
        },
        Err(r) => Written {
            number: said(r).number,
            length: 0,
        },
    }
}

#[tactic(auto, unfolding(sheet::specs::Sheet::number_of_written, sheet::specs::Sheet::length_of_written))]
pub fn written(o: Result<usize, Refusal>) -> Written
    ensures number_value { result.number ≡ number_of_written o }
    ensures length_value { result.length ≡ length_of_written o }
{
    match o {
        Ok(size) => Written {
            number: 0,
            length: size as u64,
        },
        Err(r) => Written {
            number: said(r).number,
            length: 0,
        },
    }
}
