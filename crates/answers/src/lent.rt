// Markings in lent memory, which is written only where the number is 0.
ghost use Rattle.std.specs.Prelude.{◌≡◌};
ghost use Rattle.moves.specs.Move.{number_of_move, waiting_of_move};
ghost use Rattle.answers.specs.Lent.{marking_of_words, marking_words, kept_out, number_of_read, marking_out};

use crate::Kept;
use crate::told::{moved, said};
use moves::{Marking, Refusal};

pub fn marking(words: &[u64; 3]) -> Marking
    ensures { result ≡ marking_of_words words.now }
{
    Marking {
        done: words[0],
        due: words[1],
        included: words[2],
    }
}

fn store(m: Marking, words: &mut [u64; 3])
    ensures { words.new ≡ marking_words m }
{
    *words = [m.done, m.due, m.included];
}

// The answer to an entry on the kept marking, which is laid down where the number is 0.
pub fn keep(k: kept::Kept, words: &mut [u64; 3]) -> Kept
    ensures number_value { result.number ≡ number_of_move k.answer }
    ensures waiting_value { result.waiting ≡ waiting_of_move k.answer }
    ensures words_after { words.new ≡ kept_out k words.old }
{
    let told = moved(k.answer);
    let r = Kept {
        number: told.number,
        waiting: told.waiting,
    };
    if r.number == 0 {
        store(k.marking, words);
        return r;
    }
    r
}

// The first marking of a sheet, where nothing is against it.
#[tactic(auto, unfolding(crate::specs::Lent::number_of_read, crate::specs::Lent::marking_out))]
pub fn first(o: Result<Marking, Refusal>, words: &mut [u64; 3]) -> u64
    ensures value { result ≡ number_of_read o }
    ensures words_after { words.new ≡ marking_out o words.old }
{
    match o {
        Ok(m) => {
            store(m, words);
            0
        }
        Err(r) => said(r).number,
    }
}
