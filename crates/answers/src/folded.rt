// Records in lent memory: 65 bytes, or nine words, never and then the eight sets. It is written only where the number is 0.
ghost use Rattle.std.specs.Prelude.{◌≡◌};
ghost use Rattle.records.specs.Answers.{number_of_recorded};
ghost use Rattle.answers.specs.Folded.{record_in, record_of, record_words, bytes_out, words_out};

use crate::told::said;
use moves::Refusal;
use records::Record;

// What stands in for bytes or words that spell no record: never is on beside a set, so that it is well-formed for no n. It is a
// record and no `None`: `record_in` and `record_of`, which stand in the border's clauses, answer one.
const SPOILT: Record = Record {
    never: true,
    needin: 1,
    needex: 0,
    needout: 0,
    done: 0,
    dueset: 0,
    dueclear: 0,
    inset: 0,
    inclear: 0,
};

pub fn record_in(bytes: &[u8]) -> Record
    ensures { result ≡ record_in bytes.now }
{
    if bytes.len() != 65 {
        return SPOILT;
    }
    if 1 < bytes[0] {
        return SPOILT;
    }
    spelling::inner::record_at(bytes)
}

pub fn record_of(words: &[u64; 9]) -> Record
    ensures { result ≡ record_of words.now }
{
    let never = words[0];
    if 1 < never {
        return SPOILT;
    }
    Record {
        never: never == 1,
        needin: words[1],
        needex: words[2],
        needout: words[3],
        done: words[4],
        dueset: words[5],
        dueclear: words[6],
        inset: words[7],
        inclear: words[8],
    }
}

// A function for each memory, and not one with a closure: the `match` is all that they share, and each has its own clause.
pub fn spell(o: Result<Record, Refusal>, bytes: &mut [u8; 65]) -> u64
    ensures value { result ≡ number_of_recorded o }
    ensures bytes_after { bytes.new ≡ bytes_out o bytes.old }
{
    match o {
        Ok(r) => {
            spelling::inner::spell(r, bytes);
            0
        }
        Err(r) => said(r).number,
    }
}

fn lay(r: Record, words: &mut [u64; 9])
    ensures { words.new ≡ record_words r }
{
    *words = [
        r.never as u64,
        r.needin,
        r.needex,
        r.needout,
        r.done,
        r.dueset,
        r.dueclear,
        r.inset,
        r.inclear,
    ];
}

#[tactic(auto, unfolding(records::specs::Answers::number_of_recorded, crate::specs::Folded::words_out))]
pub fn spread(o: Result<Record, Refusal>, words: &mut [u64; 9]) -> u64
    ensures value { result ≡ number_of_recorded o }
    ensures words_after { words.new ≡ words_out o words.old }
{
    match o {
        Ok(r) => {
            lay(r, words);
            0
        }
        Err(r) => said(r).number,
    }
}
