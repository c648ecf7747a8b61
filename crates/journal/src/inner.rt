// Reading a lent journal.
ghost use Rattle.std.specs.Prelude.{◌≡◌, ◌+◌, ◌*◌, ◌≤◌, length};
ghost use Rattle.journal.specs.Journal.{entry_at, length_fits};
ghost use Rattle.journal.specs.Walk.{stays, stride_at};

use crate::Stride;
use moves::{Entry, Refusal, Step};

// Entry k of a journal. Loops go by number and not by chunks: a refused entry is told by its number, and the laws speak of `entry_at`.
pub fn entry_at(j: &[u8], k: usize) -> Entry
    requires { 3 * k + 3 ≤ length j.now }
    ensures { result ≡ entry_at j.now k }
{
    let at = 3 * k;
    Entry {
        person: j[at],
        step: Step(j[at + 1]),
        role: j[at + 2],
    }
}

// Is the length a multiple of 3 and at most 65,535?
pub fn length_fits(j: &[u8]) -> bool
    ensures { result ≡ length_fits j.now }
{
    (j.len() % 3 == 0) & (j.len() <= 65535)
}

// Nothing is handed out, and the place stays.
fn stay(place: usize, said: Result<Option<Entry>, Refusal>) -> Stride
    ensures { result ≡ stays place said }
{
    Stride { said, place }
}

// What a walk at `place` says, and its next place. Refusal 7.
pub fn step_at(j: &[u8], place: usize) -> Stride
    ensures { result ≡ stride_at j.now place }
{
    if !length_fits(j) {
        return stay(place, Err(Refusal::Length));
    }
    if place < j.len() / 3 {
        let next = place + 1;
        return Stride {
            said: Ok(Some(entry_at(j, place))),
            place: next,
        };
    }
    stay(place, Ok(None))
}
