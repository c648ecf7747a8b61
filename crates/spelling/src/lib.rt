// A record in its 65 bytes: the reader and the writer.
#![tactic(auto)]

ghost use Rattle.std.specs.Prelude.{◌≡◌};
ghost use Rattle.spelling.specs.Bytes.{the_reading, Writing};

use crate::inner::{record_at, spell};
use moves::Refusal;
use records::Record;
use records::inner::{counts, well_formed};

pub mod inner;

// The record of n steps that the bytes spell. Refusals 2, 10.
#[tactic(auto, unfolding(crate::specs::Bytes::the_reading, records::specs::Answers::recorded_of, moves::specs::First::first))]
pub fn read(n: u64, s: &[u8]) -> Result<Record, Refusal>
    ensures { result ≡ the_reading n s.now }
{
    if !counts(n) {
        return Err(Refusal::Counts);
    }
    if s.len() != 65 {
        return Err(Refusal::IllFormed);
    }
    if 1 < s[0] {
        return Err(Refusal::IllFormed);
    }
    let made = record_at(s);
    if !well_formed(n, made) {
        return Err(Refusal::IllFormed);
    }
    Ok(made)
}

// A record of n steps into the first 65 bytes of the room. Refusals 2, 10, 18.
#[tactic(auto, using(crate::specs::Spelling::writing), unfolding(crate::specs::Bytes::room_of, moves::specs::First::first))]
pub fn write(n: u64, r: Record, room: &mut [u8]) -> Result<(), Refusal>
    ensures { Writing n r room.old result room.new }
{
    if !counts(n) {
        return Err(Refusal::Counts);
    }
    if !well_formed(n, r) {
        return Err(Refusal::IllFormed);
    }
    if room.len() < 65 {
        return Err(Refusal::Room);
    }
    spell(r, room);
    Ok(())
}
