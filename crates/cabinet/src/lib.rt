// The cabinet's own package: the sheet of the job for a mast with so many arms.
#![tactic(auto)]

ghost use Rattle.std.specs.Prelude.{◌≡◌, length};
ghost use Rattle.cabinet.specs.Cabinet.{the_cabinet, cabinet_after};

use crate::inner::{arms_fit, at_first, fill};
use moves::Refusal;
use rules::WORDS;

pub mod inner;

// Writes the sheet for so many arms, and gives its length. Refusals 30, then 18; on a refusal the room stays as it is.
pub fn write(arms: u64, room: &mut [u8]) -> Result<usize, Refusal>
    ensures value { result ≡ the_cabinet arms (length room.old) }
    ensures room_after { room.new ≡ cabinet_after arms room.old }
{
    if !arms_fit(arms) {
        return Err(Refusal::Arms);
    }
    let mut g = [0u64; WORDS];
    fill(arms, &mut g);
    sheet::write(&g, at_first(arms), room)
}
