// The search for a finished marking, in a store of the program's own.
use deadend::Ends;
use moves::{Marking, Refusal};
use rules::Job;

// The most markings that a store may have room for.
pub const MOST: u64 = 2048;

// Room for one marking more, so that a store for too many is lent as such.
const ROOM: usize = 24 * 2049;

// With a store for that many markings; what none may have is refused.
pub fn searched(g: &Job, m: Marking, markings: u64) -> Result<Ends, Refusal> {
    let n = 24 * markings.min(MOST + 1) as usize;
    let mut room = [0u8; ROOM];
    deadend::can_end(g, m, &mut room[..n])
}
