// A record read from its bytes, and spelt.
ghost use Rattle.std.specs.Prelude.{◌≡◌, ◌≤◌, ◌++◌, length, drop};
ghost use Rattle.spelling.specs.Bytes.{record_at, record_bytes};

use numbers::{eight, put};
use records::Record;

// The record that 65 bytes spell.
#[tactic(auto, unfolding(crate::specs::Bytes::record_at))]
pub fn record_at(s: &[u8]) -> Record
    requires { 65 ≤ length s.now }
    ensures { result ≡ record_at s.now }
{
    Record {
        never: s[0] == 1,
        needin: eight(s, 1),
        needex: eight(s, 9),
        needout: eight(s, 17),
        done: eight(s, 25),
        dueset: eight(s, 33),
        dueclear: eight(s, 41),
        inset: eight(s, 49),
        inclear: eight(s, 57),
    }
}

// Spells the record into the first 65 bytes: never, and then the eight sets.
pub fn spell(r: Record, room: &mut [u8])
    requires { 65 ≤ length room.old }
    ensures { room.new ≡ record_bytes r ++ drop 65 room.old }
{
    let words = [
        r.needin, r.needex, r.needout, r.done, r.dueset, r.dueclear, r.inset, r.inclear,
    ];
    let mut at = put(u64::from(r.never), 1, room, 0);
    for word in words {
        at = put(word, 8, room, at);
    }
}
