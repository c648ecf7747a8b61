// Numbers as bytes, lowest first, in lent memory.
#![tactic(auto)]

ghost use Rattle.std.specs.Prelude.{◌≡◌, ℕ, ◌+◌, ◌*◌, ◌<◌, ◌≤◌, length, drop};
ghost use Rattle.numbers.specs.Numbers.{number, bytes, Spliced};

// The number that the two bytes at `at` spell. `two` and `eight` are no one function: `from_le_bytes` is each type's own, and no trait
// has it.
pub fn two(s: &[u8], at: usize) -> u16
    requires { at + 2 ≤ length s.now }
    ensures { result ≡ number 2 (drop at s.now) }
{
    u16::from_le_bytes([s[at], s[at + 1]])
}

// The number that the eight bytes at `at` spell. They are read one by one: a copy of the slice has to look whether the two overlap.
pub fn eight(s: &[u8], at: usize) -> u64
    requires { at + 8 ≤ length s.now }
    ensures { result ≡ number 8 (drop at s.now) }
{
    let word = [
        s[at],
        s[at + 1],
        s[at + 2],
        s[at + 3],
        s[at + 4],
        s[at + 5],
        s[at + 6],
        s[at + 7],
    ];
    u64::from_le_bytes(word)
}

// Spells x in w bytes from `at` on, and gives the place after them. Room and place stay two: `Spliced`, the promise of every writer,
// is of the whole room, and with no heap there is no `Vec` to push to. Eight bytes are one store. Others are counted out, since `put`
// asks nothing of w and `to_le_bytes` has eight.
pub fn put(x: u64, w: usize, room: &mut [u8], at: usize) -> usize
    requires { at + w ≤ length room.old }
    ensures { Spliced (bytes w x) at room.old room.new result }
{
    if w == 8 {
        room[at..at + 8].copy_from_slice(&x.to_le_bytes());
        return at + 8;
    }
    let mut rest = x;
    for k in 0..w {
        room[at + k] = (rest % 256) as u8;
        rest = rest / 256;
    }
    at + w
}
