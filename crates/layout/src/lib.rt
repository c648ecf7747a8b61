// The layout of a sheet: the number of bodies, a contents line for each, and the bodies without gaps to the end.
#![tactic(auto)]

ghost use Rattle.std.specs.Prelude.{◌≡◌, ℕ, ◌+◌, ◌*◌, ◌<◌, ◌≤◌, ◌&&◌, length, get_or, eqb};
ghost use Rattle.numbers.specs.Numbers.{Spliced};
ghost use Rattle.layout.specs.Layout.{line_of, front, start, kind_at, offset_at, size_at, body_at, contents_fit};
ghost use Rattle.layout.specs.Loops.{lines};

// Where body i starts, by the contents. What is asked of the sheet's length hangs on i: it is no fact of the sheet that a type could
// hold. And `offset` and `size` are two functions of a line each, since `offset_at` and `size_at` are two definitions.
pub fn offset(s: &[u8], i: usize) -> usize
    requires { 6 + 5 * i ≤ length s.now }
    ensures { (result ≡ offset_at s.now i) × (result < 65536) }
{
    numbers::two(s, 2 + 5 * i) as usize
}

// How long body i is, by the contents.
pub fn size(s: &[u8], i: usize) -> usize
    requires { 6 + 5 * i ≤ length s.now }
    ensures { (result ≡ size_at s.now i) × (result < 65536) }
{
    numbers::two(s, 4 + 5 * i) as usize
}

// Where body i ends.
fn end(s: &[u8], i: usize) -> usize
    requires { 6 + 5 * i ≤ length s.now }
    ensures { result ≡ offset_at s.now i + size_at s.now i }
{
    offset(s, i) + size(s, i)
}

// Body i: the part of the sheet from its offset to its end.
pub fn body(s: &[u8], i: usize) -> &[u8]
    requires { (6 + 5 * i ≤ length s.now) × (offset_at s.now i + size_at s.now i ≤ length s.now) }
    ensures { result.now ≡ body_at s.now i }
{
    let a = offset(s, i);
    let e = end(s, i);
    &s[a..e]
}

// Is line i of kind i + 1, for a body that starts at `at`?
fn line_fits(s: &[u8], i: usize, at: usize) -> bool
    requires { 6 + 5 * i ≤ length s.now }
    ensures { result ≡ (eqb (kind_at s.now i) (i + 1) && eqb (offset_at s.now i) at) }
{
    let kind = s[1 + 5 * i] as usize;
    (kind == i + 1) & (offset(s, i) == at)
}

// Are byte 0 and the contents those of `count` bodies, from the contents to the end of the sheet?
pub fn fits(s: &[u8], count: usize) -> bool
    requires { (count < 256) × (start count ≤ length s.now) }
    ensures { result ≡ contents_fit count s.now }
{
    if s[0] as usize != count {
        return false;
    }
    let mut at = 1 + 5 * count;
    for i in 0..count {
        if !line_fits(s, i, at) {
            return false;
        }
        at += size(s, i);
    }
    at == s.len()
}

fn write_line(kind: usize, offset: usize, size: usize, room: &mut [u8], at: usize) -> usize
    requires { at + 5 ≤ length room.old }
    ensures { Spliced (line_of kind offset size) at room.old room.new result }
{
    let a = numbers::put(kind as u64, 1, room, at);
    let b = numbers::put(offset as u64, 2, room, a);
    numbers::put(size as u64, 2, room, b)
}

fn write_lines(sizes: &[usize], room: &mut [u8], at: usize) -> usize
    requires { (length sizes.now < 256) × (at + 5 * length sizes.now ≤ length room.old)
        × ((i : ℕ) → get_or sizes.now i 0 < 65536) }
    ensures { Spliced (lines sizes.now) at room.old room.new result }
{
    let mut to = at;
    let mut offset = 1 + 5 * sizes.len();
    for (i, size) in sizes.iter().enumerate() {
        to = write_line(i + 1, offset, *size, room, to);
        offset += *size;
    }
    to
}

// Writes byte 0 and the contents of bodies of these sizes, and gives the place where the bodies start.
pub fn write(sizes: &[usize], room: &mut [u8]) -> usize
    requires { (length sizes.now < 256) × (start (length sizes.now) ≤ length room.old)
        × ((i : ℕ) → get_or sizes.now i 0 < 65536) }
    ensures { Spliced (front sizes.now) 0 room.old room.new result }
{
    let a = numbers::put(sizes.len() as u64, 1, room, 0);
    write_lines(sizes, room, a)
}
