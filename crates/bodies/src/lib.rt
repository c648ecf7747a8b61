// A reader and a writer for each body of a sheet.
#![tactic(auto)]

ghost use Rattle.std.specs.Prelude.{◌≡◌, ℕ, ◌+◌, ◌*◌, ◌%◌, ◌<◌, ◌≤◌, length};
ghost use Rattle.numbers.specs.Numbers.{Spliced};
ghost use Rattle.bodies.specs.Tables.{tabled};
ghost use Rattle.bodies.specs.Bodies.{counts_body, counts_in, marking_body, marking_in, rows_body, set_at, sets_in, role_sets_fit};
ghost use Rattle.bodies.specs.Bodies.{label_at, labels_in, actions_fit};

use moves::Marking;
use tables::Counts;

// Byte `at` counts the actions.
pub fn read_counts(body: &[u8], at: usize) -> Counts
    requires { (3 ≤ length body.now) × (at < length body.now) }
    ensures { result ≡ counts_in at body.now }
{
    Counts {
        steps: body[0] as u64,
        people: body[1] as u64,
        roles: body[2] as u64,
        actions: body[at] as u64,
    }
}

pub fn read_marking(body: &[u8]) -> Marking
    requires { 24 ≤ length body.now }
    ensures { result ≡ marking_in body.now }
{
    Marking {
        done: numbers::eight(body, 0),
        due: numbers::eight(body, 8),
        included: numbers::eight(body, 16),
    }
}

// Role set i of a body; empty past the end. That a body has whole sets is asked in three places and made in one: a type would be built for
// each call.
fn role_set(body: &[u8], i: usize) -> u16
    requires { (i < 65536) × (length body.now % 2 ≡ 0) }
    ensures { result ≡ set_at body.now i }
{
    let at = 2 * i;
    if at < body.len() {
        numbers::two(body, at)
    } else {
        0
    }
}

// Does each role set of the body name only roles that there are?
pub fn role_sets_fit(body: &[u8], roles: u64) -> bool
    requires { (roles ≤ 64) × (length body.now < 65536) × (length body.now % 2 ≡ 0) }
    ensures { result ≡ role_sets_fit roles body.now }
{
    let mut found = 0;
    // By number, as the definition `set_at` has it.
    for i in 0..body.len() / 2 {
        found = found | role_set(body, i);
    }
    sets::within(roles, found as u64)
}

// Puts the first `count` rows, as `row` gives them, into the block from word `at` on, and gives the place after them.
fn put_rows<F: Fn(usize) -> u64>(row: F, count: usize, block: &mut [u64], at: usize) -> usize
    requires fits { at + count ≤ length block.old }
    requires callable { (i : ℕ) → i < count → F.pre row i }
    ensures { (f : ℕ → ℕ) → ((i x : ℕ) → i < count → F.post row i x → x ≡ f i) → Spliced (tabled count f) at block.old block.new result }
{
    // By number: the rows are asked for by it.
    for i in 0..count {
        block[at + i] = row(i);
    }
    at + count
}

// Puts `count` role sets into the block from word `at` on, those of the body and then empty ones, and gives the place after them.
pub fn read_roles(body: &[u8], count: usize, block: &mut [u64], at: usize) -> usize
    requires { (count ≤ 64) × (length body.now % 2 ≡ 0) × (at + count ≤ length block.old) }
    ensures { Spliced (sets_in count body.now) at block.old block.new result }
{
    put_rows(|i| role_set(body, i) as u64, count, block, at)
}

// Is each action of the body one that there is? All are tested, where `all` would stop at the first that is not: so the loop has no way
// out and takes many bytes at once (docs/MEASURED.md, read-full).
pub fn actions_fit(body: &[u8], actions: u64) -> bool
    ensures { result ≡ actions_fit actions body.now }
{
    let mut fit = true;
    for a in body {
        fit = fit & ((*a as u64) < actions);
    }
    fit
}

// The action of step i: its own number below `own`, else that of the body; 0 past the end.
fn label(body: &[u8], own: usize, i: usize) -> u64
    ensures { result ≡ label_at own body.now i }
{
    if i < own {
        return i as u64;
    }
    if i < body.len() { body[i] as u64 } else { 0 }
}

// Puts the actions of `count` steps into the block from word `at` on, and gives the place after them.
pub fn read_labels(body: &[u8], own: usize, count: usize, block: &mut [u64], at: usize) -> usize
    requires { (count ≤ 64) × (at + count ≤ length block.old) }
    ensures { Spliced (labels_in count own body.now) at block.old block.new result }
{
    put_rows(|i| label(body, own, i), count, block, at)
}

// Copies the rows into the block from word `at` on, and gives the place after them.
pub fn copy(rows: &[u64], block: &mut [u64], at: usize) -> usize
    requires { at + length rows.now ≤ length block.old }
    ensures { Spliced rows.now at block.old block.new result }
{
    let next = at + rows.len();
    block[at..next].copy_from_slice(rows);
    next
}

pub fn write_counts(c: Counts, room: &mut [u8], at: usize) -> usize
    requires { at + 4 ≤ length room.old }
    ensures { Spliced (counts_body c.steps c.people c.roles c.actions) at room.old room.new result }
{
    let x = numbers::put(c.steps, 1, room, at);
    let y = numbers::put(c.people, 1, room, x);
    let z = numbers::put(c.roles, 1, room, y);
    numbers::put(c.actions, 1, room, z)
}

pub fn write_marking(m: Marking, room: &mut [u8], at: usize) -> usize
    requires { at + 24 ≤ length room.old }
    ensures { Spliced (marking_body m) at room.old room.new result }
{
    let a = numbers::put(m.done, 8, room, at);
    let b = numbers::put(m.due, 8, room, a);
    numbers::put(m.included, 8, room, b)
}

// Writes the first `count` rows of the table, each in w bytes.
pub fn write_rows(w: usize, count: usize, table: &[u64], room: &mut [u8], at: usize) -> usize
    requires { (w ≤ 8) × (count ≤ 64) × (count ≤ length table.now) × (at + w * count ≤ length room.old) }
    ensures { Spliced (rows_body w count table.now) at room.old room.new result }
{
    let mut to = at;
    for row in &table[..count] {
        to = numbers::put(*row, w, room, to);
    }
    to
}
