// The arrows of a sheet: three bytes each, kind, from, to, strictly ascending. They are read into one table of 256 rows, a row for each
// kind and step, and written from it: one table and not four, since it is copied into the job's block as it is.
#![tactic(auto)]

ghost use Rattle.std.specs.Prelude.{◌≡◌, ◌+◌, ◌*◌, ◌%◌, ◌<◌, ◌≤◌, length};
ghost use Rattle.tables.specs.Tables.{row};
ghost use Rattle.numbers.specs.Numbers.{Spliced};
ghost use Rattle.arrows.specs.Arrows.{arrows_in, link_in_order, put_all, spelt, arrows_body};
ghost use Rattle.arrows.specs.Rows.{members, row_arrows, kind_arrows, count_of, turned, turned_in, from_rows, Kept};
ghost use Rattle.arrows.specs.Loops.{filled};

use crate::runs::{Arrow, Stop, take};

pub mod runs;

// Puts the arrows into the table, up to the first that does not fit. Do all fit? A `bool`: nothing but yes or no is
// answered, and on either the table is as `table_after` says.
pub fn read(s: &[u8], n: u8, table: &mut [u64; 256]) -> bool
    requires { (n ≤ 64) × (length s.now % 3 ≡ 0) }
    ensures value { result ≡ link_in_order n (arrows_in s.now) }
    ensures table_after { table.new ≡ filled n 0 table.old (arrows_in s.now) }
{
    let mut stop = Stop { at: 0, next: 0 };
    // Each turn takes a whole run, and where that ends is found on the way: no `for` goes so.
    while stop.at < s.len() {
        if !Arrow::read(s, stop.at).fits(n, stop.next) {
            return false;
        }
        stop = take(s, stop.at, n, table);
    }
    true
}

// How many steps are in x?
#[tactic(auto, using(crate::specs::Rows::members_count))]
fn many(x: u64) -> usize
    ensures { result ≡ length (members x) }
{
    u64::count_ones(x) as usize
}

// How many arrows of a kind come from the first n steps?
fn count_kind(n: u8, rows: &[u64]) -> usize
    requires { (n ≤ 64) × (n ≤ length rows.now) }
    ensures { result ≡ count_of n (row rows.now) }
{
    let mut found = 0;
    for x in &rows[..n as usize] {
        found += many(*x);
    }
    found
}

// Puts b into the row of each step in x.
fn spill(x: u64, b: u8, table: &mut [u64; 64])
    requires { b < 64 }
    ensures { table.new ≡ put_all table.old (row_arrows 0 b x) }
{
    let one = sets::single(b);
    for a in sets::members(x) {
        table[a as usize] |= one;
    }
}

// The table turned: b is in row a of the answer exactly if a is in row b.
pub fn turned(n: u8, rows: &[u64]) -> [u64; 64]
    requires { (n ≤ 64) × (n ≤ length rows.now) }
    ensures { result ≡ turned n (row rows.now) }
{
    let mut table = [0u64; 64];
    // By number: it is the step that is put into the other rows.
    for b in 0..n {
        spill(rows[b as usize], b, &mut table);
    }
    table
}

// Writes the arrows of kind k that come from a.
fn write_row(k: u8, a: u8, x: u64, room: &mut [u8], at: usize) -> usize
    requires { at + 3 * length (members x) ≤ length room.old }
    ensures { Spliced (spelt (row_arrows k a x)) at room.old room.new result }
{
    let mut to = at;
    for b in sets::members(x) {
        room[to] = k;
        room[to + 1] = a;
        room[to + 2] = b;
        to += 3;
    }
    to
}

// Writes the arrows of kind k that come from the first n steps, and gives the place after them.
fn write_kind(k: u8, n: u8, rows: &[u64], room: &mut [u8], at: usize) -> usize
    requires { (n ≤ 64) × (n ≤ length rows.now) × (at + 3 * count_of n (row rows.now) ≤ length room.old) }
    ensures { Spliced (spelt (kind_arrows k n (row rows.now))) at room.old room.new result }
{
    let mut to = at;
    // By number: it is the step that the arrows come from.
    for a in 0..n {
        to = write_row(k, a, rows[a as usize], room, to);
    }
    to
}

// The rows of kind k by the step that its arrows come from. The conditions are turned already.
#[tactic(auto, unfolding(crate::specs::Rows::from_rows))]
fn from_rows<'a>(k: usize, conditions: &'a [u64], table: &'a [u64]) -> &'a [u64]
    requires { (k < 4) × (length table.now ≡ 256) }
    ensures { result.now ≡ from_rows conditions.now table.now k }
{
    if k == 0 {
        return conditions;
    }
    let from = k * 64;
    let end = from + 64;
    &table[from..end]
}

// How many bytes do the arrows of the table take? Counting and writing go over the kinds apart, since the one adds up and the other carries
// a place on. What is asked of n, the conditions and the table (`Kept`) stands in `size` and `write`
// alone, and that there are n rows in three functions, each of rows of its own: so neither has a type.
pub fn size<'a>(n: u8, conditions: &'a [u64], table: &'a [u64]) -> usize
    requires { Kept n table.now × (length table.now ≡ 256) × (conditions.now ≡ turned_in n table.now) }
    ensures { result ≡ length (arrows_body table.now) }
{
    let mut found = 0;
    for k in 0..4 {
        found += count_kind(n, from_rows(k, conditions, table));
    }
    3 * found
}

// Writes the arrows of the table, and gives the place after them: `Spliced` speaks of the whole room and of that place.
pub fn write<'a>(
    n: u8,
    conditions: &'a [u64],
    table: &'a [u64],
    room: &mut [u8],
    at: usize,
) -> usize
    requires kept { Kept n table.now × (length table.now ≡ 256) × (conditions.now ≡ turned_in n table.now) }
    requires table_in_bounds { at + length (arrows_body table.now) ≤ length room.old }
    ensures { Spliced (arrows_body table.now) at room.old room.new result }
{
    let mut to = at;
    for k in 0..4 {
        to = write_kind(k, n, from_rows(k as usize, conditions, table), room, to);
    }
    to
}
