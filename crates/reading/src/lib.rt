// Reading a sheet: what is against it, test by test, and the block that it is read into.
#![tactic(auto)]

ghost use Rattle.std.specs.Prelude.{◌≡◌, ◌≤◌, length, replicate};
ghost use Rattle.arrows.specs.Arrows.{table_of};
ghost use Rattle.reading.specs.Reading.{form_of, counts_of, first_of, arrows_on, block_read, layout_fits, read_verdict};
ghost use Rattle.reading.specs.Laws.{Placed};
ghost use Rattle.reading.specs.Judged.{Judged};

use crate::opened::Sheet;
use moves::{Marking, Refusal};
use rules::CONDITIONS;
use tables::Counts;

mod opened;

// A form of sheet: how many bodies it has, the bytes of body 1 and which of them counts the actions, the least and the most bytes.
#[derive(Clone, Copy)]
pub struct Form {
    pub bodies: usize,
    pub counts: usize,
    pub actions: usize,
    pub least: usize,
    pub most: usize,
}

const SIX: Form = Form {
    bodies: 6,
    counts: 4,
    actions: 3,
    least: 35,
    most: 37147,
};

const FIVE: Form = Form {
    bodies: 5,
    counts: 3,
    actions: 0,
    least: 29,
    most: 37077,
};

// The form that byte 0 says.
pub fn form_of(s: &[u8]) -> Form
    requires { 1 ≤ length s.now }
    ensures { result ≡ form_of s.now }
{
    if s[0] == 6 { SIX } else { FIVE }
}

fn layout_fits(s: &[u8]) -> bool
    ensures { result ≡ layout_fits s.now }
{
    if s.len() < 29 {
        return false;
    }
    let f = form_of(s);
    if s.len() < f.least {
        return false;
    }
    if f.most < s.len() {
        return false;
    }
    if !layout::fits(s, f.bodies) {
        return false;
    }
    (layout::size(s, 0) == f.counts) & (layout::size(s, 1) == 24) & (layout::size(s, 4) % 3 == 0)
}

#[tactic(auto, using(crate::specs::Laws::placed_long))]
fn counts(s: &[u8]) -> Counts
    requires { Placed s.now }
    ensures { result ≡ counts_of s.now }
{
    let f = form_of(s);
    bodies::read_counts(layout::body(s, 0), f.actions)
}

pub fn first_marking(s: &[u8]) -> Marking
    requires { Placed s.now }
    ensures { result ≡ first_of s.now }
{
    bodies::read_marking(layout::body(s, 1))
}

// Refusals 1 to 6. The table, empty at first, holds the arrows of a sheet that nothing is against.
pub fn judge(s: &[u8], table: &mut [u64; 256]) -> Result<(), Refusal>
    requires { table.old ≡ replicate 256 0 }
    ensures { Judged s.now table.new result }
{
    if !layout_fits(s) {
        return Err(Refusal::Layout);
    }
    let c = counts(s);
    if !c.fit() {
        return Err(Refusal::Counts);
    }
    let sheet = Sheet {
        bytes: s,
        counts: c,
    };
    if !sheet.bodies_match() {
        return Err(Refusal::Bodies);
    }
    if !sheet.sets_inside() {
        return Err(Refusal::Beyond);
    }
    if !sheet.arrows_right(table) {
        return Err(Refusal::Arrows);
    }
    if !sheet.kinds_right(table) {
        return Err(Refusal::Both);
    }
    Ok(())
}

// Fills the block with a sheet that nothing is against, word after word. The table holds the arrows.
pub fn fill(s: &[u8], table: &[u64; 256], block: &mut [u64])
    requires { (read_verdict s.now ≡ Ok tt) × (length block.old ≡ 404) × (table.now ≡ table_of (arrows_on s.now)) }
    ensures { block.new ≡ block_read s.now }
{
    let c = counts(s);
    block[0] = c.steps;
    block[1] = c.people;
    block[2] = c.roles;
    block[3] = c.actions;
    let x = bodies::copy(table, block, CONDITIONS);
    let y = bodies::read_roles(layout::body(s, 2), 64, block, x);
    let z = bodies::read_roles(layout::body(s, 3), 16, block, y);
    let sheet = Sheet {
        bytes: s,
        counts: c,
    };
    bodies::read_labels(sheet.labels_part(), sheet.own_steps(), 64, block, z);
}
