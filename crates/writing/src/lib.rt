// Writing a sheet: what may be against its content, its length, and its parts one after the other.
#![tactic(auto)]

ghost use Rattle.std.specs.Prelude.{◌≡◌, ◌+◌, ◌*◌, ◌≤◌, ◌++◌, length};
ghost use Rattle.moves.specs.First.{first};
ghost use Rattle.rules.specs.Graph.{graph_of, graph_verdict};
ghost use Rattle.numbers.specs.Numbers.{Spliced};
ghost use Rattle.layout.specs.Layout.{front};
ghost use Rattle.writing.specs.Writing.{content_lines, sheet_bytes};
ghost use Rattle.writing.specs.Laws.{turned_of};
ghost use Rattle.writing.specs.Parts.{sizes_of, tables_out, bodies_out, length_out};

use moves::{Marking, Refusal};
use rules::{ALLOWS, CONDITIONS, HOLDS, Job, LABELS, RESPONSES, WORDS};

// Refusals 2, 4, 6.
pub fn content(g: &Job, m: Marking) -> Result<(), Refusal>
    ensures { result ≡ first (content_lines (graph_of g.now) m) }
{
    if !rules::counts(g).fit() {
        return Err(Refusal::Counts);
    }
    if !moves::inner::fits(g[0], m) {
        return Err(Refusal::Beyond);
    }
    rules::check(g)
}

// The conditions by the step that is waited for, as they are written.
#[tactic(auto, using(crate::proofs::Few::few))]
pub fn turned(g: &Job) -> [u64; 64]
    requires { graph_verdict (graph_of g.now) ≡ Ok tt }
    ensures { result ≡ turned_of (graph_of g.now) }
{
    let n = g[0] as u8;
    let w = &g[..];
    arrows::turned(n, &w[CONDITIONS..RESPONSES])
}

// How long the sheet is. A graph and its turned conditions stay two parameters, here and in `fill`: docs/PROMISES.md names this floor.
#[tactic(auto, using(crate::proofs::Few::few))]
pub fn size<'a>(g: &'a Job, turned: &'a [u64; 64]) -> usize
    requires { (graph_verdict (graph_of g.now) ≡ Ok tt) × (turned.now ≡ turned_of (graph_of g.now)) }
    ensures { result ≡ length_out (graph_of g.now) }
{
    let n = g[0];
    let p = g[1];
    let a = g[3];
    let w = &g[..];
    let arrows = arrows::size(n as u8, turned, &w[CONDITIONS..ALLOWS]);
    59 + 2 * (a as usize) + 2 * (p as usize) + n as usize + arrows
}

// Byte 0 and the contents.
fn write_front(n: usize, p: usize, a: usize, arrows: usize, room: &mut [u8]) -> usize
    requires { (n ≤ 64) × (p ≤ 16) × (a ≤ 64) × (arrows ≤ 49152) × (31 ≤ length room.old) }
    ensures { Spliced (front (sizes_of n p a arrows)) 0 room.old room.new result }
{
    let sizes = [4, 24, 2 * a, 2 * p, arrows, n];
    layout::write(&sizes, room)
}

// Bodies 3 to 6.
#[tactic(auto, using(crate::proofs::Few::few))]
fn write_tables<'a>(g: &'a Job, turned: &'a [u64; 64], room: &mut [u8], at: usize) -> usize
    requires g_value { (graph_verdict (graph_of g.now) ≡ Ok tt) × (turned.now ≡ turned_of (graph_of g.now)) }
    requires g_in_bounds { at + length (tables_out (graph_of g.now)) ≤ length room.old }
    ensures { Spliced (tables_out (graph_of g.now)) at room.old room.new result }
{
    let steps = g[0];
    let people = g[1] as usize;
    let actions = g[3] as usize;
    let w = &g[..];
    let x = bodies::write_rows(2, actions, &w[ALLOWS..HOLDS], room, at);
    let y = bodies::write_rows(2, people, &w[HOLDS..LABELS], room, x);
    let z = arrows::write(steps as u8, turned, &w[CONDITIONS..ALLOWS], room, y);
    bodies::write_rows(1, steps as usize, &w[LABELS..WORDS], room, z)
}

fn write_bodies<'a>(
    g: &'a Job,
    turned: &'a [u64; 64],
    m: Marking,
    room: &mut [u8],
    at: usize,
) -> usize
    requires g_value { (graph_verdict (graph_of g.now) ≡ Ok tt) × (turned.now ≡ turned_of (graph_of g.now)) }
    requires m_in_bounds { at + length (bodies_out (graph_of g.now) m) ≤ length room.old }
    ensures { Spliced (bodies_out (graph_of g.now) m) at room.old room.new result }
{
    let x = bodies::write_counts(rules::counts(g), room, at);
    let y = bodies::write_marking(m, room, x);
    write_tables(g, turned, room, y)
}

// Writes the whole sheet, of the size that is given, from the start of the room, and gives its length.
#[tactic(auto, using(crate::proofs::Few::few))]
pub fn fill<'a>(
    g: &'a Job,
    turned: &'a [u64; 64],
    m: Marking,
    size: usize,
    room: &mut [u8],
) -> usize
    requires g_value { (graph_verdict (graph_of g.now) ≡ Ok tt) × (turned.now ≡ turned_of (graph_of g.now)) }
    requires size_value { (size ≡ length_out (graph_of g.now)) × (size ≤ length room.old) }
    ensures { Spliced (sheet_bytes (graph_of g.now) m) 0 room.old room.new result }
{
    let n = g[0] as usize;
    let p = g[1] as usize;
    let a = g[3] as usize;
    let at = write_front(n, p, a, size - (59 + 2 * a + 2 * p + n), room);
    write_bodies(g, turned, m, room, at)
}
