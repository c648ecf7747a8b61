// The sheet of a graph and its first marking: the reader and the writer. A graph is lent as one block.
#![tactic(auto)]

ghost use Rattle.std.specs.Prelude.{◌≡◌, length};
ghost use Rattle.rules.specs.Graph.{graph_of};
ghost use Rattle.sheet.specs.Sheet.{read_verdict, block_read, if_clear, the_answer, the_written, room_after};

use moves::{Marking, Refusal};
use rules::Job;

// Reads a sheet into the block, and gives its first marking. Refusals 1 to 6; on a refusal the block stays as it is.
pub fn read(s: &[u8], g: &mut Job) -> Result<Marking, Refusal>
    ensures value { result ≡ the_answer s.now }
    ensures g_after { g.new ≡ if_clear (read_verdict s.now) (block_read s.now) g.old }
{
    let mut table = [0u64; 256];
    reading::judge(s, &mut table)?;
    reading::fill(s, &table, g);
    Ok(reading::first_marking(s))
}

// Writes the sheet of the graph and its first marking, and gives its length, and not the part that is written: C is handed it
// on. Refusals 2, 4, 6, 18; on a refusal the room stays as it is.
pub fn write(g: &Job, m: Marking, room: &mut [u8]) -> Result<usize, Refusal>
    ensures value { result ≡ the_written (graph_of g.now) m (length room.old) }
    ensures room_after { room.new ≡ room_after (graph_of g.now) m room.old }
{
    writing::content(g, m)?;
    let turned = writing::turned(g);
    let size = writing::size(g, &turned);
    if room.len() < size {
        return Err(Refusal::Room);
    }
    Ok(writing::fill(g, &turned, m, size, room))
}
