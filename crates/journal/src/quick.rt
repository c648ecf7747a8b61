// A run on a graph with nothing against it: an allowed entry meets five tests, and which refusal another one meets is asked only then.
// That nothing is against the graph, and that the journal's length fits, is asked by each function and stands in no type: docs/PROMISES.md
// names them, with what they take for granted.
ghost use Rattle.std.specs.Prelude.{◌≡◌, ◌%◌, ◌≤◌, length};
ghost use Rattle.rules.specs.Graph.{graph_of, graph_verdict};
ghost use Rattle.journal.specs.Journal.{entries};
ghost use Rattle.journal.specs.Ran.{stopped};
ghost use Rattle.journal.specs.Inner.{run_on};
ghost use Rattle.journal.specs.Allowed.{is_allowed};
ghost use Rattle.journal.specs.Singles.{Singles};

use crate::inner::entry_at;
use crate::{Ended, Stopped};
use moves::inner::waits;
use moves::{Entry, Marking, Refusal};
use rules::Job;
use rules::inner::{against, row_at, taken};

// The sets with one step each. A test by a look into this table is quicker than one by a shift, since the compiler shares a shift
// with the move after the test and then does both in more instructions.
pub const SINGLES: [u64; 64] = [
    1,
    2,
    4,
    8,
    16,
    32,
    64,
    128,
    256,
    512,
    1024,
    2048,
    4096,
    8192,
    16384,
    32768,
    65536,
    131072,
    262144,
    524288,
    1048576,
    2097152,
    4194304,
    8388608,
    16777216,
    33554432,
    67108864,
    134217728,
    268435456,
    536870912,
    1073741824,
    2147483648,
    4294967296,
    8589934592,
    17179869184,
    34359738368,
    68719476736,
    137438953472,
    274877906944,
    549755813888,
    1099511627776,
    2199023255552,
    4398046511104,
    8796093022208,
    17592186044416,
    35184372088832,
    70368744177664,
    140737488355328,
    281474976710656,
    562949953421312,
    1125899906842624,
    2251799813685248,
    4503599627370496,
    9007199254740992,
    18014398509481984,
    36028797018963968,
    72057594037927936,
    144115188075855872,
    288230376151711744,
    576460752303423488,
    1152921504606846976,
    2305843009213693952,
    4611686018427387904,
    9223372036854775808,
];

// Is the entry allowed? A person or role below 16 that is not there has an empty row, so these counts are not asked. Those of steps
// are: a step that is not there has action 0, and that may have roles.
pub fn allowed<'a, 'b>(singles: &'b [u64; 64], g: &'a Job, m: Marking, e: Entry) -> bool
    requires { (graph_verdict (graph_of g.now) ≡ Ok tt) × Singles singles.now }
    ensures { result ≡ is_allowed (graph_of g.now) m e }
{
    let p = e.person;
    let s = e.step.0;
    let r = e.role;
    if 16 <= (p | r) {
        return false;
    }
    if g[0] <= s as u64 {
        return false;
    }
    let w = row_at(g, p, s);
    if !sets::has(w.held & w.allows, r) {
        return false;
    }
    let i = s as usize;
    if m.included & singles[i] == 0 {
        return false;
    }
    waits(w.conditions, m) == 0
}

fn stopped(index: u16, marking: Marking, refusal: Refusal) -> Stopped
    ensures { result ≡ stopped index marking refusal }
{
    Stopped {
        index,
        marking,
        refusal,
    }
}

// The entries, on a graph and a journal with nothing against them. Refusals 11 to 15.
pub fn run_entries<'a, 'b>(g: &'a Job, m: Marking, j: &'b [u8]) -> Result<Ended, Stopped>
    requires { (graph_verdict (graph_of g.now) ≡ Ok tt) × (length j.now % 3 ≡ 0) × (length j.now ≤ 65535) }
    ensures { result ≡ run_on (graph_of g.now) m 0 (entries j.now) }
{
    let singles = SINGLES;
    let count = j.len() / 3;
    let mut at = m;
    for k in 0..count {
        let e = entry_at(j, k);
        if !allowed(&singles, g, at, e) {
            let index = k as u16;
            return Err(stopped(index, at, against(g, at, e)));
        }
        at = taken(g, at, e);
    }
    Ok(Ended {
        marking: at,
        entries: count as u16,
    })
}
