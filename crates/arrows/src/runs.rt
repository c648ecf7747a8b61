// Runs of arrows of one kind that come from one step. A run is read into one set, since a row of the table that is loaded and stored for
// each of its arrows waits for itself.
ghost use Rattle.std.specs.Prelude.{◌≡◌, ◌+◌, ◌%◌, ◌<◌, length};
ghost use Rattle.arrows.specs.Arrows.{place};
ghost use Rattle.arrows.specs.Rows.{toward};
ghost use Rattle.arrows.specs.Loops.{passes, arrow_in};
ghost use Rattle.arrows.specs.Runs.{pointed, Advances, Begins, Taken};

// In the order of a sheet: by kind, then from, then to. The kind is a byte and no enum: what is none of the four is read too, and is
// refused (`link_in_order`).
#[derive(Clone, Copy, Debug, PartialEq, Eq, PartialOrd, Ord)]
pub struct Arrow {
    pub kind: u8,
    pub from: u8,
    pub to: u8,
}

impl Arrow {
    // The arrow that the three bytes at i spell.
    pub fn read(s: &[u8], i: usize) -> Arrow
        requires { i + 2 < length s.now }
        ensures { toward result.kind result.from result.to ≡ arrow_in s.now i }
    {
        Arrow {
            kind: s[i],
            from: s[i + 1],
            to: s[i + 2],
        }
    }

    fn place(self) -> usize
        ensures { result ≡ place (toward self.kind self.from self.to) }
    {
        (self.kind as usize) * 4096 + (self.from as usize) * 64 + (self.to as usize)
    }

    // Is the arrow between steps that there are, at a place not below `next`?
    pub fn fits(self, n: u8, next: usize) -> bool
        ensures { result ≡ passes n next (toward self.kind self.from self.to) }
    {
        (self.kind <= 3) & (self.from < n) & (self.to < n) & (next <= self.place())
    }
}

// Where a run stops, and the least place that an arrow there may have.
#[derive(Clone, Copy)]
pub struct Stop {
    pub at: usize,
    pub next: usize,
}

// A run as far as it is read: where its next arrow would stand, and the least step below n that it may point at. Its arrows share the
// head, their first two bytes.
// It is no `Iterator`, since it is asked where it stops when it has ended.
#[derive(Drop)]
struct Run<'a> {
    s: &'a [u8],
    n: u8,
    head: u16,
    at: usize,
    least: u8,
}

impl<'a> Run<'a> {
    // The step that the next arrow of the run points at, if there is one.
    fn next_step(&mut self) -> Option<u8>
        requires { (length self.old.s.now % 3 ≡ 0) × (self.old.at % 3 ≡ 0) }
        ensures { Advances self.old result self.new }
    {
        if self.s.len() <= self.at {
            return None;
        }
        let b = self.s[self.at + 2];
        let goes_on = (numbers::two(self.s, self.at) == self.head)
            & (self.least <= b)
            & (b < self.n);
        if !goes_on {
            return None;
        }
        self.at += 3;
        self.least = b + 1;
        Some(b)
    }
}

// Puts the steps into one row of the table.
fn point(table: &mut [u64; 256], row: u8, steps: u64)
    ensures { table.new ≡ pointed table.old row steps }
{
    table[row as usize] |= steps;
}

// Puts the run that begins at `at`. A condition stands with the step that waits, any other arrow with the one it comes from.
pub fn take(s: &[u8], at: usize, n: u8, table: &mut [u64; 256]) -> Stop
    requires { Begins n s.now at }
    ensures { Taken n s.now at table.old result.at result.next table.new }
{
    let first = Arrow::read(s, at);
    let mut run = Run {
        s,
        n,
        head: numbers::two(s, at),
        at: at + 3,
        least: first.to + 1,
    };
    if first.kind == 0 {
        let one = sets::single(first.from);
        point(table, first.to, one);
        while let Some(b) = run.next_step() {
            point(table, b, one);
        }
    } else {
        let mut steps = sets::single(first.to);
        while let Some(b) = run.next_step() {
            steps |= sets::single(b);
        }
        point(table, first.kind * 64 + first.from, steps);
    }
    Stop {
        at: run.at,
        next: Arrow { to: 0, ..first }.place() + (run.least as usize),
    }
}
