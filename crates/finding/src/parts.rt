// Bytes and sets of any input: what lies past its end reads as 0, so that nothing is asked of the input first.
ghost use Rattle.std.specs.Prelude.{◌≡◌, ◌<◌, ◌≤◌};
ghost use Rattle.sets.specs.Sets.{minus};
ghost use Rattle.finding.specs.Found.{held_in, members_beyond};

use lines::display::Set;
use std::fmt;
use std::fmt::Display;

// One of several sets, and steps of it.
#[derive(Clone, Copy)]
pub struct Held<S> {
    pub set: S,
    pub steps: u64,
}

impl<S: Display> Display for Held<S> {
    fn fmt<W: fmt::Write>(&self, f: &mut fmt::Formatter<W>) -> fmt::Result {
        let set = &self.set;
        let steps = Set(self.steps);
        write!(f, "steps {steps} in {set}")
    }
}

// Steps of a set, if there are any.
pub fn held_in<S: Drop>(set: S, steps: u64) -> Option<Held<S>>
    ensures { result ≡ held_in set steps }
{
    if steps == 0 {
        return None;
    }
    Some(Held { set, steps })
}

pub fn byte(s: &[u8], i: usize) -> usize
    ensures { result < 256 }
{
    match s.get(i) {
        Some(b) => *b as usize,
        None => 0,
    }
}

// The N bytes from i on, if they are there.
fn bytes_at<const N: usize>(s: &[u8], i: usize) -> Option<&[u8; N]> {
    s.get(i..)?.first_chunk()
}

// As in numbers, a function for each width.
pub fn two(s: &[u8], i: usize) -> usize
    ensures { result < 65536 }
{
    match bytes_at(s, i) {
        Some(bytes) => u16::from_le_bytes(*bytes) as usize,
        None => 0,
    }
}

pub fn eight(s: &[u8], i: usize) -> u64 {
    match bytes_at(s, i) {
        Some(bytes) => u64::from_le_bytes(*bytes),
        None => 0,
    }
}

// The members of x that are not below n.
pub fn beyond(n: u64, x: u64) -> u64
    requires { n ≤ 64 }
    ensures { result ≡ members_beyond n x }
{
    sets::minus(x, sets::full(n))
}
