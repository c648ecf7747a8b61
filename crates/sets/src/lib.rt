// Sets of steps, held in a `u64`: step s is bit s. They stay words, and no type of their own: C's structs and tables hold them so.
#![tactic(auto)]

ghost use Rattle.std.specs.Prelude.{◌≡◌, ℕ, ◌<◌, ◌≤◌};
ghost use Rattle.sets.specs.Walk.{left};
ghost use Rattle.sets.specs.Sets.{has, single, union, meet, minus, subset, within, full, span, lowest, members};

// Is step s in x?
#[tactic(auto, unfolding(crate::specs::Sets::has))]
pub fn has(x: u64, s: u8) -> bool
    requires { s < 64 }
    ensures { result ≡ has x s }
{
    (x >> s) % 2 == 1
}

pub fn single(s: u8) -> u64
    requires { s < 64 }
    ensures { result ≡ single s }
{
    1 << s
}

pub fn union(a: u64, b: u64) -> u64
    ensures { result ≡ union a b }
{
    a | b
}

pub fn meet(a: u64, b: u64) -> u64
    ensures { result ≡ meet a b }
{
    a & b
}

pub fn minus(a: u64, b: u64) -> u64
    ensures { result ≡ minus a b }
{
    a ^ (a & b)
}

pub fn subset(a: u64, b: u64) -> bool
    ensures { result ≡ subset a b }
{
    a ^ (a & b) == 0
}

// The steps below n.
pub fn full(n: u64) -> u64
    requires { n ≤ 64 }
    ensures { result ≡ full n }
{
    if n == 0 {
        return 0;
    }
    let top = single((n - 1) as u8);
    top + (top - 1)
}

// The steps from a up to c, without c.
pub fn span(a: u64, c: u64) -> u64
    requires { (a ≤ 64) × (c ≤ 64) }
    ensures { result ≡ span a c }
{
    minus(full(c), full(a))
}

// Are all steps of x below n?
pub fn within(n: u64, x: u64) -> bool
    requires { n ≤ 64 }
    ensures { result ≡ within n x }
{
    x <= full(n)
}

// The lowest step of x; 64, and no `None`, where x is empty: the definition `lowest` is a number there too.
pub fn lowest(x: u64) -> u8
    ensures { result ≡ lowest 64 x }
{
    (u64::trailing_zeros(x) % 256) as u8
}

// The steps of a set, the lowest first.
pub fn members(x: u64) -> Walk
    ensures { left result ≡ members x }
{
    Walk { rest: x }
}

// The steps that a walk has not come to.
#[derive(Clone, Copy)]
pub struct Walk {
    rest: u64,
}

impl Iterator for Walk {
    ghost use Rattle.std.specs.Iterator.{YieldsFirst, item_count};
    ghost use Rattle.sets.specs.Walk.{left};

    type Item = u8;

    ghost next_gives = { YieldsFirst left };

    ghost remaining = { item_count left };

    fn next(&mut self) -> Option<u8> {
        if self.rest == 0 {
            return None;
        }
        let s = lowest(self.rest);
        self.rest &= self.rest - 1;
        Some(s)
    }
}
