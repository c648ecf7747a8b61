// What a sheet says of itself: nothing is asked of it first, and what lies past its end reads as 0.
ghost use Rattle.std.specs.Prelude.{◌<◌, ◌≤◌};

use finding::parts::{byte, eight, two};
use moves::Marking;
use std::fmt;
use std::fmt::Display;

// The bodies, in the order of the contents.
#[derive(Clone, Copy, Debug, PartialEq, Eq)]
pub enum Body {
    Counts,
    Marking,
    Allows,
    Holds,
    Arrows,
    Actions,
}

impl Body {
    // Its number in the contents.
    fn number(self) -> usize
        ensures { (1 ≤ result) × (result ≤ 6) }
    {
        match self {
            Body::Counts => 1,
            Body::Marking => 2,
            Body::Allows => 3,
            Body::Holds => 4,
            Body::Arrows => 5,
            Body::Actions => 6,
        }
    }
}

impl Display for Body {
    fn fmt<W: fmt::Write>(&self, f: &mut fmt::Formatter<W>) -> fmt::Result {
        write!(f, "body {}", self.number())
    }
}

// A sheet that is refused.
#[derive(Clone, Copy)]
pub struct Sheet<'a>(pub &'a [u8]);

impl<'a> Sheet<'a> {
    // Has the sheet no body with the actions of the steps? Then body 3 has the roles of steps, and there are as many actions as steps.
    pub fn is_five(self) -> bool {
        byte(self.0, 0) == 5
    }

    // Where a body begins and how long it is, by the contents.
    pub fn begins(self, body: Body) -> usize
        ensures { result < 65536 }
    {
        two(self.0, 5 * body.number() - 3)
    }

    pub fn size(self, body: Body) -> usize
        ensures { result < 65536 }
    {
        two(self.0, 5 * body.number() - 1)
    }

    // The bytes of a body; none where they are not all there.
    pub fn bytes(self, body: Body) -> &'a [u8] {
        let from = self.begins(body);
        match self.0.get(from..from + self.size(body)) {
            Some(bytes) => bytes,
            None => &[],
        }
    }

    // Byte i of the counts.
    fn count(self, i: usize) -> usize
        requires { i < 4 }
        ensures { result < 256 }
    {
        byte(self.0, self.begins(Body::Counts) + i)
    }

    pub fn steps(self) -> usize
        ensures { result < 256 }
    {
        self.count(0)
    }

    pub fn people(self) -> usize
        ensures { result < 256 }
    {
        self.count(1)
    }

    pub fn roles(self) -> usize
        ensures { result < 256 }
    {
        self.count(2)
    }

    pub fn actions(self) -> usize
        ensures { result < 256 }
    {
        if self.is_five() {
            self.steps()
        } else {
            self.count(3)
        }
    }

    pub fn first_marking(self) -> Marking {
        let at = self.begins(Body::Marking);
        Marking {
            done: eight(self.0, at),
            due: eight(self.0, at + 8),
            included: eight(self.0, at + 16),
        }
    }
}
