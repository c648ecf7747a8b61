// Sets and flags as they are printed, inside a line or alone.
use std::fmt;
use std::fmt::Display;

// The numbers of a set, ascending, or `none`.
#[derive(Clone, Copy)]
pub struct Set(pub u64);

impl Display for Set {
    fn fmt<W: fmt::Write>(&self, f: &mut fmt::Formatter<W>) -> fmt::Result {
        let mut steps = sets::members(self.0);
        let Some(first) = steps.next() else {
            return write!(f, "none");
        };
        write!(f, "{first}")?;
        for s in steps {
            write!(f, " {s}")?;
        }
        Ok(())
    }
}

// A flag, which is up or down.
#[derive(Clone, Copy)]
pub struct Flag(pub bool);

impl Display for Flag {
    fn fmt<W: fmt::Write>(&self, f: &mut fmt::Formatter<W>) -> fmt::Result {
        let Flag(up) = *self;
        if up {
            write!(f, "up")
        } else {
            write!(f, "down")
        }
    }
}
