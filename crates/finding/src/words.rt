// The two lines, and what they are made of.
use output::page::Page;
use std::fmt;
use std::fmt::Display;

pub fn say_finding(page: &mut Page, found: impl Display + Drop, expected: impl Display + Drop) {
    writeln!(page, "found: {found}");
    writeln!(page, "expected: {expected}");
}

// So many bytes. Input is read up to 65,536 bytes, and what is longer has at least as many.
#[derive(Clone, Copy)]
pub struct Bytes(pub usize);

impl Display for Bytes {
    fn fmt<W: fmt::Write>(&self, f: &mut fmt::Formatter<W>) -> fmt::Result {
        let Bytes(length) = *self;
        let more = if 65535 < length { " or more" } else { "" };
        write!(f, "{length} bytes{more}")
    }
}

// All that there are of a count, as `steps 0 to 2`.
#[derive(Clone, Copy)]
pub struct All(pub &'static str, pub u64);

impl Display for All {
    fn fmt<W: fmt::Write>(&self, f: &mut fmt::Formatter<W>) -> fmt::Result {
        let All(what, count) = *self;
        let last = count.saturating_sub(1);
        write!(f, "{what} 0 to {last}")
    }
}
