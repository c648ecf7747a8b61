// Number 1: the first thing that keeps bytes from being laid out as a sheet, in the order in which a reader asks.
ghost use Rattle.std.specs.Prelude.{◌≡◌, ◌+◌, ◌*◌, ◌≤◌, ◌&&◌, length, eqb, is_ok};
ghost use Rattle.layout.specs.Layout.{start, kind_at, offset_at, follows};
ghost use Rattle.reading.specs.Reading.{layout_fits};
ghost use Rattle.flaws.specs.Laid.{sizes_fit};

use finding::parts::byte;
use finding::words::{Bytes, say_finding};
use output::page::Page;
use reading::form_of;

// Bodies are counted from 1, as in the contents.
#[derive(Clone, Copy, Debug, PartialEq, Eq)]
pub enum Fault {
    // too few bytes or too many
    Length(usize),
    // byte 0
    First(usize),
    // a line of the contents, and the body that it names
    Named {
        line: usize,
        named: usize,
    },
    // a body, where it begins, and where it should
    Begins {
        body: usize,
        begins: usize,
        at: usize,
    },
    // the last body, where it ends, and the length of the sheet
    Ends {
        body: usize,
        end: usize,
        length: usize,
    },
    // a body, its size, and what it should be
    Size {
        body: usize,
        size: usize,
        wants: usize,
    },
    // the size of the body of the arrows
    Arrows(usize),
}

// The sizes that do not hang on the counts, which have `wants` bytes.
fn sizes_fault(s: &[u8], wants: usize) -> Result<(), Fault>
    requires { 26 ≤ length s.now }
    ensures { is_ok result ≡ sizes_fit wants s.now }
{
    let counts = layout::size(s, 0);
    let marking = layout::size(s, 1);
    let arrows = layout::size(s, 4);
    if counts != wants {
        return Err(Fault::Size {
            body: 1,
            size: counts,
            wants,
        });
    }
    if marking != 24 {
        return Err(Fault::Size {
            body: 2,
            size: marking,
            wants: 24,
        });
    }
    if arrows % 3 != 0 {
        return Err(Fault::Arrows(arrows));
    }
    Ok(())
}

// Line i of the contents, counted from 0, for a body that should begin at `at`.
fn line_fault(s: &[u8], i: usize, at: usize) -> Result<(), Fault>
    requires { 6 + 5 * i ≤ length s.now }
    ensures { is_ok result ≡ (eqb (kind_at s.now i) (i + 1) && eqb (offset_at s.now i) at) }
{
    let line = i + 1;
    let named = s[1 + 5 * i] as usize;
    let begins = layout::offset(s, i);
    if named != line {
        return Err(Fault::Named { line, named });
    }
    if begins != at {
        return Err(Fault::Begins {
            body: line,
            begins,
            at,
        });
    }
    Ok(())
}

// The contents of `count` bodies, line by line, and then the sizes.
fn contents_fault(s: &[u8], count: usize, wants: usize) -> Result<(), Fault>
    requires { (5 ≤ count) × (count ≤ 6) × (start count ≤ length s.now) }
    ensures { is_ok result ≡ (follows count 0 (start count) s.now && sizes_fit wants s.now) }
{
    let mut at = 1 + 5 * count;
    for i in 0..count {
        line_fault(s, i, at)?;
        at += layout::size(s, i);
    }
    if at != s.len() {
        return Err(Fault::Ends {
            body: count,
            end: at,
            length: s.len(),
        });
    }
    sizes_fault(s, wants)
}

// Whether the length is right, and what comes behind byte 0, hangs on how many bodies byte 0 says.
pub fn first_fault(s: &[u8]) -> Result<(), Fault>
    ensures { is_ok result ≡ layout_fits s.now }
{
    if s.is_empty() {
        return Err(Fault::Length(0));
    }
    let f = form_of(s);
    let first = s[0] as usize;
    if first != f.bodies {
        return Err(Fault::First(first));
    }
    if s.len() < f.least {
        return Err(Fault::Length(s.len()));
    }
    if f.most < s.len() {
        return Err(Fault::Length(s.len()));
    }
    contents_fault(s, f.bodies, f.counts)
}

// The shortest sheet and the longest, by byte 0; that of six bodies is the form that is written.
fn lengths(s: &[u8]) -> &'static str {
    if byte(s, 0) == 5 {
        "57 to 37077"
    } else {
        "64 to 37147"
    }
}

fn say_fault(page: &mut Page, s: &[u8], f: Fault) {
    match f {
        Fault::Length(length) => say_finding(page, Bytes(length), lengths(s)),
        Fault::First(first) => say_finding(
            page,
            format_args!("byte 0 is {first}"),
            "6 or 5, the number of bodies",
        ),
        Fault::Named { line, named } => say_finding(
            page,
            format_args!("line {line} of the contents names body {named}"),
            format_args!("body {line}"),
        ),
        Fault::Begins { body, begins, at } => say_finding(
            page,
            format_args!("body {body} begins at {begins}"),
            format_args!("at {at}"),
        ),
        Fault::Ends { body, end, length } => say_finding(
            page,
            format_args!("body {body} ends at {end}, the sheet at {length}"),
            "one end for both",
        ),
        Fault::Size { body, size, wants } => say_finding(
            page,
            format_args!("body {body} has {size} bytes"),
            wants,
        ),
        Fault::Arrows(size) => say_finding(
            page,
            format_args!("body 5 has {size} bytes"),
            "a multiple of 3",
        ),
    }
}

pub fn say_found(page: &mut Page, s: &[u8]) {
    if let Err(f) = first_fault(s) {
        say_fault(page, s, f);
    }
}
