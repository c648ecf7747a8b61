// The one line on standard error. It is put together first and written at once: the lines of two programs do not mix.
use crate::joining::Line;
use crate::reasons::reason_of;
use std::io::{Error, Print};

// It was complained of already: whoever is told so says nothing more, and ends.
#[derive(Clone, Copy, Debug, PartialEq, Eq)]
pub struct Complained;

fn complain_line(rt: &HostRuntime, line: &[u8]) -> Complained {
    let _ = rt.stderr().write_all(line);
    Complained
}

// The text is a whole line.
pub fn complain(rt: &HostRuntime, text: &str) -> Complained {
    complain_line(rt, text.as_bytes())
}

// What is wrong with the thing of that name.
pub fn complain_of(rt: &HostRuntime, name: &[u8], what: &str) -> Complained {
    let mut line = Line::default();
    line.join("ulz: ");
    line.join_name(name);
    line.join(": ");
    line.join(what);
    line.join("\n");
    complain_line(rt, line.as_slice())
}

// What the system says of the thing of that name.
pub fn complain_error(rt: &HostRuntime, name: &[u8], error: &Error) -> Complained {
    complain_of(rt, name, reason_of(error))
}
