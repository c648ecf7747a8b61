// The page: what is printed and not yet written out. It is lent to whatever prints, so that a command makes few writes, and it
// keeps whether one of them failed, so that nobody can overlook it. Whoever has it may also reach what the program was started with.
ghost use Rattle.std.specs.Prelude.{◌≡◌, [], true};
ghost use Rattle.output.specs.Status.{is_whole};
ghost use Rattle.output.specs.Text.{with_byte, Goes};

use arrayvec::ArrayVec;
use std::fmt;
use std::fmt::{Display, Write};
use std::io::Print;

pub const ROOM: usize = 8192;

// The text, and whether the output is torn.
#[derive(Drop)]
pub struct Page {
    text: ArrayVec<u8, ROOM>,
    torn: bool,
    rt: HostRuntime,
}

impl Page {
    pub fn blank(rt: HostRuntime) -> Page
        ensures { is_whole result ≡ true }
    {
        Page {
            text: ArrayVec::new(),
            torn: false,
            rt,
        }
    }

    // The system that the page is written to.
    pub fn rt(&self) -> HostRuntime {
        self.rt
    }

    // Behind a torn place nothing more is written.
    fn write_out(&mut self)
        ensures text { self.new.text.items ≡ [] }
        ensures torn { self.old.torn ≡ true → self.new.torn ≡ true }
    {
        if !self.torn {
            self.torn = self.rt.stdout().write_all(&self.text).is_err();
        }
        self.text.clear();
    }

    pub fn put(&mut self, b: u8)
        ensures text { self.new.text.items ≡ with_byte self.old.text.items b }
        ensures torn { self.old.torn ≡ true → self.new.torn ≡ true }
    {
        if self.text.try_push(b).is_err() {
            self.write_out();
            self.text.push(b);
        }
    }

    // What `write!(page, ..)` calls. It answers nothing, since the page keeps whether it is torn, and promises nothing, since what a
    // Display writes is its own.
    pub fn write_fmt<T: Display + Drop>(&mut self, text: T) {
        let _ = self.write(text);
    }

    // Writes out what is left. Was everything written, now and before?
    pub fn flush(&mut self) -> bool
        ensures whole { result ≡ is_whole self.new }
        ensures torn { self.old.torn ≡ true → self.new.torn ≡ true }
    {
        self.write_out();
        !self.torn
    }

    // A page that was begun for a complaint: its text goes to standard error.
    pub fn complain(&mut self) {
        let _ = self.rt.stderr().write_all(&self.text);
    }
}

impl Write for Page {
    ghost write_str_gives = { Goes };

    fn write_str(&mut self, text: &str) -> fmt::Result {
        for b in text.as_bytes() {
            self.put(*b);
        }
        Ok(())
    }
}
