// A line put together from texts, so that it is written at once.
use arrayvec::ArrayVec;
use std::io::Write;

// Room for a path and a sentence.
const ROOM: usize = 4608;

// What does not fit any more is left away.
#[derive(Default, Drop)]
pub struct Line {
    text: ArrayVec<u8, ROOM>,
}

// A name may hold an end of line, and a complaint has one line. Byte 127 stands as it is, so that this is not what `lines::names` shows.
fn shown(b: u8) -> u8 {
    if b < 32 { b'?' } else { b }
}

impl Line {
    pub fn join(&mut self, text: &str) {
        let _ = self.text.write(text.as_bytes());
    }

    // A name is bytes, as somebody typed it.
    pub fn join_name(&mut self, name: &[u8]) {
        for b in name {
            let _ = self.text.try_push(shown(*b));
        }
    }

    pub fn as_slice(&self) -> &[u8] {
        self.text.as_slice()
    }
}
