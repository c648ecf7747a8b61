// What the program was called with.
ghost use Rattle.std.specs.Prelude.{◌≡◌, ◌+◌, ◌-◌, ◌≤◌, drop, length, slice_get};
ghost use Rattle.files.specs.Operands.{operands_of};

use std::env::{Env, FillError};

// The most bytes of a path, with the 0 that ends it.
pub const PATH_MAX: usize = 4096;

// As many operands are kept: no command takes so many, so that they stand for any more too.
const OPERANDS_MAX: usize = 7;

// The places of the operands. No `ArrayVec`, which is not copied.
#[derive(Clone, Copy, Default)]
struct Operands {
    at: [usize; OPERANDS_MAX],
    count: usize,
}

// An argument is named by its place. The operands, the command before its own; which options were given; the value of --from; does `-`
// stand among what names a file, once or more often; did `--` end the options? Then what is wrong: the first option that is none, an
// option whose value is missing, and the first argument that is too long.
#[derive(Clone, Copy, Default)]
pub struct Call {
    operands: Operands,
    pub force: bool,
    pub never: bool,
    pub status: bool,
    pub help: bool,
    pub version: bool,
    pub from: Option<usize>,
    dash: bool,
    pub dashes: bool,
    ended: bool,
    pub unknown: Option<usize>,
    pub lacking: Option<usize>,
    pub long: Option<usize>,
}

// What a word asks that begins with `-`. End is `--`: no word behind it is an option.
#[derive(Clone, Copy)]
enum Flag {
    Force,
    Never,
    Status,
    Help,
    Version,
    From,
    End,
}

// The argument, which is put at the start of the room; the empty text where it is missing or does not fit.
pub fn argument<'a>(rt: &HostRuntime, i: usize, room: &'a mut [u8]) -> &'a [u8]
    ensures { length result.now ≤ length room.old }
{
    let length = rt.arg(i, room).unwrap_or(0);
    &room[..length]
}

fn is_option(word: &[u8]) -> bool {
    matches!(word, [b'-', _, ..])
}

fn flag_of(word: &[u8]) -> Option<Flag> {
    match word {
        b"--force" => Some(Flag::Force),
        b"--never" => Some(Flag::Never),
        b"--status" => Some(Flag::Status),
        b"--from" => Some(Flag::From),
        b"-h" | b"--help" => Some(Flag::Help),
        b"--version" => Some(Flag::Version),
        b"--" => Some(Flag::End),
        _ => None,
    }
}

impl Operands {
    fn as_slice(&self) -> &[usize]
        ensures { result.now ≡ operands_of self.now }
    {
        let kept = self.count.min(OPERANDS_MAX);
        &self.at[..kept]
    }

    // One more; what is beyond the room is dropped.
    fn push(&mut self, i: usize) {
        if self.count < OPERANDS_MAX {
            self.at[self.count] = i;
            self.count += 1;
        }
    }
}

impl Call {
    // The command, which is the first operand.
    pub fn command(&self) -> Option<usize>
        ensures { result ≡ slice_get (operands_of self.now.operands) 0 }
    {
        self.operands.as_slice().first().copied()
    }

    // The operands behind the command.
    fn behind(&self) -> &[usize]
        ensures { result.now ≡ drop 1 (operands_of self.now.operands) }
    {
        match self.operands.as_slice() {
            [_, behind @ ..] => behind,
            [] => &[],
        }
    }

    // Operand k behind the command.
    pub fn operand(&self, k: usize) -> Option<usize>
        ensures { result ≡ slice_get (operands_of self.now.operands) (k + 1) }
    {
        self.behind().get(k).copied()
    }

    // How many operands stand behind the command.
    pub fn operands(&self) -> usize
        ensures { result ≡ length (operands_of self.now.operands) - 1 }
    {
        self.behind().len()
    }

    fn note_dash(&mut self, word: &[u8]) {
        let dash = matches!(word, b"-");
        self.dashes |= self.dash & dash;
        self.dash |= dash;
    }

    fn note_unknown(&mut self, i: usize) {
        self.unknown = self.unknown.or(Some(i));
    }

    // --from begins a value, which is the next word whatever it is; a call begins at one place only.
    fn begin_from(&mut self, i: usize) {
        if self.from.is_some() {
            self.note_unknown(i);
        } else {
            self.lacking = Some(i);
        }
    }

    fn set(&mut self, i: usize, flag: Flag) {
        match flag {
            Flag::Force => self.force = true,
            Flag::Never => self.never = true,
            Flag::Status => self.status = true,
            Flag::Help => self.help = true,
            Flag::Version => self.version = true,
            Flag::From => self.begin_from(i),
            Flag::End => self.ended = true,
        }
    }

    // Takes argument i, which is the word.
    fn take(&mut self, i: usize, word: &[u8]) {
        if self.lacking.is_some() {
            self.note_dash(word);
            self.from = Some(i);
            self.lacking = None;
            return;
        }
        if !self.ended && is_option(word) {
            match flag_of(word) {
                Some(flag) => self.set(i, flag),
                None => self.note_unknown(i),
            }
            return;
        }
        self.note_dash(word);
        self.operands.push(i);
    }
}

// Word by word by its place: std's `env::args` puts each word on the heap.
pub fn called(rt: &HostRuntime) -> Call {
    let mut call = Call::default();
    for i in 1..usize::MAX {
        let mut word = [0u8; PATH_MAX];
        match rt.arg(i, &mut word) {
            Err(FillError::NotPresent) => break,
            Ok(length) if length < PATH_MAX => call.take(i, &word[..length]),
            _ => call.long = call.long.or(Some(i)),
        }
    }
    call
}

// The number that the word is, if it is one. What does not fit is the largest that does.
pub fn number_of(word: &[u8]) -> Option<u64> {
    if word.is_empty() || !word.iter().all(|b| b.is_ascii_digit()) {
        return None;
    }
    Some(word.iter().fold(0, |number, b| with_digit(number, *b)))
}

// One digit more.
fn with_digit(number: u64, b: u8) -> u64 {
    number
        .saturating_mul(10)
        .saturating_add(u64::from(b.saturating_sub(b'0')))
}
