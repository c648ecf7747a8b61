// What the system knows of a file.
ghost use Rattle.std.specs.Prelude.{◌≡◌, IfOk};

use crate::arguments::{PATH_MAX, argument};
use crate::reasons::EILSEQ;
use std::fs::Metadata;
use std::io::Error;
use std::{fs, io};

// The name as a path: a path is text here, and a name that is none leads nowhere.
pub fn path_of(name: &[u8]) -> io::Result<&str>
    ensures { IfOk result (λ path. path.now ≡ name.now) }
{
    str::from_utf8(name).map_err(|_| Error::from_raw_os_error(EILSEQ))
}

pub fn known_of(rt: &HostRuntime, name: &[u8]) -> io::Result<Metadata> {
    fs::metadata(rt, path_of(name)?)
}

// What an argument names; `-` is standard input, and names nothing.
pub fn known_argument(rt: &HostRuntime, i: usize) -> io::Result<Metadata> {
    let mut room = [0u8; PATH_MAX];
    match argument(rt, i, &mut room) {
        b"-" => known_of(rt, b""),
        name => known_of(rt, name),
    }
}
