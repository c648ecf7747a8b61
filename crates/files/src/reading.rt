// Files read whole.
ghost use Rattle.std.specs.Prelude.{IfOk, length};
ghost use Rattle.files.specs.Counts.{IsPrefixLen};
ghost use Rattle.std.specs.Io.{ReadsAtMost};

use crate::arguments::{PATH_MAX, argument};
use crate::complaints::{Complained, complain_error};
use crate::known::path_of;
use crate::reasons::EINTR;
use std::fs::File;
use std::io;
use std::io::{Error, ErrorKind, Read};

// How often a read that a signal broke off is begun again.
const AGAIN: usize = 100;

// One read, begun again where a signal came before the first byte.
fn read_some(from: &mut impl Read, part: &mut [u8]) -> io::Result<usize>
    ensures { ReadsAtMost result part.new }
{
    for _ in 0..AGAIN {
        match from.read(part) {
            Err(e) if e.kind() == ErrorKind::Interrupted => {}
            read => return read,
        }
    }
    Err(Error::from_raw_os_error(EINTR))
}

// Reads until the room is full or the input ends. A loop by hand: std's read_to_end needs the heap, and read_exact does not tell how much
// came before the end.
fn read_all(from: &mut impl Read, room: &mut [u8]) -> io::Result<usize>
    ensures { ReadsAtMost result room.new }
{
    let mut done = 0;
    while done < room.len() {
        let more = read_some(from, &mut room[done..])?;
        if more == 0 {
            break;
        }
        done += more;
    }
    Ok(done)
}

fn read_file(rt: &HostRuntime, name: &[u8], room: &mut [u8]) -> io::Result<usize>
    ensures { ReadsAtMost result room.new }
{
    read_all(&mut File::open(rt, path_of(name)?)?, room)
}

// What was read stands at the start of the room.
fn read_named<'a>(rt: &HostRuntime, name: &[u8], room: &'a mut [u8]) -> Result<&'a [u8], Complained>
    ensures { IfOk result (λ bytes. IsPrefixLen (length bytes.now) room.old) }
{
    let read = match name {
        b"-" => read_all(&mut rt.stdin(), room),
        path => read_file(rt, path, room),
    };
    match read {
        Ok(length) => Ok(&room[..length]),
        Err(e) => Err(complain_error(rt, name, &e)),
    }
}

// The file that the argument names, or standard input; nothing is read where there is no argument.
pub fn fetch<'a>(
    rt: &HostRuntime,
    at: Option<usize>,
    room: &'a mut [u8],
) -> Result<&'a [u8], Complained>
    ensures { IfOk result (λ bytes. IsPrefixLen (length bytes.now) room.old) }
{
    let Some(at) = at else {
        return Ok(&room[..0]);
    };
    let mut name = [0u8; PATH_MAX];
    read_named(rt, argument(rt, at, &mut name), room)
}
