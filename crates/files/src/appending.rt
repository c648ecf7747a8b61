// Bytes put behind a file: all of them are there and on the device, or the file is as it was.
use crate::arguments::{PATH_MAX, argument};
use crate::complaints::{Complained, complain_error, complain_of};
use crate::known::{known_of, path_of};
use crate::writing::{claimed, sync_name, unclaim};
use std::fs::{File, OpenOptions};
use std::io;
use std::io::{Error, ErrorKind, Seek, SeekFrom, Write};

// What stands under a name that bytes are to be put behind.
#[derive(Clone, Copy, Debug, PartialEq, Eq)]
pub enum Place {
    File,
    Free,
}

// The file's name is an argument; how long it was when it was read, if there was one.
#[derive(Clone, Copy)]
pub struct End {
    pub at: usize,
    pub length: Option<u32>,
}

// Why the bytes do not stand behind the file: an error of the system's, fewer bytes were written than there are, or the file has another
// length than it had.
#[derive(Clone, Copy)]
enum Unchanged {
    System(Error),
    Short,
    Changed,
}

impl From<Error> for Unchanged {
    fn from(error: Error) -> Unchanged {
        Unchanged::System(error)
    }
}

// Of the name that is argument i.
pub fn looked_up(rt: &HostRuntime, i: usize) -> Result<Place, Complained> {
    let mut room = [0u8; PATH_MAX];
    let name = argument(rt, i, &mut room);
    match known_of(rt, name) {
        Ok(known) if known.is_file() => Ok(Place::File),
        Ok(_) => Err(complain_of(rt, name, "is there and is no ordinary file")),
        Err(e) if e.kind() == ErrorKind::NotFound => Ok(Place::Free),
        Err(e) => Err(complain_error(rt, name, &e)),
    }
}

// One write: whoever reads the file finds all of the bytes, or none, wherever this process ends.
fn put(file: &mut File, bytes: &[u8]) -> Result<(), Unchanged> {
    if file.write(bytes)? < bytes.len() {
        return Err(Unchanged::Short);
    }
    file.sync_all()?;
    Ok(())
}

// What was written is taken back where not all of it is there, or where it may not be on the device.
fn put_behind(file: &mut File, length: u64, bytes: &[u8]) -> Result<(), Unchanged> {
    if !matches!(file.seek(SeekFrom::End(0)), Ok(end) if end == length) {
        return Err(Unchanged::Changed);
    }
    let done = put(file, bytes);
    if done.is_err() {
        let _ = file.set_len(length);
    }
    done
}

fn open_append(rt: &HostRuntime, name: &[u8]) -> io::Result<File> {
    OpenOptions::new().append(true).open(rt, path_of(name)?)
}

fn add(rt: &HostRuntime, name: &[u8], length: u64, bytes: &[u8]) -> Result<(), Unchanged> {
    put_behind(&mut open_append(rt, name)?, length, bytes)
}

// Among those who make a file of that name, one makes it.
fn make(rt: &HostRuntime, name: &[u8], bytes: &[u8]) -> Result<(), Unchanged> {
    claimed(rt, name, false)?;
    let done = add(rt, name, 0, bytes);
    if done.is_err() {
        unclaim(rt, name);
    } else {
        sync_name(rt, name);
    }
    done
}

fn complain_unchanged(rt: &HostRuntime, name: &[u8], why: Unchanged) -> Complained {
    match why {
        Unchanged::System(e) => complain_error(rt, name, &e),
        Unchanged::Short => complain_of(rt, name, "not all of the bytes could be written"),
        Unchanged::Changed => complain_of(rt, name, "has changed since it was read"),
    }
}

// Puts the bytes behind the file.
pub fn append(rt: &HostRuntime, end: End, bytes: &[u8]) -> Result<(), Complained> {
    let mut room = [0u8; PATH_MAX];
    let name = argument(rt, end.at, &mut room);
    let done = match end.length {
        Some(length) => add(rt, name, u64::from(length), bytes),
        None => make(rt, name, bytes),
    };
    done.map_err(|why| complain_unchanged(rt, name, why))
}
