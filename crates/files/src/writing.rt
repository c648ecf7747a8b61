// Files written: a file is whole under its name, or what was there before stays.
use crate::arguments::{PATH_MAX, argument};
use crate::complaints::{Complained, complain_error, complain_of};
use crate::known::{known_argument, known_of, path_of};
use crate::reasons::{EEXIST, ENAMETOOLONG};
use arrayvec::ArrayVec;
use std::fs::{File, OpenOptions, Permissions};
use std::io::{Error, ErrorKind, Write};
use std::os::unix::fs::{MetadataExt, OpenOptionsExt, PermissionsExt};
use std::random::RandomSource;
use std::{fs, io};

// The argument that names the file to write, if one does; may a file that exists be written over?
#[derive(Clone, Copy)]
pub struct Target {
    pub at: Option<usize>,
    pub force: bool,
}

// Whose file has the name: it was free and ours took it, or another's was there before.
#[derive(Clone, Copy, Debug, PartialEq, Eq)]
pub enum Claim {
    Ours,
    Theirs,
}

// The bytes reach the device before the name does.
fn fill(file: &mut File, bytes: &[u8]) -> io::Result<()> {
    file.write_all(bytes)?;
    file.sync_all()
}

// The file of that name, which is made for it.
fn create(rt: &HostRuntime, name: &[u8]) -> io::Result<File> {
    OpenOptions::new()
        .write(true)
        .create_new(true)
        .open(rt, path_of(name)?)
}

// Among those who make a file of that name, one makes it. Name and force go on by themselves, as the tour has them too. By force a file
// that is there may stay until it is replaced.
pub fn claimed(rt: &HostRuntime, name: &[u8], force: bool) -> io::Result<Claim> {
    match create(rt, name) {
        Ok(_) => Ok(Claim::Ours),
        Err(e) if force && e.kind() == ErrorKind::AlreadyExists => Ok(Claim::Theirs),
        Err(e) => Err(e),
    }
}

// Who may read the file is as it was, or as the claim was made. Where the system has no modes, nobody is kept out.
fn take_mode(rt: &HostRuntime, file: &File, name: &[u8]) {
    if let Ok(known) = known_of(rt, name) {
        let _ = file.set_permissions(Permissions::from_mode(known.mode() % 512));
    }
}

// The file is closed before it gets the name.
fn place(rt: &HostRuntime, file: File, temporary: &[u8], name: &[u8]) -> io::Result<()> {
    take_mode(rt, &file, name);
    drop(file);
    fs::rename(rt, path_of(temporary)?, path_of(name)?)
}

fn unlink(rt: &HostRuntime, name: &[u8]) {
    if let Ok(path) = path_of(name) {
        let _ = fs::remove_file(rt, path);
    }
}

// Another may have put a file there by force.
pub fn unclaim(rt: &HostRuntime, name: &[u8]) {
    if !matches!(known_of(rt, name), Ok(known) if 0 < known.len()) {
        unlink(rt, name);
    }
}

// Writes the temporary file and gives it the name. The file is closed on every way out.
fn finish(
    rt: &HostRuntime,
    mut file: File,
    temporary: &[u8],
    name: &[u8],
    force: bool,
    bytes: &[u8],
) -> io::Result<()> {
    fill(&mut file, bytes)?;
    let claim = claimed(rt, name, force)?;
    let placed = place(rt, file, temporary, name);
    if placed.is_err() && claim == Claim::Ours {
        unclaim(rt, name);
    }
    placed
}

// The name's front that names a folder, with the stroke at its end; where it has none, the folder that the program was called in.
pub fn folder_of(name: &[u8]) -> &[u8] {
    match name.iter().rposition(|b| *b == b'/') {
        Some(stroke) => &name[..=stroke],
        None => b".",
    }
}

fn sync_folder(rt: &HostRuntime, folder: &[u8]) -> io::Result<()> {
    File::open(rt, path_of(folder)?)?.sync_all()
}

// The new name reaches the device too, where the folder may be opened; the file is there in any case.
pub fn sync_name(rt: &HostRuntime, name: &[u8]) {
    let _ = sync_folder(rt, folder_of(name));
}

// How many names are tried for a temporary file.
const TRIES: u16 = 1000;

const LETTERS: [u8; 62] = *b"abcdefghijklmnopqrstuvwxyzABCDEFGHIJKLMNOPQRSTUVWXYZ0123456789";

// Six bytes that nobody foresees; where the system has none, others on each turn.
fn drawn(rt: &HostRuntime, turn: u16) -> [u8; 6] {
    let mut bytes = [0u8; 6];
    if rt.fill_bytes(&mut bytes).is_err() {
        bytes = [0, 0, 0, 0, (turn / 62 % 62) as u8, (turn % 62) as u8];
    }
    bytes
}

// Puts six letters in place of the last six.
fn draw(rt: &HostRuntime, name: &mut [u8], turn: u16) {
    for (b, d) in name.iter_mut().rev().zip(&drawn(rt, turn)) {
        *b = LETTERS[(*d % 62) as usize];
    }
}

// A file that is its owner's alone.
fn create_private(rt: &HostRuntime, name: &[u8]) -> io::Result<File> {
    OpenOptions::new()
        .read(true)
        .write(true)
        .create_new(true)
        .mode(0o600)
        .open(rt, path_of(name)?)
}

// A file of a name that no other has. The name ends in XXXXXX, in whose place its letters are put.
fn create_temp(rt: &HostRuntime, name: &mut [u8]) -> io::Result<File> {
    for turn in 0..TRIES {
        draw(rt, name, turn);
        match create_private(rt, name) {
            Err(e) if e.kind() == ErrorKind::AlreadyExists => {}
            made => return made,
        }
    }
    Err(Error::from_raw_os_error(EEXIST))
}

// The most bytes of a temporary file's name.
const TEMPORARY_MAX: usize = 4607;

type Temporary = ArrayVec<u8, TEMPORARY_MAX>;

fn add_text(temporary: &mut Temporary, text: &[u8]) -> io::Result<()> {
    temporary
        .try_extend_from_slice(text)
        .map_err(|_| Error::from_raw_os_error(ENAMETOOLONG))
}

// It stands in the same folder, so that it can take the name.
fn temporary_of(name: &[u8]) -> io::Result<Temporary> {
    let mut temporary = Temporary::new();
    add_text(&mut temporary, name)?;
    add_text(&mut temporary, b".XXXXXX")?;
    Ok(temporary)
}

// By way of a temporary file.
fn replace(rt: &HostRuntime, name: &[u8], force: bool, bytes: &[u8]) -> io::Result<()> {
    let mut temporary = temporary_of(name)?;
    let file = create_temp(rt, temporary.as_mut_slice())?;
    let done = finish(rt, file, temporary.as_slice(), name, force, bytes);
    if done.is_err() {
        unlink(rt, temporary.as_slice());
    } else {
        sync_name(rt, name);
    }
    done
}

fn complain_unwritten(rt: &HostRuntime, name: &[u8], force: bool, error: &Error) -> Complained {
    if error.kind() == ErrorKind::AlreadyExists && !force {
        return complain_of(rt, name, "exists already; --force writes over it");
    }
    complain_error(rt, name, error)
}

// Writes the bytes to the file. Where it was complained of, what was there before is there still.
pub fn store(rt: &HostRuntime, name: &[u8], force: bool, bytes: &[u8]) -> Result<(), Complained> {
    if let Ok(old) = known_of(rt, name) {
        if !force {
            let exists = Error::from_raw_os_error(EEXIST);
            return Err(complain_unwritten(rt, name, force, &exists));
        }
        if !old.is_file() {
            return Err(complain_of(rt, name, "is there and is no ordinary file"));
        }
    }
    replace(rt, name, force, bytes).map_err(|e| complain_unwritten(rt, name, force, &e))
}

// The same, to the file that the call names; where it names none, nothing is to be written.
pub fn store_to(rt: &HostRuntime, target: Target, bytes: &[u8]) -> Result<(), Complained> {
    let Some(at) = target.at else {
        return Ok(());
    };
    let mut room = [0u8; PATH_MAX];
    store(rt, argument(rt, at, &mut room), target.force, bytes)
}

// Do both arguments name files, and one and the same, under whatever names?
pub fn same_file(rt: &HostRuntime, a: Option<usize>, b: Option<usize>) -> bool {
    let (Some(a), Some(b)) = (a, b) else {
        return false;
    };
    match (known_argument(rt, a), known_argument(rt, b)) {
        (Ok(a), Ok(b)) => a.dev() == b.dev() && a.ino() == b.ino(),
        _ => false,
    }
}

// The first n bytes; all of them where there are no n.
pub fn front(s: &[u8], n: usize) -> &[u8] {
    s.get(..n).unwrap_or(s)
}
