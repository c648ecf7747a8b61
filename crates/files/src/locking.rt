// Files that are locked: whoever else asks for the lock waits until this one is let go.
use crate::arguments::{PATH_MAX, argument};
use crate::known::{known_of, path_of};
use crate::writing::folder_of;
use std::fs::{File, Metadata};

// A file and the folder that it lies in.
#[derive(Default, Drop)]
pub struct Locked {
    folder: Option<File>,
    file: Option<File>,
}

// Only what is of that kind: a folder that is named as a file would be locked twice, and a pipe's other end would hear of it.
fn lock<F: Fn(&Metadata) -> bool + Drop>(
    rt: &HostRuntime,
    name: &[u8],
    is_of_kind: F,
) -> Option<File>
    requires { F.IsAlwaysCallable is_of_kind }
{
    let known = known_of(rt, name).ok()?;
    if !is_of_kind(&known) {
        return None;
    }
    let file = File::open(rt, path_of(name).ok()?).ok()?;
    let _ = file.lock();
    Some(file)
}

// The file that the argument names, and before it the folder, since the file may still have to be made. What cannot be opened is not
// locked.
pub fn lock_argument(rt: &HostRuntime, at: Option<usize>) -> Locked {
    let Some(at) = at else {
        return Locked::default();
    };
    let mut room = [0u8; PATH_MAX];
    let name = argument(rt, at, &mut room);
    let folder = lock(rt, folder_of(name), |known| known.is_dir());
    let file = lock(rt, name, |known| known.is_file());
    Locked { folder, file }
}
