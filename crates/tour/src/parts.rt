// The files of the sample job.
use crate::job::{CHECK, DAY, PUBLISH, REBOOT, START};
use arrayvec::ArrayVec;
use files::complaints::{Complained, complain_error};
use files::known::path_of;
use files::writing::{front, store};
use lines::refusals::say_refused;
use output::page::Page;
use rules::Job;
use std::fs;
use std::io::ErrorKind;

// Room for the longest name of a folder and a part's name behind it.
const PATH: usize = 8192;

// The folder that the files go into; may a file that exists be written over?
#[derive(Clone, Copy)]
pub struct Folder<'a> {
    pub name: &'a [u8],
    pub force: bool,
}

impl Folder<'_> {
    // The file into the folder. What does not fit the room is left out of its path.
    fn store(self, page: &mut Page, name: &str, bytes: &[u8]) -> Result<(), Complained> {
        let mut path: ArrayVec<u8, PATH> = ArrayVec::new();
        for part in [self.name, b"/", name.as_bytes()] {
            let _ = path.try_extend_from_slice(part);
        }
        store(&page.rt(), &path, self.force, bytes)?;
        writeln!(page, "wrote: {name}, {} bytes", bytes.len());
        Ok(())
    }

    fn store_sheet(self, page: &mut Page, g: &Job) -> Result<(), Complained> {
        let mut room = [0u8; 128];
        match sheet::write(g, START, &mut room) {
            Ok(n) => self.store(page, "job.sheet", front(&room, n)),
            Err(r) => {
                say_refused(page, None, r);
                Err(Complained)
            }
        }
    }

    fn store_marking(self, page: &mut Page) -> Result<(), Complained> {
        let mut room = [0u8; 24];
        bodies::write_marking(START, &mut room, 0);
        self.store(page, "start.marking", &room)
    }

    fn store_journals(self, page: &mut Page) -> Result<(), Complained> {
        self.store(page, "reboot.journal", &REBOOT)?;
        self.store(page, "check.journal", &CHECK)?;
        self.store(page, "publish.journal", &PUBLISH)?;
        self.store(page, "day.journal", &DAY)?;
        self.store(page, "empty.journal", b"")
    }

    // It is there, or is made.
    fn make(self, rt: &HostRuntime) -> Result<(), Complained> {
        let made = path_of(self.name).and_then(|path| fs::create_dir(rt, path));
        match made {
            Ok(()) => Ok(()),
            Err(e) if e.kind() == ErrorKind::AlreadyExists => Ok(()),
            Err(e) => Err(complain_error(rt, self.name, &e)),
        }
    }

    pub fn store_parts(self, page: &mut Page, g: &Job) -> Result<(), Complained> {
        self.make(&page.rt())?;
        self.store_sheet(page, g)?;
        self.store_marking(page)?;
        self.store_journals(page)
    }
}
