// Number 7: the length of a journal.
use crate::words::{Bytes, say_finding};
use output::page::Page;

pub fn say_found(page: &mut Page, journal: &[u8]) {
    say_finding(page, Bytes(journal.len()), "a multiple of 3, at most 65535");
}

// A journal that is as long as one can be: nothing can be put behind it.
pub fn say_full(page: &mut Page, journal: &[u8]) {
    say_finding(
        page,
        format_args!("{}, a full journal", Bytes(journal.len())),
        "at most 65532, so that an entry can be added",
    );
}
