// Number 22: the size of a store that is lent for a search.
use crate::words::say_finding;
use output::page::Page;

pub fn say_found(page: &mut Page, markings: u64) {
    say_finding(
        page,
        format_args!("a store for {markings} markings"),
        "1 to 2048",
    );
}
