// Number 30: the arms of a mast, which a sheet is asked for.
use crate::words::say_finding;
use output::page::Page;

pub fn say_found(page: &mut Page, arms: u64) {
    say_finding(page, format_args!("{arms} arms"), "2 to 16");
}
