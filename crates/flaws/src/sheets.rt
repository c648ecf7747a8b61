// What was found in a sheet that is refused with a number from 1 to 6, and what was expected there.
use crate::said::Sheet;
use crate::{layouts, pointed, roles};
use moves::Refusal;
use output::page::Page;

pub fn say_found(page: &mut Page, sheet: &[u8], r: Refusal) {
    match r {
        Refusal::Layout => layouts::say_found(page, sheet),
        Refusal::Counts => roles::say_counts(page, Sheet(sheet)),
        Refusal::Bodies => roles::say_sizes(page, Sheet(sheet)),
        Refusal::Beyond => roles::say_sets(page, Sheet(sheet)),
        Refusal::Arrows => pointed::say_wrong(page, Sheet(sheet)),
        Refusal::Both => pointed::say_both(page, Sheet(sheet)),
        _ => {}
    }
}
