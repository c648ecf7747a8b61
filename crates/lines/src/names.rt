// Names as they were typed: files, and words that are none of the program's. They are bytes and no text, since whatever was typed is
// printed as it is.
use files::arguments::{PATH_MAX, argument};
use output::page::Page;

// A name may hold an end of line, and it is to stand in one line.
fn shown(b: u8) -> u8 {
    if b.is_ascii_control() { b'?' } else { b }
}

pub fn say_name(page: &mut Page, name: &[u8]) {
    for b in name {
        page.put(shown(*b));
    }
}

// The file that argument i names, if one does.
pub fn say_file(page: &mut Page, i: Option<usize>) {
    let Some(i) = i else {
        return;
    };
    let mut room = [0u8; PATH_MAX];
    let name = argument(&page.rt(), i, &mut room);
    write!(page, "file: ");
    say_name(page, name);
    writeln!(page);
}
