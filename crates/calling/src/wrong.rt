// Wrong use, each with its one line.
use commands::Command;
use commands::nearest::nearest;
use commands::shapes::{Numbers, Shape};
use files::arguments::{Call, PATH_MAX, argument};
use files::complaints::{Complained, complain, complain_of};
use guide::usage::Use;
use lines::names::say_name;
use output::page::Page;

// Is there a place for a file to write? Numbers may stand there instead.
fn has_out(s: Shape) -> bool {
    !matches!(
        s.numbers,
        Some(Numbers::Entry | Numbers::Person | Numbers::Markings)
    )
}

// The file to write, if one is named.
pub fn out_of(s: Shape, call: &Call) -> Option<usize> {
    if has_out(s) {
        call.operand(s.out)
    } else {
        None
    }
}

fn is_dash(rt: &HostRuntime, at: Option<usize>) -> bool {
    let Some(i) = at else {
        return false;
    };
    let mut room = [0u8; PATH_MAX];
    matches!(argument(rt, i, &mut room), b"-")
}

pub fn complain_none(rt: &HostRuntime) -> Complained {
    complain(rt, "ulz: no command; 'ulz help' lists them\n")
}

// A page is put together first, so that the complaint is one write.
pub fn complain_unknown(rt: &HostRuntime, word: &[u8]) -> Complained {
    let mut page = Page::blank(*rt);
    write!(page, "ulz: ");
    say_name(&mut page, word);
    let near = nearest(word);
    writeln!(
        page,
        ": unknown command; did you mean '{near}'? 'ulz help' lists them"
    );
    page.complain();
    Complained
}

// What is wrong with the file that argument i names.
pub fn complain_at(rt: &HostRuntime, i: usize, what: &str) -> Complained {
    let mut room = [0u8; PATH_MAX];
    complain_of(rt, argument(rt, i, &mut room), what)
}

fn complain_use(rt: &HostRuntime, c: Command) -> Complained {
    let mut page = Page::blank(*rt);
    writeln!(page, "ulz: usage: {}", Use(c));
    page.complain();
    Complained
}

// The option is known, but is none of this command's.
fn complain_untaken(rt: &HostRuntime, c: Command, option: &str) -> Complained {
    let mut page = Page::blank(*rt);
    writeln!(page, "ulz: {option}: 'ulz {c}' takes no such option");
    page.complain();
    Complained
}

// Does the command write a file? Help has a command in that place. The shape is asked of the command once, where it is obeyed, and handed
// on.
fn writes(c: Command, s: Shape) -> bool {
    c != Command::Help && has_out(s) && s.out < s.most
}

fn test_options(rt: &HostRuntime, c: Command, s: Shape, call: &Call) -> Result<(), Complained> {
    let options = [
        ("--force", call.force && !writes(c, s)),
        ("--never", call.never && !s.never),
        ("--status", call.status && !s.status),
        ("--from", call.from.is_some() && !s.from),
    ];
    for (option, is_untaken) in options {
        if is_untaken {
            return Err(complain_untaken(rt, c, option));
        }
    }
    Ok(())
}

// Is no file written, though --force says that it may be written over? A sample has files without naming a folder.
fn forces_nothing(c: Command, s: Shape, call: &Call) -> bool {
    call.force && c != Command::Sample && call.operands() <= s.out
}

// Is no word of the call wrong, whatever the command?
pub fn test_words(rt: &HostRuntime, call: &Call) -> Result<(), Complained> {
    if call.long.is_some() {
        return Err(complain(rt, "ulz: an argument is longer than 4,095 bytes\n"));
    }
    if let Some(i) = call.unknown {
        return Err(complain_at(rt, i, "unknown option"));
    }
    if call.lacking.is_some() {
        return Err(complain(rt, "ulz: --from: a marking is missing\n"));
    }
    if call.dashes {
        return Err(complain(rt, "ulz: '-' is standard input and may stand only once\n"));
    }
    Ok(())
}

// Is the call a use of the command, whose operands have that shape?
pub fn test_use(rt: &HostRuntime, c: Command, s: Shape, call: &Call) -> Result<(), Complained> {
    test_options(rt, c, s, call)?;
    if !(s.least..=s.most).contains(&call.operands()) {
        return Err(complain_use(rt, c));
    }
    if forces_nothing(c, s, call) {
        return Err(complain(rt, "ulz: --force: this call writes no file\n"));
    }
    if is_dash(rt, out_of(s, call)) {
        return Err(complain_of(rt, b"-", "the output is a file, and has to be named"));
    }
    if c == Command::Take && is_dash(rt, call.operand(1)) {
        return Err(complain_of(rt, b"-", "the journal is a file, and has to be named"));
    }
    Ok(())
}
