// Help: all commands, or one.
use crate::texts::{page_of, phrase_of};
use crate::usage::Use;
use commands::Command;
use output::page::Page;

fn say_command(page: &mut Page, c: Command) {
    writeln!(page, "{}: {}", Use(c), phrase_of(c));
}

pub fn say_version(page: &mut Page) {
    writeln!(page, "ulz 0.5.0");
}

pub fn say_help(page: &mut Page) {
    writeln!(
        page,
        "ulz asks a job's sheet and journals who may take which step, and folds journals into records of 65 bytes."
    );
    for c in Command::ALL {
        say_command(page, c);
    }
    write!(
        page,
        "A file may be '-', standard input, once in a call. OUT is a new file; --force writes over one that exists, but never over\n\
         one that the call reads. '--' ends the options; -h or --help is help, also behind a command; --version is the version.\n\
         Exit status: 0 answered; 1 refused, by a line 'refused: NUMBER WORDS'; 2 wrong use, or a file or an output that cannot be\n\
         read or written whole.\n"
    );
}

pub fn say_help_of(page: &mut Page, c: Command) {
    say_command(page, c);
    write!(page, "{}", page_of(c));
}
