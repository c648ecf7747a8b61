// How each command is called.
use commands::Command;
use std::fmt;
use std::fmt::Display;

fn operands_of(c: Command) -> &'static str {
    match c {
        Command::Check => "SHEET",
        Command::Show => "SHEET",
        Command::Write => "SHEET OUT",
        Command::Cabinet => "ARMS OUT",
        Command::May => "SHEET JOURNAL [PERSON] [--from MARKING]",
        Command::Ask => "SHEET JOURNAL PERSON STEP ROLE [--from MARKING]",
        Command::Take => "SHEET JOURNAL PERSON STEP ROLE [--from MARKING]",
        Command::Run => "SHEET JOURNAL [OUT] [--from MARKING]",
        Command::Finished => "SHEET JOURNAL [--status]",
        Command::Ends => "SHEET JOURNAL [MARKINGS] [--from MARKING] [--status]",
        Command::Fold => "SHEET JOURNAL OUT [--never]",
        Command::Join => "N RECORD RECORD OUT",
        Command::Apply => "N RECORD MARKING [OUT]",
        Command::Restore => "SHEET RECORD JOURNAL [OUT]",
        Command::Record => "RECORD",
        Command::Marking => "MARKING",
        Command::Entries => "JOURNAL",
        Command::Lap => "SHEET STEM LAP [--from MARKING] [--status]",
        Command::Track => "SHEET JOURNAL [--from MARKING]",
        Command::Sample => "[FOLDER]",
        Command::Help => "[COMMAND]",
    }
}

// The use of a command: its word and its operands.
#[derive(Clone, Copy)]
pub struct Use(pub Command);

impl Display for Use {
    fn fmt<W: fmt::Write>(&self, f: &mut fmt::Formatter<W>) -> fmt::Result {
        let Use(c) = *self;
        write!(f, "ulz {c} {}", operands_of(c))
    }
}
