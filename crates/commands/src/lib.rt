// The commands, what each takes, and which one a word means.
#![tactic(auto)]

ghost use Rattle.std.specs.Prelude.{◌≡◌, ◌≢◌, IfSome, IsNone};
ghost use Rattle.commands.specs.declared.Command.{Command as Named};
ghost use Rattle.commands.specs.Words.{word_of};

pub mod nearest;
pub mod shapes;

use std::fmt;
use std::fmt::Display;

#[derive(Clone, Copy, Debug, PartialEq, Eq)]
pub enum Command {
    Check,
    Show,
    Write,
    Cabinet,
    May,
    Ask,
    Take,
    Run,
    Finished,
    Ends,
    Fold,
    Join,
    Apply,
    Restore,
    Record,
    Marking,
    Entries,
    Lap,
    Track,
    Sample,
    Help,
}

impl Command {
    pub const ALL: [Command; 21] = [
        Command::Check,
        Command::Show,
        Command::Write,
        Command::Cabinet,
        Command::May,
        Command::Ask,
        Command::Take,
        Command::Run,
        Command::Finished,
        Command::Ends,
        Command::Fold,
        Command::Join,
        Command::Apply,
        Command::Restore,
        Command::Record,
        Command::Marking,
        Command::Entries,
        Command::Lap,
        Command::Track,
        Command::Sample,
        Command::Help,
    ];

    pub fn word(self) -> &'static str
        ensures { result.now ≡ word_of self }
    {
        match self {
            Command::Check => "check",
            Command::Show => "show",
            Command::Write => "write",
            Command::Cabinet => "cabinet",
            Command::May => "may",
            Command::Ask => "ask",
            Command::Take => "take",
            Command::Run => "run",
            Command::Finished => "finished",
            Command::Ends => "ends",
            Command::Fold => "fold",
            Command::Join => "join",
            Command::Apply => "apply",
            Command::Restore => "restore",
            Command::Record => "record",
            Command::Marking => "marking",
            Command::Entries => "entries",
            Command::Lap => "lap",
            Command::Track => "track",
            Command::Sample => "sample",
            Command::Help => "help",
        }
    }

    // The command of that word. A word is bytes, as somebody typed it.
    pub fn named(word: &[u8]) -> Option<Command>
        ensures found { IfSome result (λ c. word_of c ≡ word.now) }
        ensures none { IsNone result → (c : Named) → word_of c ≢ word.now }
    {
        Command::ALL
            .iter()
            .copied()
            .find(|c| c.word().as_bytes() == word)
    }
}

impl Display for Command {
    ghost use Rattle.std.specs.Prelude.{Some};

    ghost output = { λ c. Some (word_of c) };

    fn fmt<W: fmt::Write>(&self, f: &mut fmt::Formatter<W>) -> fmt::Result {
        f.write_str(self.word())
    }
}
