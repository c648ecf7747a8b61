// What stands behind a command.
use crate::Command;

// The numbers among the operands: N or the arms of a mast before the files; or an entry, a person or the size of a store behind them,
// where else the file to write stands.
#[derive(Clone, Copy, Debug, PartialEq, Eq)]
pub enum Numbers {
    Count,
    Arms,
    Entry,
    Person,
    Markings,
}

// The operands of a command: the numbers among them, how many stand before the file to write, and how few and how many there may be.
// Then the options that not every command takes.
#[derive(Clone, Copy)]
pub struct Shape {
    pub numbers: Option<Numbers>,
    pub out: usize,
    pub least: usize,
    pub most: usize,
    pub from: bool,
    pub status: bool,
    pub never: bool,
}

impl Shape {
    fn of(out: usize, least: usize, most: usize) -> Shape {
        Shape {
            numbers: None,
            out,
            least,
            most,
            from: false,
            status: false,
            never: false,
        }
    }

    fn with(self, numbers: Numbers) -> Shape {
        Shape {
            numbers: Some(numbers),
            ..self
        }
    }

    // Starts at any marking.
    fn starting(self) -> Shape {
        Shape { from: true, ..self }
    }

    // Has a yes and a no.
    fn asking(self) -> Shape {
        Shape {
            status: true,
            ..self
        }
    }

    fn folding(self) -> Shape {
        Shape {
            never: true,
            ..self
        }
    }
}

impl Command {
    pub fn shape(self) -> Shape {
        match self {
            Command::Check => Shape::of(1, 1, 1),
            Command::Show => Shape::of(1, 1, 1),
            Command::Write => Shape::of(1, 2, 2),
            Command::Cabinet => Shape::of(1, 2, 2).with(Numbers::Arms),
            Command::May => Shape::of(2, 2, 3).with(Numbers::Person).starting(),
            Command::Ask => Shape::of(2, 5, 5).with(Numbers::Entry).starting(),
            Command::Take => Shape::of(2, 5, 5).with(Numbers::Entry).starting(),
            Command::Run => Shape::of(2, 2, 3).starting(),
            Command::Finished => Shape::of(2, 2, 2).asking(),
            Command::Ends => Shape::of(2, 2, 3)
                .with(Numbers::Markings)
                .asking()
                .starting(),
            Command::Fold => Shape::of(2, 3, 3).folding(),
            Command::Join => Shape::of(3, 4, 4).with(Numbers::Count),
            Command::Apply => Shape::of(3, 3, 4).with(Numbers::Count),
            Command::Restore => Shape::of(3, 3, 4),
            Command::Record => Shape::of(1, 1, 1),
            Command::Marking => Shape::of(1, 1, 1),
            Command::Entries => Shape::of(1, 1, 1),
            Command::Lap => Shape::of(3, 3, 3).asking().starting(),
            Command::Track => Shape::of(2, 2, 2).starting(),
            Command::Sample => Shape::of(0, 0, 1),
            Command::Help => Shape::of(0, 0, 1),
        }
    }
}
