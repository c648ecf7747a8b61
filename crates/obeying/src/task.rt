// What a call asks for, and what it reads for that.
use calling::numbers::Stating;
use commands::Command;
use commands::shapes::Shape;
use files::arguments::Call;
use files::writing::Target;
use lines::states::Stated;
use reporting::search::MOST;
use running::course::Input;

// What to answer: the command, what its numbers state, the arguments that name its files and the marking to start at, and the file to
// write. A journal that is added to is both, and none that is read where it is not there yet.
#[derive(Clone, Copy)]
pub struct Task {
    pub command: Command,
    pub stated: Option<Stating>,
    pub first: Option<usize>,
    pub second: Option<usize>,
    pub third: Option<usize>,
    pub from: Option<usize>,
    pub never: bool,
    pub target: Target,
}

// What its arguments name, read.
#[derive(Clone, Copy)]
pub struct Inputs<'a> {
    pub first: Input<'a>,
    pub second: Input<'a>,
    pub third: Input<'a>,
    pub from: Input<'a>,
}

// The argument that names the input whose number among the operands is k, if it stands before the file to write.
fn input(s: Shape, call: &Call, k: usize) -> Option<usize> {
    if k < s.out { call.operand(k) } else { None }
}

impl Task {
    // The inputs stand behind N, where it is stated.
    pub fn new(command: Command, call: &Call, out: Option<usize>, stated: Option<Stating>) -> Task {
        let s = command.shape();
        let first = match stated {
            Some(Stating::Count(_)) => 1,
            _ => 0,
        };
        Task {
            command,
            stated,
            first: input(s, call, first),
            second: input(s, call, first + 1),
            third: input(s, call, first + 2),
            from: call.from,
            never: call.never,
            target: Target {
                at: out,
                force: call.force,
            },
        }
    }

    // N, or the arms of a mast. No command without either asks: the 0 is never seen.
    pub fn count(&self) -> u64 {
        match self.stated {
            Some(Stating::Count(n)) => n,
            _ => 0,
        }
    }

    // No command without an entry asks: the zeros are never seen.
    pub fn entry(&self) -> Stated {
        match self.stated {
            Some(Stating::Entry(e)) => e,
            _ => Stated {
                person: 0,
                step: 0,
                role: 0,
            },
        }
    }

    // The person spoken of; all are where none is named.
    pub fn person(&self) -> Option<u64> {
        match self.stated {
            Some(Stating::Person(p)) => Some(p),
            _ => None,
        }
    }

    // A store is the largest one where its size is left out.
    pub fn markings(&self) -> u64 {
        match self.stated {
            Some(Stating::Markings(n)) => n,
            _ => MOST,
        }
    }
}
