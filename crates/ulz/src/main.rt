// The program: does what its arguments ask for, and answers its exit status.
#![tactic(auto)]

ghost use Rattle.std.specs.Prelude.{◌≡◌};
ghost use Rattle.ulz.specs.Ends.{Ends, for_c};

use commands::Command;
use files::arguments::{Call, PATH_MAX, argument, called};
use files::locking::lock_argument;
use output::page::Page;
use output::status::{Answer, ended};
use std::process::ExitCode;

// Neither answered nor refused.
const ELSE: i32 = 2;

// The status as C takes it; all else is 2, which `i32::from` would hand on.
fn for_c(status: u8) -> i32
    ensures { result ≡ for_c status }
{
    if status == 0 {
        return 0;
    }
    if status == 1 {
        return 1;
    }
    ELSE
}

// The journal that a call of `take` names; of a call that is wrong in its words nobody knows what it names.
fn journal_to_take(rt: &HostRuntime, call: &Call) -> Option<usize> {
    if call.long.is_some() | call.unknown.is_some() {
        return None;
    }
    let mut room = [0u8; PATH_MAX];
    let word = argument(rt, call.command()?, &mut room);
    match Command::named(word)? {
        Command::Take => call.operand(1),
        _ => None,
    }
}

// What `main` calls and returns. The status is told last, when it is known whether all lines were written.
pub fn ulz_program(rt: HostRuntime) -> i32
    ensures { Ends result }
{
    let mut page = Page::blank(rt);
    let call = called(&rt);
    let a = obeying::calls::answer(&mut page, &call).unwrap_or(Answer::Failed);
    for_c(ended(&mut page, call.status, a))
}

// Two takes of one journal go one after the other, or both would be tested against the same journal, and the later one could put an
// entry there that is not allowed any more. So a take locks the journal until the process ends.
fn main(rt: HostRuntime) -> ExitCode {
    let call = called(&rt);
    let _locked = lock_argument(&rt, journal_to_take(&rt, &call));
    ExitCode::from(ulz_program(rt) as u8)
}
