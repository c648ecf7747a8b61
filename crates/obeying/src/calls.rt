// What the arguments ask for is done: the files that they name are read, the floors below are asked, and their answers printed.
use crate::answers::give;
use crate::task::{Inputs, Task};
use calling::numbers::stated_in;
use calling::wrong::{complain_at, complain_none, complain_unknown, out_of, test_use, test_words};
use commands::Command;
use files::appending::{Place, looked_up};
use files::arguments::{Call, PATH_MAX, argument};
use files::complaints::Complained;
use files::reading::fetch;
use files::writing::{Target, same_file};
use output::page::Page;
use output::status::Answer;
use running::course::Input;

fn read<'a>(
    rt: &HostRuntime,
    at: Option<usize>,
    room: &'a mut [u8],
) -> Result<Input<'a>, Complained> {
    let bytes = fetch(rt, at, room)?;
    Ok(Input { at, bytes })
}

fn read_and_give(page: &mut Page, t: &Task) -> Result<Answer, Complained> {
    let rt = page.rt();
    let mut first = [0u8; 65536];
    let mut second = [0u8; 65536];
    let mut third = [0u8; 65536];
    let mut from = [0u8; PATH_MAX];
    let inputs = Inputs {
        first: read(&rt, t.first, &mut first)?,
        second: read(&rt, t.second, &mut second)?,
        third: read(&rt, t.third, &mut third)?,
        from: read(&rt, t.from, &mut from)?,
    };
    give(page, t, &inputs)
}

// No call writes over a file that it reads.
fn test_target(rt: &HostRuntime, t: &Task) -> Result<(), Complained> {
    let Some(out) = t.target.at else {
        return Ok(());
    };
    let inputs = [t.first, t.second, t.third, t.from];
    if inputs.iter().any(|i| same_file(rt, t.target.at, *i)) {
        return Err(complain_at(rt, out, "is read by this call, and is not written over"));
    }
    Ok(())
}

fn obey_task(page: &mut Page, t: &Task) -> Result<Answer, Complained> {
    test_target(&page.rt(), t)?;
    read_and_give(page, t)
}

// The journal where it is there; else it is made.
fn found(rt: &HostRuntime, journal: Option<usize>) -> Result<Option<usize>, Complained> {
    let Some(at) = journal else {
        return Ok(None);
    };
    match looked_up(rt, at)? {
        Place::File => Ok(journal),
        Place::Free => Ok(None),
    }
}

// A journal that is added to is written: it may be no other input, and is read where it is there.
fn obey_taking(page: &mut Page, mut t: Task) -> Result<Answer, Complained> {
    let journal = t.second;
    t.second = None;
    t.target = Target {
        at: journal,
        force: false,
    };
    test_target(&page.rt(), &t)?;
    t.second = found(&page.rt(), journal)?;
    read_and_give(page, &t)
}

fn obey(page: &mut Page, c: Command, call: &Call) -> Result<Answer, Complained> {
    let s = c.shape();
    test_use(&page.rt(), c, s, call)?;
    let stated = stated_in(&page.rt(), s.numbers, call)?;
    let t = Task::new(c, call, out_of(s, call), stated);
    match c {
        Command::Take => obey_taking(page, t),
        _ => obey_task(page, &t),
    }
}

// The command's own page, where help is asked for behind it.
fn obey_or_help(page: &mut Page, c: Command, call: &Call) -> Result<Answer, Complained> {
    if call.help {
        guide::help::say_help_of(page, c);
        return Ok(Answer::Answered);
    }
    obey(page, c, call)
}

fn answer_without(page: &mut Page, call: &Call) -> Result<Answer, Complained> {
    if call.help {
        guide::help::say_help(page);
        return Ok(Answer::Answered);
    }
    Err(complain_none(&page.rt()))
}

// The command is the first operand.
fn answer_command(page: &mut Page, call: &Call) -> Result<Answer, Complained> {
    let Some(i) = call.command() else {
        return answer_without(page, call);
    };
    let mut room = [0u8; PATH_MAX];
    let word = argument(&page.rt(), i, &mut room);
    match Command::named(word) {
        Some(c) => obey_or_help(page, c, call),
        None => Err(complain_unknown(&page.rt(), word)),
    }
}

pub fn answer(page: &mut Page, call: &Call) -> Result<Answer, Complained> {
    test_words(&page.rt(), call)?;
    if call.version {
        guide::help::say_version(page);
        return Ok(Answer::Answered);
    }
    answer_command(page, call)
}
