// The numbers among the operands.
use commands::shapes::Numbers;
use files::arguments::{Call, PATH_MAX, argument, number_of};
use files::complaints::{Complained, complain_of};
use lines::states::Stated;

// What the numbers of a call say.
#[derive(Clone, Copy)]
pub enum Stating {
    Count(u64),
    Entry(Stated),
    Person(u64),
    Markings(u64),
}

// The number that operand k is, if it is not left out.
fn number_in(
    rt: &HostRuntime,
    call: &Call,
    k: usize,
    what: &str,
) -> Result<Option<u64>, Complained> {
    let Some(i) = call.operand(k) else {
        return Ok(None);
    };
    let mut room = [0u8; PATH_MAX];
    let word = argument(rt, i, &mut room);
    match number_of(word) {
        Some(number) => Ok(Some(number)),
        None => Err(complain_of(rt, word, what)),
    }
}

fn part_in(rt: &HostRuntime, call: &Call, k: usize) -> Result<Option<u64>, Complained> {
    number_in(
        rt,
        call,
        k,
        "a person, step or role is a number, digits 0 to 9 alone",
    )
}

// Its parts stand behind the sheet and the journal.
fn entry_in(rt: &HostRuntime, call: &Call) -> Result<Option<Stated>, Complained> {
    let person = part_in(rt, call, 2)?;
    let step = part_in(rt, call, 3)?;
    let role = part_in(rt, call, 4)?;
    match (person, step, role) {
        (Some(person), Some(step), Some(role)) => Ok(Some(Stated { person, step, role })),
        _ => Ok(None),
    }
}

// A number that stands before the files is the first operand, one that stands behind them the third.
pub fn stated_in(
    rt: &HostRuntime,
    numbers: Option<Numbers>,
    call: &Call,
) -> Result<Option<Stating>, Complained> {
    let Some(numbers) = numbers else {
        return Ok(None);
    };
    let stated = match numbers {
        Numbers::Count => {
            number_in(rt, call, 0, "N is a number, digits 0 to 9 alone")?.map(Stating::Count)
        }
        Numbers::Arms => {
            number_in(rt, call, 0, "ARMS is a number, digits 0 to 9 alone")?.map(Stating::Count)
        }
        Numbers::Entry => entry_in(rt, call)?.map(Stating::Entry),
        Numbers::Person => part_in(rt, call, 2)?.map(Stating::Person),
        Numbers::Markings => {
            number_in(rt, call, 2, "MARKINGS is a number, digits 0 to 9 alone")?.map(
                Stating::Markings,
            )
        }
    };
    Ok(stated)
}
