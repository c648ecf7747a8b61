// Records made, and written as 65 bytes.
use crate::applying::say_ill_formed;
use crate::never::say_never;
use files::complaints::Complained;
use files::writing::{Target, store_to};
use lines::refusals::say_refused;
use lines::states::say_record;
use moves::Refusal;
use output::page::Page;
use output::status::Answer;
use records::Record;
use running::course::{Course, Input};

// The record of n steps to its file, and then its lines.
fn keep_record(page: &mut Page, n: u64, r: Record, t: Target) -> Result<Answer, Complained> {
    let mut room = [0u8; 65];
    match spelling::write(n, r, &mut room) {
        Err(refusal) => Ok(say_refused(page, None, refusal)),
        Ok(()) => {
            store_to(&page.rt(), t, &room)?;
            say_record(page, r);
            writeln!(page, "wrote: 65 bytes");
            Ok(Answer::Answered)
        }
    }
}

fn say_unfolded(page: &mut Page, course: &Course, r: Refusal) -> Answer {
    let refused = course.say_refused(page, r);
    if let Refusal::Length = r {
        finding::journals::say_found(page, course.journal.bytes);
    }
    refused
}

// A record that never applies is written only where that was asked for.
pub fn fold(
    page: &mut Page,
    course: &Course,
    t: Target,
    never: bool,
) -> Result<Answer, Complained> {
    match folding::fold(course.job, course.journal.bytes) {
        Ok(r) if r.never & !never => Err(say_never(page, course)),
        Ok(r) => keep_record(page, course.job[0], r, t),
        Err(r) => Ok(say_unfolded(page, course, r)),
    }
}

// The number of steps is in no file.
fn say_unread(page: &mut Page, n: u64, record: Input, r: Refusal) -> Answer {
    match r {
        Refusal::Counts => {
            let refused = say_refused(page, None, r);
            finding::recorded::say_count_of(page, n);
            refused
        }
        _ => say_ill_formed(page, n, record, r),
    }
}

pub fn join(
    page: &mut Page,
    n: u64,
    first: Input,
    second: Input,
    t: Target,
) -> Result<Answer, Complained> {
    match spelling::read(n, first.bytes) {
        Err(r) => Ok(say_unread(page, n, first, r)),
        Ok(before) => match spelling::read(n, second.bytes) {
            Err(r) => Ok(say_unread(page, n, second, r)),
            Ok(after) => match before.join(after, n) {
                Ok(joined) => keep_record(page, n, joined, t),
                Err(r) => Ok(say_refused(page, None, r)),
            },
        },
    }
}

// A record does not hold its number of steps: it is read for 64.
pub fn show(page: &mut Page, record: Input) -> Answer {
    match spelling::read(64, record.bytes) {
        Ok(r) => {
            say_record(page, r);
            Answer::Answered
        }
        Err(r) => say_ill_formed(page, 64, record, r),
    }
}
