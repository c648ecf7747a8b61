// Records applied to a marking.
use files::complaints::Complained;
use files::writing::Target;
use journal::Stopped;
use lines::refusals::say_refused;
use lines::states::say_marking;
use moves::{Marking, Refusal};
use output::page::Page;
use output::status::Answer;
use records::Record;
use running::course::{Course, Input, is_journal, say_unmeasured};
use running::markings::{keep_marking, say_kept};
use running::runs::say_ended;

fn say_given(page: &mut Page, m: Marking, t: Target) -> Result<Answer, Complained> {
    keep_marking(page, t, m)?;
    say_marking(page, m);
    say_kept(page, t);
    Ok(Answer::Answered)
}

// 16 gives back the marking that was handed in; argument `at` names the record.
fn say_unapplied(
    page: &mut Page,
    at: Option<usize>,
    record: Record,
    m: Marking,
    r: Refusal,
) -> Answer {
    let refused = say_refused(page, at, r);
    finding::recorded::say_unapplied(page, record, m);
    say_marking(page, m);
    refused
}

// A record that was not read for n steps, 10. N and record go on by themselves: three calls take both, and each asks another thing of them.
pub fn say_ill_formed(page: &mut Page, n: u64, record: Input, r: Refusal) -> Answer {
    let refused = say_refused(page, record.at, r);
    finding::recorded::say_found(page, n, record.bytes);
    refused
}

fn apply_read(
    page: &mut Page,
    n: u64,
    record: Input,
    m: Marking,
    t: Target,
) -> Result<Answer, Complained> {
    match spelling::read(n, record.bytes) {
        Ok(read) => match read.apply(m, n) {
            Ok(after) => say_given(page, after, t),
            Err(denied) => Ok(say_unapplied(page, record.at, read, denied.marking, denied.refusal)),
        },
        Err(r) => Ok(say_ill_formed(page, n, record, r)),
    }
}

// 8 is the marking's, which argument `at` names; 2 is N's, which is in no file.
fn say_unfit(page: &mut Page, n: u64, m: Marking, at: Option<usize>, r: Refusal) -> Answer {
    match r {
        Refusal::Outside => {
            let refused = say_refused(page, at, r);
            finding::markings::say_found(page, n, m);
            refused
        }
        _ => {
            let refused = say_refused(page, None, r);
            finding::recorded::say_count_of(page, n);
            refused
        }
    }
}

// 2 and 8 come before 10, which the record's bytes alone can give: the identity, which always applies, asks for them first.
pub fn apply(
    page: &mut Page,
    n: u64,
    record: Input,
    m: Marking,
    at: Option<usize>,
    t: Target,
) -> Result<Answer, Complained> {
    match Record::IDENTITY.apply(m, n) {
        Ok(_) => apply_read(page, n, record, m, t),
        Err(denied) => Ok(say_unfit(page, n, m, at, denied.refusal)),
    }
}

// 16 is the record's; else a run of the journal was refused.
fn say_unrestored(
    page: &mut Page,
    course: &Course,
    at: Option<usize>,
    record: Record,
    s: Stopped,
) -> Answer {
    match s.refusal {
        Refusal::NotApplied => say_unapplied(page, at, record, s.marking, s.refusal),
        _ => course.say_stopped(page, s),
    }
}

// 7 comes before 10, so that a walk is asked for it first.
pub fn restore(
    page: &mut Page,
    course: &Course,
    record: Input,
    t: Target,
) -> Result<Answer, Complained> {
    if !is_journal(course.journal.bytes) {
        return Ok(say_unmeasured(page, course.journal));
    }
    let g = course.job;
    let read = match spelling::read(g[0], record.bytes) {
        Ok(read) => read,
        Err(r) => return Ok(say_ill_formed(page, g[0], record, r)),
    };
    match folding::restore(g, read, course.journal.bytes, course.start) {
        Ok(end) => say_ended(page, g, end, t),
        Err(stopped) => Ok(say_unrestored(page, course, record.at, read, stopped)),
    }
}
