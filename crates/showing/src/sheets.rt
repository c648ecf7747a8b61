// Commands on a sheet alone.
use crate::graphs::{say_actions, say_arrow_count, say_arrows, say_counts, say_people, say_steps};
use files::complaints::Complained;
use files::writing::{Target, front, store_to};
use lines::refusals::say_refused;
use lines::states::say_ending;
use moves::Marking;
use output::page::Page;
use output::status::Answer;
use rules::Job;

pub fn check(page: &mut Page, g: &Job) -> Answer {
    writeln!(page, "sheet: ok");
    say_counts(page, g);
    say_arrow_count(page, g);
    Answer::Answered
}

pub fn show(page: &mut Page, g: &Job, m: Marking) -> Answer {
    say_counts(page, g);
    say_people(page, g);
    say_actions(page, g);
    say_steps(page, g, m);
    say_arrows(page, g);
    say_arrow_count(page, g);
    say_ending(page, rules::finished(g, m), m)
}

// The sheet to its file.
pub fn keep(page: &mut Page, sheet: &[u8], t: Target) -> Result<Answer, Complained> {
    store_to(&page.rt(), t, sheet)?;
    writeln!(page, "wrote: {} bytes", sheet.len());
    Ok(Answer::Answered)
}

// The sheet of what was read; `at` names it.
pub fn write(
    page: &mut Page,
    g: &Job,
    m: Marking,
    t: Target,
    at: Option<usize>,
) -> Result<Answer, Complained> {
    let mut room = [0u8; 65536];
    match sheet::write(g, m, &mut room) {
        Ok(n) => keep(page, front(&room, n), t),
        Err(r) => Ok(say_refused(page, at, r)),
    }
}
