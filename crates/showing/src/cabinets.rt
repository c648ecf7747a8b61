// The sheet of the cabinet's own job.
use crate::sheets::keep;
use files::complaints::Complained;
use files::writing::{Target, front};
use lines::refusals::say_refused;
use moves::Refusal;
use output::page::Page;
use output::status::Answer;

// The number of arms is in no file.
fn say_unwritten(page: &mut Page, arms: u64, r: Refusal) -> Answer {
    let refused = say_refused(page, None, r);
    finding::arms::say_found(page, arms);
    refused
}

pub fn write(page: &mut Page, arms: u64, t: Target) -> Result<Answer, Complained> {
    let mut room = [0u8; 65536];
    match cabinet::write(arms, &mut room) {
        Ok(n) => keep(page, front(&room, n), t),
        Err(r) => Ok(say_unwritten(page, arms, r)),
    }
}
