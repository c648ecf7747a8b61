// A journal in words.
use crate::course::{Input, is_journal, say_unmeasured};
use journal::walk_at;
use lines::states::Stated;
use output::page::Page;
use output::status::Answer;
use std::convert::From;

// Refusal 7.
pub fn entries(page: &mut Page, journal: Input) -> Answer {
    if !is_journal(journal.bytes) {
        return say_unmeasured(page, journal);
    }
    let count = journal.bytes.len() / 3;
    writeln!(page, "entries: {count}");
    for k in 0..count {
        if let Ok(Some(e)) = walk_at(journal.bytes, k).said {
            writeln!(page, "entry {k}: {}", Stated::from(e));
        }
    }
    Answer::Answered
}
