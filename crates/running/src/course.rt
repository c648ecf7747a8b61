// A job, the marking to start at and the journal that is run from there, with the arguments of the call that name them.
ghost use Rattle.std.specs.Prelude.{◌≡◌, None};
ghost use Rattle.std.specs.Result.{is_ok, result_unwrap_or};
ghost use Rattle.rules.specs.Graph.{graph_of};
ghost use Rattle.journal.specs.Run.{the_run};
ghost use Rattle.journal.specs.Walk.{stride_at};

use journal::{Ended, Stopped, walk_at};
use lines::refusals::{say_refused, say_waited};
use lines::states::{Stated, say_marking};
use moves::{Entry, Marking, Refusal};
use output::page::Page;
use output::status::Answer;
use rules::Job;
use std::convert::From;

// What a call reads: the bytes, and the argument that names their file, if one does.
#[derive(Clone, Copy)]
pub struct Input<'a> {
    pub at: Option<usize>,
    pub bytes: &'a [u8],
}

// The sheet is the job's; `from` names the marking, where it is not the sheet's own.
#[derive(Clone, Copy)]
pub struct Course<'a> {
    pub job: &'a Job,
    pub sheet: Option<usize>,
    pub start: Marking,
    pub from: Option<usize>,
    pub journal: Input<'a>,
}

// Does a walk go over it? Over another length than a journal's it says 7.
pub fn is_journal(bytes: &[u8]) -> bool
    ensures { result ≡ is_ok (stride_at bytes.now 0).said }
{
    walk_at(bytes, 0).said.is_ok()
}

// A journal that has not the length of one.
pub fn say_unmeasured(page: &mut Page, journal: Input) -> Answer {
    let refused = say_refused(page, journal.at, Refusal::Length);
    finding::journals::say_found(page, journal.bytes);
    refused
}

// Numbers 11 to 15.
fn is_of_entry(r: Refusal) -> bool {
    matches!(
        r,
        Refusal::Unknown
            | Refusal::NotHeld
            | Refusal::NotOnStep
            | Refusal::Excluded
            | Refusal::Waits(_)
    )
}

impl Course<'_> {
    pub fn run(&self) -> Result<Ended, Stopped>
        ensures { result ≡ the_run (graph_of self.now.job.now) self.now.start self.now.journal.bytes.now }
    {
        journal::run(self.job, self.start, self.journal.bytes)
    }

    // Entry k of the journal, if it has so many.
    pub fn entry(&self, k: usize) -> Option<Entry>
        ensures { result ≡ result_unwrap_or (stride_at self.now.journal.bytes.now k).said None }
    {
        walk_at(self.journal.bytes, k).said.unwrap_or(None)
    }

    // The argument that names the input that a refusal of the job, of the marking or of the journal speaks of.
    fn named_by(&self, r: Refusal) -> Option<usize> {
        match r {
            Refusal::Length => self.journal.at,
            Refusal::Outside => self.from,
            _ if is_of_entry(r) => self.journal.at,
            _ => self.sheet,
        }
    }

    // The lines that a refusal begins with.
    pub fn say_refused(&self, page: &mut Page, r: Refusal) -> Answer {
        say_refused(page, self.named_by(r), r)
    }

    // What an entry meets of what the refusal speaks of.
    pub fn say_met(&self, page: &mut Page, e: Entry, r: Refusal) {
        finding::entries::say_found(page, self.job, Stated::from(e), r);
    }

    // A run that cannot start: 8 is the marking's, and there is no entry yet.
    pub fn say_unstarted(&self, page: &mut Page, r: Refusal) -> Answer {
        let refused = self.say_refused(page, r);
        finding::markings::say_found(page, self.job[0], self.start);
        refused
    }

    // Refused at an entry, which is said with the marking before it.
    fn say_refused_at(&self, page: &mut Page, s: Stopped) -> Answer {
        let refused = self.say_refused(page, s.refusal);
        let k = usize::from(s.index);
        if let Some(e) = self.entry(k) {
            self.say_met(page, e, s.refusal);
            writeln!(page, "entry {k}: {}", Stated::from(e));
        }
        say_waited(page, s.refusal);
        say_marking(page, s.marking);
        refused
    }

    // A refused run: below 11 no entry was looked at.
    pub fn say_stopped(&self, page: &mut Page, s: Stopped) -> Answer {
        match s.refusal {
            Refusal::Length => say_unmeasured(page, self.journal),
            r if is_of_entry(r) => self.say_refused_at(page, s),
            r => self.say_refused(page, r),
        }
    }

    // A run from the start that has not ended.
    pub fn say_halted(&self, page: &mut Page, s: Stopped) -> Answer {
        match s.refusal {
            Refusal::Outside => self.say_unstarted(page, s.refusal),
            _ => self.say_stopped(page, s),
        }
    }
}
