// What each command answers.
use crate::task::{Inputs, Task};
use calling::wrong::{complain_at, complain_unknown};
use commands::Command;
use files::arguments::{PATH_MAX, argument};
use files::complaints::{Complained, complain_of};
use files::writing::Target;
use lines::refusals::say_refused;
use lines::states::say_marking;
use moves::Marking;
use output::page::Page;
use output::status::Answer;
use rules::WORDS;
use running::course::{Course, Input};
use tour::parts::Folder;

// What is wrong with a file that was read.
fn complain_file(rt: &HostRuntime, file: Input, what: &str) -> Complained {
    match file.at {
        Some(i) => complain_at(rt, i, what),
        None => complain_of(rt, b"", what),
    }
}

// A marking is read at its length alone.
fn marking_in(rt: &HostRuntime, file: Input) -> Result<Marking, Complained> {
    if file.bytes.len() != 24 {
        return Err(complain_file(rt, file, "a marking has 24 bytes"));
    }
    Ok(bodies::read_marking(file.bytes))
}

fn apply(page: &mut Page, t: &Task, inputs: &Inputs) -> Result<Answer, Complained> {
    let m = marking_in(&page.rt(), inputs.second)?;
    let at = inputs.second.at;
    recording::applying::apply(page, t.count(), inputs.first, m, at, t.target)
}

fn show_marking(page: &mut Page, file: Input) -> Result<Answer, Complained> {
    let m = marking_in(&page.rt(), file)?;
    say_marking(page, m);
    Ok(Answer::Answered)
}

// The file to write is the folder.
fn sample(page: &mut Page, t: Target) -> Result<Answer, Complained> {
    let force = t.force;
    let Some(i) = t.at else {
        let name = b"sample";
        return tour::walk::sample(page, Folder { name, force });
    };
    let mut room = [0u8; PATH_MAX];
    let name = argument(&page.rt(), i, &mut room);
    tour::walk::sample(page, Folder { name, force })
}

// In the place of the file to write stands a command.
fn help(page: &mut Page, at: Option<usize>) -> Result<Answer, Complained> {
    let Some(i) = at else {
        guide::help::say_help(page);
        return Ok(Answer::Answered);
    };
    let mut room = [0u8; PATH_MAX];
    let word = argument(&page.rt(), i, &mut room);
    match Command::named(word) {
        Some(c) => {
            guide::help::say_help_of(page, c);
            Ok(Answer::Answered)
        }
        None => Err(complain_unknown(&page.rt(), word)),
    }
}

// The marking of --from, if one is named.
fn from_in(rt: &HostRuntime, from: Input) -> Result<Option<Marking>, Complained> {
    match from.at {
        Some(_) => Ok(Some(marking_in(rt, from)?)),
        None => Ok(None),
    }
}

// What is answered on a job, whose sheet is the first input, with that journal. It starts at the marking of --from, or at the sheet's
// first.
fn on_job<F: FnOnce(&mut Page, &Course) -> Result<Answer, Complained>>(
    page: &mut Page,
    inputs: &Inputs,
    journal: Input,
    answer: F,
) -> Result<Answer, Complained>
    requires { F.IsAlwaysCallable answer }
{
    let from = from_in(&page.rt(), inputs.from)?;
    let sheet = inputs.first;
    let mut g = [0u64; WORDS];
    match sheet::read(sheet.bytes, &mut g) {
        Ok(first) => {
            let course = Course {
                job: &g,
                sheet: sheet.at,
                start: from.unwrap_or(first),
                from: inputs.from.at,
                journal,
            };
            answer(page, &course)
        }
        Err(r) => {
            let refused = say_refused(page, sheet.at, r);
            flaws::sheets::say_found(page, sheet.bytes, r);
            Ok(refused)
        }
    }
}

// A `match` and no table of functions: each command takes other inputs.
pub fn give(page: &mut Page, t: &Task, inputs: &Inputs) -> Result<Answer, Complained> {
    let Inputs {
        first,
        second,
        third,
        from: _,
    } = *inputs;
    let o = t.target;
    match t.command {
        Command::Check => on_job(page, inputs, second, |page, c| {
            Ok(showing::sheets::check(page, c.job))
        }),
        Command::Show => on_job(page, inputs, second, |page, c| {
            Ok(showing::sheets::show(page, c.job, c.start))
        }),
        Command::Write => on_job(page, inputs, second, |page, c| {
            showing::sheets::write(page, c.job, c.start, o, c.sheet)
        }),
        Command::Cabinet => showing::cabinets::write(page, t.count(), o),
        Command::May => on_job(page, inputs, second, |page, c| {
            Ok(asking::choices::may(page, c, t.person()))
        }),
        Command::Ask => on_job(page, inputs, second, |page, c| {
            Ok(asking::entries::ask(page, c, t.entry()))
        }),
        Command::Take => on_job(page, inputs, second, |page, c| {
            asking::entries::take(page, c, t.entry(), o.at)
        }),
        Command::Run => on_job(page, inputs, second, |page, c| {
            running::runs::run(page, c, o)
        }),
        Command::Finished => on_job(page, inputs, second, |page, c| {
            Ok(running::runs::finished(page, c))
        }),
        Command::Ends => on_job(page, inputs, second, |page, c| {
            Ok(running::runs::ends(page, c, t.markings()))
        }),
        Command::Fold => on_job(page, inputs, second, |page, c| {
            recording::folds::fold(page, c, o, t.never)
        }),
        Command::Join => recording::folds::join(page, t.count(), first, second, o),
        Command::Apply => apply(page, t, inputs),
        Command::Restore => on_job(page, inputs, third, |page, c| {
            recording::applying::restore(page, c, second, o)
        }),
        Command::Record => Ok(recording::folds::show(page, first)),
        Command::Marking => show_marking(page, first),
        Command::Entries => Ok(running::listing::entries(page, first)),
        Command::Lap => on_job(page, inputs, second, |page, c| {
            Ok(running::laps_told::lap(page, c, third))
        }),
        Command::Track => on_job(page, inputs, second, |page, c| {
            Ok(running::tracks::track(page, c))
        }),
        Command::Sample => sample(page, o),
        Command::Help => help(page, o.at),
    }
}
