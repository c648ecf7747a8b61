// What each command answers, in a phrase and in a few lines.
use commands::Command;

pub fn phrase_of(c: Command) -> &'static str {
    match c {
        Command::Check => "is the sheet in order?",
        Command::Show => "what the sheet holds, in words",
        Command::Write => "writes the sheet of what was read",
        Command::Cabinet => "writes the sheet of the cabinet's own job, for a mast with ARMS arms",
        Command::May => "who may take which step after the journal",
        Command::Ask => "may the person take the step in the role after the journal?",
        Command::Take => "the same, and an entry that is allowed is put behind the journal",
        Command::Run => "where the journal ends, or its first entry that is not allowed",
        Command::Finished => "is the job finished after the journal?",
        Command::Ends => "can the job still end after the journal, and in how many entries?",
        Command::Fold => "folds the journal into a record",
        Command::Join => "the record of the first, then the second, for N steps",
        Command::Apply => "what the record makes of the marking, for N steps",
        Command::Restore => "goes on from a record with the rest of a journal",
        Command::Record => "what the record needs and does",
        Command::Marking => "the three sets of a marking",
        Command::Entries => "the entries of a journal, in words",
        Command::Lap => "is the stem, then the lap without end, accepted?",
        Command::Track => "the tracker's rank and flag, entry by entry",
        Command::Sample => "writes a small job's files, and walks through the accident",
        Command::Help => "this list, or a command's own page",
    }
}

const CHECK: &str = "\
    Prints 'sheet: ok' and the number of steps, people, roles, actions and arrows.\n\
    Refusals: 1 to 6.\n";

const SHOW: &str = "\
    Prints the roles of each person and each action, each step with its action, the roles of that and its place in the first\n\
    marking, each arrow in words, and whether the job is finished there; if not, the steps to do, those both due and included.\n\
    Refusals: 1 to 6.\n";

const WRITE: &str = "\
    Reads the sheet, of six bodies or of five, and writes the graph and the first marking that it holds, in six: the same bytes,\n\
    where it had six. In five bodies every step is its own action.\n\
    Refusals: 1 to 6.\n";

const CABINET: &str = "\
    Step 0 reboots, step K checks arm K, of which arm 1 is the lowest, and step ARMS + 1 publishes. At the start, and again after\n\
    each reboot, every check is due and only the lowest is included; a check makes way for the next one, the last for publishing.\n\
    Person 0, role 0, is the climber and checks; person 1, role 1, sits at the desk and publishes; either of them may reboot.\n\
    Refusals: 30 (ARMS is not 2 to 16).\n";

const MAY: &str = "\
    Runs the journal, then prints a line 'may' for each person and role that may take a step.\n\
    A step that nobody may take is 'blocked', with the reason: not included, what it waits for, or nobody holds its roles.\n\
    With PERSON, a number from 0, both lines are of that person alone; one who is not there is refused with 11.\n\
    It starts at the sheet's first marking, or with --from at that of a file of 24 bytes.\n\
    Refusals: 1 to 6, 7, 8, then 11 to 15 of the first entry not allowed.\n";

const ASK: &str = "\
    Prints 'allowed: yes' and the entry, with its place behind those of the journal. Nothing is written.\n\
    A refused entry is printed with what it waits for, if it does, and the marking before it.\n\
    PERSON, STEP and ROLE are numbers from 0; one that is too large for an entry is refused with 11 as it is.\n\
    It starts at the sheet's first marking, or with --from at that of a file of 24 bytes.\n\
    Refusals: 1 to 6, 7 (a full journal too), 8, then 11 to 15 of the first entry not allowed, the one asked for last.\n";

const TAKE: &str = "\
    Prints 'taken: yes', the entry, the marking after it and whether the job is then finished. The entry's three bytes stand behind\n\
    the journal and on the device before that is printed. What is refused is what 'ask' refuses, and leaves the journal as it was.\n\
    A journal that is not there is an empty one, and is made for its first entry. It is an ordinary file and no other input.\n\
    Two takes of one journal go one after the other: the journal is locked, and its folder with it, until the program ends.\n\
    PERSON, STEP, ROLE and --from are those of 'ask'.\n\
    Refusals: 1 to 6, 7 (a full journal too), 8, then 11 to 15 of the first entry not allowed, the one to take last.\n";

const RUN: &str = "\
    Prints the number of entries, the marking at the end (done, due, included), and whether the job is finished.\n\
    A refused entry is printed with what it waits for, if it does, and the marking before it.\n\
    OUT gets the marking at the end, 24 bytes, and --from takes such a file to start at.\n\
    Refusals: 1 to 6, 7, 8, then 11 to 15 of the first entry not allowed.\n";

const FINISHED: &str = "\
    Prints 'finished: yes', or 'finished: no' and the steps to do, those both due and included.\n\
    With --status the exit status is 0 for yes, 1 for no and 2 for anything else, a refusal among them.\n\
    Refusals: 1 to 6, 7, then 11 to 15 of the first entry not allowed.\n";

const ENDS: &str = "\
    Runs the journal and prints where it ends, then 'can end: yes' and the fewest entries that lead from there to a finished job,\n\
    or 'can end: no' where no entries do. 'looked at' is the number of markings that were looked at on the way.\n\
    What is found is kept in a store for MARKINGS markings, 1 to 2048, and for 2048 where the number is left out. Where that is\n\
    full too early to tell, the answer is 'can end: undecided'.\n\
    It starts at the sheet's first marking, or with --from at that of a file of 24 bytes. With --status the exit status is\n\
    0 for yes, 1 for no and 2 for anything else, undecided and a refusal among them.\n\
    Refusals: 1 to 6, 7, 8, then 11 to 15 of the first entry not allowed, then 22 (MARKINGS is not 1 to 2048).\n";

const FOLD: &str = "\
    Prints the record and writes its 65 bytes to OUT. It acts as the journal does, at every marking.\n\
    Where no marking allows the journal, it says because of which entry and writes nothing; with --never it writes the record\n\
    that says so.\n\
    Refusals: 1 to 6, 7.\n";

const JOIN: &str = "\
    Prints the joined record and writes its 65 bytes to OUT.\n\
    Refusals: 2 (N is not 1 to 64), 10 (a record is not well-formed for N steps).\n";

const APPLY: &str = "\
    MARKING has 24 bytes: done, due, included, 8 bytes each, lowest byte first. Prints the marking after; OUT gets it.\n\
    Refusals: 2, 8, 10, and 16 where the record does not apply, with the marking as it was.\n";

const RESTORE: &str = "\
    From the sheet's first marking: the record, then the entries. Prints what 'run' prints; entries count in the rest.\n\
    Refusals: 1 to 6, 7, 10, 16 where the record does not apply, then 11 to 15 of the first entry not allowed.\n";

const RECORD: &str = "\
    Prints the record, read for 64 steps: what it needs of a marking, and what it then does to it.\n\
    Refusals: 10.\n";

const MARKING: &str = "\
    Prints which steps are done, due and included. A marking has 24 bytes; 'run' and 'apply' write one, --from takes one.\n";

const ENTRIES: &str = "\
    Prints the number of entries, then each with its person, step and role, whatever a sheet would say to it.\n\
    Refusals: 7.\n";

const LAP: &str = "\
    Prints 'accepted' where each step that becomes due is later done or seen excluded, else 'starved' and the lowest step\n\
    that stays due and included and is never done.\n\
    A refused entry is printed with its pass: 0 stem, 1 first lap, 2 second lap, 3 a later one.\n\
    It starts at the sheet's first marking, or with --from at that of a file of 24 bytes. With --status the exit status is\n\
    0 for accepted, 1 for starved and 2 for anything else, a refusal among them.\n\
    Refusals: 1 to 6, 7, 8, 17 (the lap is empty), then 11 to 15.\n";

const TRACK: &str = "\
    Prints the rank and the flag at the start and after each entry, then the marking. Ranks count from 1: step 0 has rank 1.\n\
    A refused entry is printed with the rank, flag and marking before it.\n\
    It starts at the sheet's first marking, or with --from at that of a file of 24 bytes.\n\
    Refusals: 1 to 6, 7, 8, then 11 to 15 of the first entry not allowed.\n";

const SAMPLE: &str = "\
    FOLDER ('sample', where none is named) is made if it is missing. Its files: job.sheet, start.marking, reboot.journal,\n\
    check.journal, publish.journal, day.journal (all three) and empty.journal.\n\
    Then the accident, line by line: a reboot must not lead to a publication before the order check, also not from a record.\n";

const HELP: &str = "\
    'ulz help COMMAND' and 'ulz COMMAND --help' print its use, what its lines mean and the numbers that it can be refused by.\n";

pub fn page_of(c: Command) -> &'static str {
    match c {
        Command::Check => CHECK,
        Command::Show => SHOW,
        Command::Write => WRITE,
        Command::Cabinet => CABINET,
        Command::May => MAY,
        Command::Ask => ASK,
        Command::Take => TAKE,
        Command::Run => RUN,
        Command::Finished => FINISHED,
        Command::Ends => ENDS,
        Command::Fold => FOLD,
        Command::Join => JOIN,
        Command::Apply => APPLY,
        Command::Restore => RESTORE,
        Command::Record => RECORD,
        Command::Marking => MARKING,
        Command::Entries => ENTRIES,
        Command::Lap => LAP,
        Command::Track => TRACK,
        Command::Sample => SAMPLE,
        Command::Help => HELP,
    }
}
