// The border to C, which include/ulzhartep.h declares. A graph is lent as one block; markings, entries and states go by value; bytes are
// lent with their length; an answer is a struct of words. Lent memory is written only where the number is 0.
#![tactic(auto)]

ghost use Rattle.std.specs.Prelude.{◌≡◌, length};
ghost use Rattle.moves.specs.First.{number_of_verdict};
ghost use Rattle.moves.specs.Move.{number_of_asked, waiting_of_asked, number_of_move, waiting_of_move, marking_of_move};
ghost use Rattle.rules.specs.Graph.{graph_of, graph_verdict};
ghost use Rattle.rules.specs.Answers.{the_asked, the_move, the_ending, number_of_ending};
ghost use Rattle.greying.specs.Greying.{the_choice, the_choice_of_all, number_of_choice, steps_of_choice};
ghost use Rattle.kept.specs.Keep.{the_kept};
ghost use Rattle.journal.specs.Run.{the_run, number_of_run, waiting_of_run, index_of_run, marking_of_run};
ghost use Rattle.journal.specs.Walk.{stride_at, number_of_walked, entry_of_walked};
ghost use Rattle.records.specs.Answers.{the_join, the_application, number_of_recorded, number_of_applied, marking_of_applied};
ghost use Rattle.spelling.specs.Bytes.{the_reading, room_of};
ghost use Rattle.folding.specs.Answers.{the_fold, the_restoring};
ghost use Rattle.reading.specs.Reading.{first_of};
ghost use Rattle.sheet.specs.Sheet.{read_verdict, if_clear, block_read, the_written, room_after, number_of_written, length_of_written};
ghost use Rattle.cabinet.specs.Cabinet.{the_cabinet, cabinet_after};
ghost use Rattle.deadend.specs.DeadEnd.{the_ends, store_after, number_of_ends, verdict_of_ends, fewest_of_ends, looked_of_ends};
ghost use Rattle.tracker.specs.Tracker.{the_start, the_idle, the_step, number_of_tracked, waiting_of_tracked};
ghost use Rattle.answers.specs.Values.{finished_of_ending, ended_of_walked, length_of_spelling};
ghost use Rattle.answers.specs.Lent.{marking_of_words, marking_words, kept_out};
ghost use Rattle.answers.specs.Folded.{record_in, record_of, spell_verdict, bytes_out, words_out};
ghost use Rattle.onward.specs.Tracks.{track_in, no_track, track_of_tracked};
ghost use Rattle.onward.specs.Endless.{LapTold};

use answers::{Allowed, Asked, Ending, Kept, Moved, Ran, Walked, Written, folded, lent, told};
use moves::{Entry, Marking};
use onward::{Ends, Lapped, Track, Tracked, tracks};
use rules::Job;

// Refusals 2, 4, 6.
#[unsafe(no_mangle)]
pub extern "C" fn ulz_check(g: &Job) -> u64
    ensures { result ≡ number_of_verdict (graph_verdict (graph_of g.now)) }
{
    let v = rules::check(g);
    told::verdict(v)
}

// Refusals 2, 4, 6, 8, 11 to 15.
#[unsafe(no_mangle)]
pub extern "C" fn ulz_ask(g: &Job, m: Marking, e: Entry) -> Asked
    ensures number_value { result.number ≡ number_of_asked (the_asked (graph_of g.now) m e) }
    ensures waiting_value { result.waiting ≡ waiting_of_asked (the_asked (graph_of g.now) m e) }
    ensures lent { g.exit.now ≡ g.entry.now }
{
    let o = rules::ask(g, m, e);
    told::asked(o)
}

// Refusals 2, 4, 6, 8, 11.
#[unsafe(no_mangle)]
pub extern "C" fn ulz_allowed_to(g: &Job, m: Marking, person: u64) -> Allowed
    ensures number_value { result.number ≡ number_of_choice (the_choice (graph_of g.now) m person) }
    ensures steps_value { result.steps ≡ steps_of_choice (the_choice (graph_of g.now) m person) }
    ensures lent { g.exit.now ≡ g.entry.now }
{
    let o = greying::allowed_to(g, m, person);
    told::allowed(o)
}

// Refusals 2, 4, 6, 8.
#[unsafe(no_mangle)]
pub extern "C" fn ulz_allowed_to_someone(g: &Job, m: Marking) -> Allowed
    ensures number_value { result.number ≡ number_of_choice (the_choice_of_all (graph_of g.now) m) }
    ensures steps_value { result.steps ≡ steps_of_choice (the_choice_of_all (graph_of g.now) m) }
    ensures lent { g.exit.now ≡ g.entry.now }
{
    let o = greying::allowed_to_someone(g, m);
    told::allowed(o)
}

// As `ulz_ask`, and if it is allowed the marking after.
#[unsafe(no_mangle)]
pub extern "C" fn ulz_take(g: &Job, m: Marking, e: Entry) -> Moved
    ensures number_value { result.number ≡ number_of_move (the_move (graph_of g.now) m e) }
    ensures waiting_value { result.waiting ≡ waiting_of_move (the_move (graph_of g.now) m e) }
    ensures marking_value { result.marking ≡ marking_of_move (the_move (graph_of g.now) m e) }
{
    let asked = rules::ask(g, m, e);
    let o = rules::inner::take_asked(g, m, e, asked);
    told::moved(o)
}

// Refusals 2, 4, 6, 8.
#[unsafe(no_mangle)]
pub extern "C" fn ulz_finished(g: &Job, m: Marking) -> Ending
    ensures number_value { result.number ≡ number_of_ending (the_ending (graph_of g.now) m) }
    ensures finished_value { result.finished ≡ finished_of_ending (the_ending (graph_of g.now) m) }
{
    let o = rules::finished(g, m);
    told::ending(o)
}

// As `ulz_take`, and the marking is changed where it lies.
#[unsafe(no_mangle)]
pub extern "C" fn ulz_keep<'a, 'b>(g: &'a Job, m: &'b mut [u64; 3], e: Entry) -> Kept
    ensures number_value { result.number ≡ number_of_move (the_kept (graph_of g.now) (marking_of_words m.old) e).answer }
    ensures waiting_value { result.waiting ≡ waiting_of_move (the_kept (graph_of g.now) (marking_of_words m.old) e).answer }
    ensures m_after { m.new ≡ kept_out (the_kept (graph_of g.now) (marking_of_words m.old) e) m.old }
{
    let before = lent::marking(m);
    let k = kept::kept_after(before, g, e);
    lent::keep(k, m)
}

// ---- journals

// Refusals 2, 4, 6, 7, 8, 11 to 15.
#[unsafe(no_mangle)]
pub extern "C" fn ulz_run<'a, 'b>(g: &'a Job, m: Marking, journal: &'b [u8]) -> Ran
    ensures number_value { result.number ≡ number_of_run (the_run (graph_of g.now) m journal.now) }
    ensures waiting_value { result.waiting ≡ waiting_of_run (the_run (graph_of g.now) m journal.now) }
    ensures entries_value { result.entries ≡ index_of_run (the_run (graph_of g.now) m journal.now) }
    ensures marking_value { result.marking ≡ marking_of_run (the_run (graph_of g.now) m journal.now) }
{
    let o = journal::run(g, m, journal);
    told::ran(o)
}

// What a walk that stands at `place` says. Refusal 7.
#[unsafe(no_mangle)]
pub extern "C" fn ulz_walk(journal: &[u8], place: usize) -> Walked
    ensures number_value { result.number ≡ number_of_walked (stride_at journal.now place).said }
    ensures ended_value { result.ended ≡ ended_of_walked (stride_at journal.now place).said }
    ensures result_value { result.entry ≡ entry_of_walked (stride_at journal.now place).said }
{
    let s = journal::walk_at(journal, place);
    told::walked(s.said)
}

// The stem, then the lap without end. Refusals 2, 4, 6, 7, 8, 17, 11 to 15.
#[unsafe(no_mangle)]
pub extern "C" fn ulz_lap<'a, 'b, 'c>(
    g: &'a Job,
    m: Marking,
    stem: &'b [u8],
    lap: &'c [u8],
) -> Lapped
    ensures { LapTold (graph_of g.now) m stem.now lap.now result }
{
    let o = laps::lap(g, m, stem, lap);
    onward::endless::lapped(o)
}

// Can the job still end? What the search finds is written into the store. Refusals 2, 4, 6, 8, 22.
#[unsafe(no_mangle)]
pub extern "C" fn ulz_can_end<'a, 'b>(g: &'a Job, m: Marking, store: &'b mut [u8]) -> Ends
    ensures number_value { result.number ≡ number_of_ends (the_ends (graph_of g.now) m store.old) }
    ensures verdict_value { result.verdict ≡ verdict_of_ends (the_ends (graph_of g.now) m store.old) }
    ensures fewest_value { result.fewest ≡ fewest_of_ends (the_ends (graph_of g.now) m store.old) }
    ensures looked_value { result.looked ≡ looked_of_ends (the_ends (graph_of g.now) m store.old) }
    ensures store_after { store.new ≡ store_after (graph_of g.now) m store.old }
{
    let o = deadend::can_end(g, m, store);
    onward::reach::told(o)
}

// ---- records

// Refusals 2, 4, 6, 7.
#[unsafe(no_mangle)]
pub extern "C" fn ulz_fold<'a, 'b, 'c>(g: &'a Job, journal: &'b [u8], out: &'c mut [u8; 65]) -> u64
    ensures value { result ≡ number_of_recorded (the_fold (graph_of g.now) journal.now) }
    ensures out_after { out.new ≡ bytes_out (the_fold (graph_of g.now) journal.now) out.old }
{
    let o = folding::fold(g, journal);
    folded::spell(o, out)
}

// Refusals 2, 10.
#[unsafe(no_mangle)]
pub extern "C" fn ulz_join<'a, 'b, 'c>(
    n: u64,
    a: &'a [u8],
    b: &'b [u8],
    out: &'c mut [u8; 65],
) -> u64
    ensures value { result ≡ number_of_recorded (the_join n (record_in a.now) (record_in b.now)) }
    ensures out_after { out.new ≡ bytes_out (the_join n (record_in a.now) (record_in b.now)) out.old }
{
    let earlier = folded::record_in(a);
    let later = folded::record_in(b);
    let o = earlier.join(later, n);
    folded::spell(o, out)
}

// Refusals 2, 8, 10, 16.
#[unsafe(no_mangle)]
pub extern "C" fn ulz_apply(n: u64, bytes: &[u8], m: Marking) -> Moved
    ensures number_value { result.number ≡ number_of_applied (the_application n (record_in bytes.now) m) }
    ensures waiting_value { result.waiting ≡ 0 }
    ensures marking_value { result.marking ≡ marking_of_applied (the_application n (record_in bytes.now) m) }
{
    let x = folded::record_in(bytes);
    let o = x.apply(m, n);
    told::applied(o)
}

// Refusals 2, 10.
#[unsafe(no_mangle)]
pub extern "C" fn ulz_record_read<'a, 'b>(n: u64, bytes: &'a [u8], words: &'b mut [u64; 9]) -> u64
    ensures value { result ≡ number_of_recorded (the_reading n bytes.now) }
    ensures words_after { words.new ≡ words_out (the_reading n bytes.now) words.old }
{
    let o = spelling::read(n, bytes);
    folded::spread(o, words)
}

// Refusals 2, 10, 18.
#[unsafe(no_mangle)]
pub extern "C" fn ulz_record_write<'a, 'b>(
    n: u64,
    words: &'a [u64; 9],
    room: &'b mut [u8],
) -> Written
    ensures number_value { result.number ≡ number_of_verdict (spell_verdict n words.now room.old) }
    ensures length_value { result.length ≡ length_of_spelling (spell_verdict n words.now room.old) }
    ensures room_after { room.new ≡ room_of (spell_verdict n words.now room.old)
        (record_of words.now) room.old }
{
    let x = folded::record_of(words);
    let v = spelling::write(n, x, room);
    told::spelt(v)
}

// A record, then the rest of a journal. Refusals 2, 4, 6, 7, 8, 10, 16, then 11 to 15.
#[unsafe(no_mangle)]
pub extern "C" fn ulz_restore<'a, 'b, 'c>(
    g: &'a Job,
    bytes: &'b [u8],
    journal: &'c [u8],
    m: Marking,
) -> Ran
    ensures number_value { result.number ≡ number_of_run
        (the_restoring (graph_of g.now) (record_in bytes.now) journal.now m) }
    ensures waiting_value { result.waiting ≡ waiting_of_run
        (the_restoring (graph_of g.now) (record_in bytes.now) journal.now m) }
    ensures entries_value { result.entries ≡ index_of_run
        (the_restoring (graph_of g.now) (record_in bytes.now) journal.now m) }
    ensures marking_value { result.marking ≡ marking_of_run
        (the_restoring (graph_of g.now) (record_in bytes.now) journal.now m) }
{
    let x = folded::record_in(bytes);
    let o = folding::restore(g, x, journal, m);
    told::ran(o)
}

// ---- sheets

// Refusals 1 to 6.
#[unsafe(no_mangle)]
pub extern "C" fn ulz_read<'a, 'b, 'c>(sheet: &'a [u8], g: &'b mut Job, m: &'c mut [u64; 3]) -> u64
    ensures value { result ≡ number_of_verdict (read_verdict sheet.now) }
    ensures g_after { g.new ≡ if_clear (read_verdict sheet.now) (block_read sheet.now) g.old }
    ensures m_after { m.new ≡ if_clear (read_verdict sheet.now)
        (marking_words (first_of sheet.now)) m.old }
{
    let o = sheet::read(sheet, g);
    lent::first(o, m)
}

// Refusals 2, 4, 6, 18.
#[unsafe(no_mangle)]
pub extern "C" fn ulz_write<'a, 'b>(g: &'a Job, m: Marking, room: &'b mut [u8]) -> Written
    ensures number_value { result.number ≡ number_of_written (the_written (graph_of g.now) m (length room.old)) }
    ensures length_value { result.length ≡ length_of_written (the_written (graph_of g.now) m (length room.old)) }
    ensures room_after { room.new ≡ room_after (graph_of g.now) m room.old }
{
    let o = sheet::write(g, m, room);
    told::written(o)
}

// The sheet of the cabinet's job. Refusals 30, 18.
#[unsafe(no_mangle)]
pub extern "C" fn ulz_cabinet(arms: u64, room: &mut [u8]) -> Written
    ensures number_value { result.number ≡ number_of_written (the_cabinet arms (length room.old)) }
    ensures length_value { result.length ≡ length_of_written (the_cabinet arms (length room.old)) }
    ensures room_after { room.new ≡ cabinet_after arms room.old }
{
    let o = cabinet::write(arms, room);
    told::written(o)
}

// ---- the tracker

// Refusals 2, 4, 6, 8.
#[unsafe(no_mangle)]
pub extern "C" fn ulz_track_start(g: &Job, m: Marking) -> Tracked
    ensures number_value { result.number ≡ number_of_tracked (the_start (graph_of g.now) m) }
    ensures waiting_value { result.waiting ≡ waiting_of_tracked (the_start (graph_of g.now) m) }
    ensures track_value { result.track ≡ track_of_tracked no_track (the_start (graph_of g.now) m) }
{
    let o = tracker::start(g, m);
    tracks::tracked(tracks::NOWHERE, o)
}

// Refusals 2, 4, 6, 8, 9.
#[unsafe(no_mangle)]
pub extern "C" fn ulz_track_idle(g: &Job, t: Track) -> Tracked
    ensures number_value { result.number ≡ number_of_tracked (the_idle (graph_of g.now) (track_in t)) }
    ensures waiting_value { result.waiting ≡ waiting_of_tracked (the_idle (graph_of g.now) (track_in t)) }
    ensures track_value { result.track ≡ track_of_tracked t (the_idle (graph_of g.now) (track_in t)) }
{
    let o = tracker::idle(g, tracks::track(t));
    tracks::tracked(t, o)
}

// Refusals 2, 4, 6, 8, 9, 11 to 15.
#[unsafe(no_mangle)]
pub extern "C" fn ulz_track_step(g: &Job, t: Track, e: Entry) -> Tracked
    ensures number_value { result.number ≡ number_of_tracked (the_step (graph_of g.now) (track_in t) e) }
    ensures waiting_value { result.waiting ≡ waiting_of_tracked (the_step (graph_of g.now) (track_in t) e) }
    ensures track_value { result.track ≡ track_of_tracked t (the_step (graph_of g.now) (track_in t) e) }
{
    let o = tracker::advance(g, tracks::track(t), e);
    tracks::tracked(t, o)
}
