// The job for so many arms, as words of a block. How many there may be is asked by each function and stands in no type: docs/PROMISES.md
// names them, with what they take for granted.
ghost use Rattle.std.specs.Prelude.{◌≤◌, ◌<◌, ◌≡◌, length};
ghost use Rattle.rules.specs.Graph.{graph_of};
ghost use Rattle.cabinet.specs.Cabinet.{by_step, responses_at, includes_at, excludes_at, allows_at, holds_at, label_at, following, cabinet, at_first, arms_fit};
ghost use Rattle.cabinet.specs.Rows.{count_at, word_at};

use moves::Marking;
use rules::{ALLOWS, CONDITIONS, EXCLUDES, HOLDS, INCLUDES, LABELS, RESPONSES};
use sets::{single, span};

pub fn arms_fit(arms: u64) -> bool
    ensures { result ≡ arms_fit arms }
{
    (2 <= arms) & (arms <= 16)
}

// What stands in the row of step s.
#[tactic(auto, unfolding(crate::specs::Cabinet::by_step))]
fn by_step(arms: u64, s: u64, rebooting: u64, checking: u64, publishing: u64) -> u64
    requires { arms ≤ 16 }
    ensures { result ≡ by_step arms s rebooting checking publishing }
{
    if s == 0 {
        rebooting
    } else if s <= arms {
        checking
    } else if s == arms + 1 {
        publishing
    } else {
        0
    }
}

fn responses(arms: u64, s: u64) -> u64
    requires { arms ≤ 16 }
    ensures { result ≡ responses_at arms s }
{
    by_step(arms, s, span(1, arms + 1), 0, 0)
}

// The step that check k lets in.
fn following(arms: u64, k: u64) -> u64
    requires { (arms ≤ 16) × (k < 64) }
    ensures { result ≡ following arms k }
{
    let last = arms + 1;
    if k < arms { k + 1 } else { last }
}

fn includes(arms: u64, s: u64) -> u64
    requires { (arms ≤ 16) × (s < 64) }
    ensures { result ≡ includes_at arms s }
{
    let ground = 1;
    by_step(
        arms,
        s,
        span(ground, ground + 1),
        single(following(arms, s) as u8),
        0,
    )
}

fn excludes(arms: u64, s: u64) -> u64
    requires { (2 ≤ arms) × (arms ≤ 16) × (s < 64) }
    ensures { result ≡ excludes_at arms s }
{
    by_step(arms, s, span(2, arms + 2), single(s as u8), 0)
}

// Role 0 is the climber's, role 1 the desk's.
fn allows(arms: u64, a: u64) -> u64
    requires { arms ≤ 16 }
    ensures { result ≡ allows_at arms a }
{
    by_step(arms, a, 3, 1, 2)
}

fn holds(p: u64) -> u64
    ensures { result ≡ holds_at p }
{
    match p {
        0 => 1,
        1 => 2,
        _ => 0,
    }
}

fn label(arms: u64, s: u64) -> u64
    requires { arms ≤ 16 }
    ensures { result ≡ label_at arms s }
{
    by_step(arms, s, s, s, s)
}

#[tactic(auto, unfolding(crate::specs::Rows::count_at))]
fn count(arms: u64, at: usize) -> u64
    requires { arms ≤ 16 }
    ensures { result ≡ count_at arms at }
{
    match at {
        1 | 2 => 2,
        _ => arms + 2,
    }
}

// Word `at` of the block.
// A `match` on the place, and no closures: each table asks of another place.
#[tactic(auto, unfolding(crate::specs::Rows::word_at))]
fn word(arms: u64, at: usize) -> u64
    requires { (2 ≤ arms) × (arms ≤ 16) × (at < 404) }
    ensures { result ≡ word_at arms at }
{
    match at {
        ..CONDITIONS => count(arms, at),
        ..RESPONSES => 0,
        ..INCLUDES => responses(arms, (at - RESPONSES) as u64),
        ..EXCLUDES => includes(arms, (at - INCLUDES) as u64),
        ..ALLOWS => excludes(arms, (at - EXCLUDES) as u64),
        ..HOLDS => allows(arms, (at - ALLOWS) as u64),
        ..LABELS => holds((at - HOLDS) as u64),
        _ => label(arms, (at - LABELS) as u64),
    }
}

// Fills the block, word after word.
pub fn fill(arms: u64, block: &mut [u64])
    requires { (2 ≤ arms) × (arms ≤ 16) × (length block.old ≡ 404) }
    ensures { graph_of block.new ≡ cabinet arms }
{
    for (at, x) in block.iter_mut().enumerate() {
        *x = word(arms, at);
    }
}

pub fn at_first(arms: u64) -> Marking
    requires { arms ≤ 16 }
    ensures { result ≡ at_first arms }
{
    Marking {
        done: 0,
        due: span(1, arms + 1),
        included: single(0) | single(1),
    }
}
