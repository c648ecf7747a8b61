// Markings as files of 24 bytes, and the one from which nothing is waited for.
ghost use Rattle.std.specs.Prelude.{◌≡◌, ◌≤◌};
ghost use Rattle.sets.specs.Sets.{full};

use files::complaints::Complained;
use files::writing::{Target, store_to};
use moves::Marking;
use output::page::Page;
use sets::full;

// The marking as body 2 of a sheet has it, to its file.
pub fn keep_marking(page: &Page, t: Target, m: Marking) -> Result<(), Complained> {
    let mut room = [0u8; 24];
    bodies::write_marking(m, &mut room, 0);
    store_to(&page.rt(), t, &room)
}

// After the answer's own lines.
pub fn say_kept(page: &mut Page, t: Target) {
    if t.at.is_some() {
        writeln!(page, "wrote: 24 bytes");
    }
}

// All n steps are done and included: an entry is kept back only by what keeps it back from every marking.
pub fn all_done(n: u64) -> Marking
    requires { n ≤ 64 }
    ensures done { result.done ≡ full n }
    ensures due { result.due ≡ 0 }
    ensures included { result.included ≡ full n }
{
    let all = full(n);
    Marking {
        done: all,
        due: 0,
        included: all,
    }
}
