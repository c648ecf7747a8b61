// Records by their sets: every formula is over whole sets, with no branch.
ghost use Rattle.std.specs.Prelude.{◌≡◌, true, ◌≤◌};
ghost use Rattle.moves.specs.Move.{within1to};
ghost use Rattle.records.specs.Answers.{applied_on, the_application};
ghost use Rattle.records.specs.Records.{applies, gives, well_formed, compose, sorted, tidy, join};

use crate::Record;
use moves::{Denied, Marking, Refusal};

// The record that no marking suits.
pub const NEVER: Record = Record {
    never: true,
    ..Record::IDENTITY
};

// Can a graph have n steps?
pub fn counts(n: u64) -> bool
    ensures { result ≡ within1to n 64 }
{
    (1 <= n) & (n <= 64)
}

#[tactic(auto, using(crate::specs::WellFormed::well_formed_sum))]
pub fn well_formed(n: u64, r: Record) -> bool
    requires { n ≤ 64 }
    ensures { result ≡ well_formed n r }
{
    let all = r.needin
        | r.needex
        | r.needout
        | r.done
        | r.dueset
        | r.dueclear
        | r.inset
        | r.inclear;
    let clash = (r.needin & r.needout)
        | (r.needex & r.needout)
        | (r.done & r.needex)
        | (r.inset & r.needin)
        | (r.inset & r.inclear)
        | (r.dueset & r.dueclear);
    let inside = sets::full(n);
    (all <= inside) & (clash == 0) & (!r.never | (all == 0))
}

// Does the record apply?
#[tactic(auto, using(crate::specs::Laws::applies_lacks))]
pub fn suits(r: Record, m: Marking) -> bool
    ensures { result ≡ applies r m }
{
    let open = r.needout & m.included;
    let lack = (r.needin ^ (r.needin & m.included))
        | (r.needex ^ (r.needex & m.done))
        | (open ^ (open & m.done));
    !r.never & (lack == 0)
}

// What it gives.
pub fn given(r: Record, m: Marking) -> Marking
    ensures { result ≡ gives r m }
{
    Marking {
        done: m.done | r.done,
        due: (m.due ^ (m.due & r.dueclear)) | r.dueset,
        included: (m.included ^ (m.included & r.inclear)) | r.inset,
    }
}

// A well-formed record at a marking that fits. Refusal 16.
pub fn applied(r: Record, m: Marking) -> Result<Marking, Denied>
    ensures { result ≡ applied_on r m }
{
    if !suits(r, m) {
        return Err(Denied {
            marking: m,
            refusal: Refusal::NotApplied,
        });
    }
    Ok(given(r, m))
}

// A well-formed record at any marking. Refusals 8, 16.
pub fn applied_at(n: u64, r: Record, m: Marking) -> Result<Marking, Denied>
    requires { (within1to n 64 ≡ true) × (well_formed n r ≡ true) }
    ensures { result ≡ the_application n r m }
{
    if !moves::inner::fits(n, m) {
        return Err(Denied::from(Refusal::Outside));
    }
    applied(r, m)
}

// What a and then b need and do, with nothing tidied.
pub fn composed(a: Record, b: Record) -> Record
    ensures { result ≡ compose a b }
{
    let shut = a.inclear ^ (a.inclear & a.inset);
    let asked = b.needex | (b.needout & a.inset);
    let changed = a.inset | a.inclear;
    let left = b.needout ^ (b.needout & changed);
    Record {
        never: a.never | b.never | (b.needin & shut != 0),
        needin: a.needin | (b.needin ^ (b.needin & a.inset)),
        needex: a.needex | (asked ^ (asked & a.done)),
        needout: a.needout | (left ^ (left & a.done)),
        done: a.done | b.done,
        dueset: (a.dueset ^ (a.dueset & b.dueclear)) | b.dueset,
        dueclear: a.dueclear | b.dueclear,
        inset: (a.inset ^ (a.inset & b.inclear)) | b.inset,
        inclear: a.inclear | b.inclear,
    }
}

// A record that is not never, with no set that says what another has said.
pub fn in_order(r: Record) -> Record
    ensures { result ≡ sorted r }
{
    let ex = r.needex | (r.needin & r.needout);
    let settled = r.needin | r.needex;
    Record {
        never: false,
        needin: r.needin,
        needex: ex,
        needout: r.needout ^ (r.needout & settled),
        done: r.done ^ (r.done & ex),
        dueset: r.dueset,
        dueclear: r.dueclear ^ (r.dueclear & r.dueset),
        inset: r.inset ^ (r.inset & r.needin),
        inclear: r.inclear ^ (r.inclear & r.inset),
    }
}

#[tactic(auto, unfolding(crate::specs::Records::tidy))]
pub fn tidied(r: Record) -> Record
    ensures { result ≡ tidy r }
{
    if r.never { NEVER } else { in_order(r) }
}

#[tactic(auto, unfolding(crate::specs::Records::join))]
pub fn joined(a: Record, b: Record) -> Record
    ensures { result ≡ join a b }
{
    tidied(composed(a, b))
}
