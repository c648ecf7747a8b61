// A sheet whose layout fits, with the counts that it says, which fit: what is asked of its other bodies.
ghost use Rattle.std.specs.Prelude.{◌≡◌, true, replicate};
ghost use Rattle.arrows.specs.Arrows.{table_of};
ghost use Rattle.reading.specs.Reading.{is_six, arrows_on, labels_part, own_steps, labels_match, bodies_match, sets_inside};
ghost use Rattle.reading.specs.Reading.{arrows_right, kinds_right};
ghost use Rattle.reading.specs.Laws.{Opened, Matched};

use crate::first_marking;
use tables::Counts;

#[derive(Clone, Copy)]
pub struct Sheet<'a> {
    pub bytes: &'a [u8],
    pub counts: Counts,
    ghost opened: { Opened bytes.now counts },
}

impl<'a> Sheet<'a> {
    // Is there a body 6, which says the actions of the steps?
    #[tactic(auto, using(crate::specs::Laws::placed_long))]
    fn has_labels(&self) -> bool
        ensures { result ≡ is_six self.now.bytes.now }
    {
        self.bytes[0] == 6
    }

    // Is body 6, where there is one, of the length that the counts ask for?
    fn labels_match(&self) -> bool
        ensures { result ≡ labels_match self.now.bytes.now }
    {
        if self.has_labels() {
            layout::size(self.bytes, 5) == self.counts.steps as usize
        } else {
            true
        }
    }

    #[tactic(auto, using(crate::specs::Laws::placed_long))]
    pub fn bodies_match(&self) -> bool
        ensures { result ≡ bodies_match self.now.bytes.now }
    {
        (layout::size(self.bytes, 2) == 2 * (self.counts.actions as usize))
            & (layout::size(self.bytes, 3) == 2 * (self.counts.people as usize))
            & self.labels_match()
    }

    // Body 6; nothing of a sheet that has none.
    pub fn labels_part(&self) -> &'a [u8]
        ensures { result.now ≡ labels_part self.now.bytes.now }
    {
        if self.has_labels() {
            layout::body(self.bytes, 5)
        } else {
            &self.bytes[0..0]
        }
    }

    // How many steps are their own actions: all where no body says which they have.
    pub fn own_steps(&self) -> usize
        ensures { result ≡ own_steps self.now.bytes.now }
    {
        if self.has_labels() {
            0
        } else {
            self.counts.steps as usize
        }
    }

    pub fn sets_inside(&self) -> bool
        requires { Matched self.now.bytes.now }
        ensures { result ≡ sets_inside self.now.bytes.now }
    {
        moves::inner::fits(self.counts.steps, first_marking(self.bytes))
            & bodies::role_sets_fit(layout::body(self.bytes, 2), self.counts.roles)
            & bodies::role_sets_fit(layout::body(self.bytes, 3), self.counts.roles)
            & bodies::actions_fit(self.labels_part(), self.counts.actions)
    }

    // The table, empty at first, holds the arrows if they are right.
    pub fn arrows_right(&self, table: &mut [u64; 256]) -> bool
        requires { table.old ≡ replicate 256 0 }
        ensures value { result ≡ arrows_right self.now.bytes.now }
        ensures table_after { result ≡ true → table.new ≡ table_of (arrows_on self.now.bytes.now) }
    {
        arrows::read(layout::body(self.bytes, 4), self.counts.steps as u8, table)
    }

    pub fn kinds_right(&self, table: &[u64; 256]) -> bool
        requires { table.now ≡ table_of (arrows_on self.now.bytes.now) }
        ensures { result ≡ kinds_right self.now.bytes.now }
    {
        let mut both = 0;
        // By number: the two tables lie 64 rows apart in one.
        for a in 0..self.counts.steps as usize {
            both |= table[128 + a] & table[192 + a];
        }
        both == 0
    }
}
