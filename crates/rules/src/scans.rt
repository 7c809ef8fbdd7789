// Searches over the places of a table.

ghost use Rattle.std.specs.Prelude.{min, ◌≡◌};
ghost use Rattle.rules.specs.Columns.{epoch_in, mark_in, places, up_in, votable_by};
ghost use Rattle.rules.specs.Standing.{tops_by};

use crate::Top;
use crate::columns::Columns;
use table::{Place, ROWS, State};

// The freshest block, and M-104's "firm normal block of highest epoch"; the genesis where there is none.
#[derive(Clone, Copy)]
pub struct Tops {
    pub fresh: Top,
    pub normal: Top,
}

impl Columns {
    // "of highest epoch; of equals the lowest place": downward, once for both, and only a block that could win is asked for firmness.
    pub(crate) fn tops(&self) -> Tops
        ensures { result ≡ tops_by (min self.now.size places) (up_in self.now) (epoch_in self.now) (mark_in self.now) }
    {
        let mut fresh = self.top(Place(0));
        let mut normal = fresh;
        for k in (0..self.size.min(ROWS as u32)).rev() {
            let here = self.top(Place(k));
            let fresher = fresh.epoch <= here.epoch;
            let later = normal.epoch <= here.epoch && (k == 0 || self.normal(Place(k)));
            if (fresher || later) && self.firm(Place(k)) {
                if fresher {
                    fresh = here;
                }
                if later {
                    normal = here;
                }
            }
        }
        Tops { fresh, normal }
    }

    // "its epoch is the local epoch, its parent is firm, the parent's epoch is at least the bar, and the last epoch voted in isn't the
    // local one": firmness last, it costs most. The genesis is no block.
    pub(crate) fn votable(&self, s: &State, p: Place) -> bool
        ensures { result ≡ votable_by (up_in self.now) (epoch_in self.now) (mark_in self.now) s.now.local.0 s.now.bar.0 s.now.voted.0 p.0 }
    {
        let parent = self.parent(p);
        p.0 != 0
            && s.voted != s.local
            && self.epoch(p) == s.local
            && s.bar <= self.epoch(parent)
            && self.firm(parent)
    }
}
