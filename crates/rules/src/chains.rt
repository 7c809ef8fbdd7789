// "The rule reads down the ancestors, whose places fall": from a block to its parent, the place being the falling number.
// Each recursion stands alone in its return: as the end of one expression it stays a call, or a slower loop (tried, a seventh slower).

ghost use Rattle.std.specs.Prelude.{◌≡◌};
ghost use Rattle.pala.specs.Rules.{among, fall};
ghost use Rattle.rules.specs.Columns.{epoch_in, firm_by, mark_in, normal_by, up_in};

use crate::columns::Columns;
use table::Place;

// "its parent's plus 1"
const STEP: u32 = 1;

impl Columns {
    // "firm when it and every ancestor up to genesis is notarized"; the genesis is "notarized by decree"
    pub(crate) fn firm(&self, p: Place) -> bool
        ensures { result ≡ firm_by (up_in self.now) (mark_in self.now) p.0 }
    {
        if p.0 == 0 {
            return true;
        }
        if !self.row(p).enough {
            return false;
        }
        self.firm(self.parent(p))
    }

    // "A block is normal when its epoch is its parent's plus 1"; no sum that could wrap.
    pub(crate) fn normal(&self, p: Place) -> bool
        ensures { result ≡ normal_by (up_in self.now) (epoch_in self.now) p.0 }
    {
        let before = self.epoch(self.parent(p));
        let e = self.epoch(p);
        before < e && e.0 - before.0 == STEP
    }

    // Is a place the other "or descends from it"; as places fall, none below it does.
    pub(crate) fn descends(&self, p: Place, a: Place) -> bool
        ensures { result ≡ among a.0 (fall (up_in self.now) p.0) }
    {
        if p == a {
            return true;
        }
        if p < a {
            return false;
        }
        self.descends(self.parent(p), a)
    }
}
