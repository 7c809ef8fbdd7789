// What the rows and the five steps ask of a state.

ghost use Rattle.std.specs.Prelude.{◌≡◌};
ghost use Rattle.table.specs.Rows.{rows};
ghost use Rattle.pala.specs.Rules.{freshest};
ghost use Rattle.pala.specs.Steps.{fresh_epoch};
ghost use Rattle.rules.specs.Standing.{chosen, standing_by};

use crate::clocks::clock_of;
use crate::columns::{Columns, columns_of};
use crate::{Standing, Top};
use table::{Place, State};

// "Freshest: the firm block of highest epoch; of equals the lowest place."
pub fn freshest(s: &State) -> Top
    ensures { result ≡ record { place = record { 0 = freshest s.now.n (rows s.now) }; epoch = record { 0 = fresh_epoch s.now } } }
{
    columns_of(s).tops().fresh
}

// "the lowest place that may be voted for"
pub fn ballot(s: &State) -> Option<Place>
    ensures { result ≡ chosen s.now }
{
    let c = columns_of(s);
    (0..c.size).map(Place).find(|p| c.votable(s, *p))
}

// All that the five steps need, of a table's columns and of what stands beside it in the state: its promise is of any columns.
pub fn standing(c: &Columns, s: &State) -> Standing
    ensures { result ≡ standing_by c.now s.now.clocks s.now.n s.now.local.0 s.now.kept.0 }
{
    let tops = c.tops();
    let candidate = c.parent(tops.normal.place);
    Standing {
        fresh: tops.fresh.epoch,
        clock: clock_of(s),
        candidate,
        forward: c.descends(candidate, s.kept),
        back: c.descends(s.kept, candidate),
    }
}
