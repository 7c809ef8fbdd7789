// "Then, always in this order": the five steps.

ghost use Rattle.std.specs.Prelude.{◌<◌, ◌≡◌};
ghost use Rattle.pala.specs.Counts.{top_epoch};
ghost use Rattle.pala.specs.Steps.{fresh_epoch, settled};

use rules::columns::columns_of;
use rules::steps::standing;
use table::{Epoch, State};

// The five steps, where there is an epoch above the freshest one.
pub fn settle(s: &mut State)
    requires { fresh_epoch s.old < top_epoch }
    ensures { s.new ≡ settled s.old }
{
    let stand = standing(&columns_of(s), s);
    let local = Epoch(stand.clock.0.max(stand.fresh.0 + 1));
    // The bar is compared with the old local epoch, so it is chosen before that is written.
    let bar = if s.local < local { stand.fresh } else { s.bar };
    let kept = if stand.forward {
        stand.candidate
    } else {
        s.kept
    };
    s.local = local;
    s.bar = bar;
    s.kept = kept;
    // By `|`: `||` gives the proof a join more (tried).
    s.torn |= !(stand.forward | stand.back);
}
