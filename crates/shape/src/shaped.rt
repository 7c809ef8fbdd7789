// A state that is known to be well shaped, lent. Only what the test has passed, or what its maker proves so, is one.

ghost use Rattle.std.specs.Prelude.{◌≡◌, Some, None};
ghost use Rattle.table.specs.Scan.{pick};
ghost use Rattle.pala.specs.Shape.{well_shaped};

use crate::well_shaped;
use std::marker::Model;
use table::State;

// A clause sees the state itself. What changes a state takes `&mut State`, which can't be lent as this, and has the shape in a clause.
#[derive(Drop)]
pub struct Shaped<'a> {
    pub state: &'a State,
}

impl<'a> Model for Shaped<'a> {
    ghost use Rattle.std.specs.Prelude.{◌≡◌, true};
    ghost use Rattle.table.specs.declared.State.{State};
    ghost use Rattle.pala.specs.Shape.{well_shaped};

    ghost Value = { State };

    ghost view = { λ s. s.state.now };

    ghost invariant = { λ s. well_shaped s.state.now ≡ true };
}

impl<'a> Shaped<'a> {
    // The state, where the test passes it.
    pub fn new(state: &'a State) -> Option<Self>
        ensures { result ≡ pick (well_shaped state.now) (Some state.now) None }
    {
        if well_shaped(state) {
            Some(Shaped { state })
        } else {
            None
        }
    }
}
