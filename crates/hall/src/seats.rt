// The gateways on the desk by their numbers, and the shape of a hall.

ghost use Rattle.std.specs.Prelude.{◌<◌, ◌≤◌, ◌≡◌, ◌||◌, not, true, false, ltb, get_or, Some, None};
ghost use Rattle.table.specs.Scan.{all_below, pick};
ghost use Rattle.table.specs.Rows.{all_zero};
ghost use Rattle.pala.specs.Shape.{well_shaped};
ghost use Rattle.accord.specs.Head.{gateway, hall_shaped, honest_in, most_gateways};

use accord::{GATEWAYS, Hall};
use shape::shaped::Shaped;
use shape::well_shaped;
use std::marker::Model;
use table::State;

// A hall that is known to be well shaped, lent. A clause sees the hall itself.
#[derive(Drop)]
pub struct ShapedHall<'a> {
    pub hall: &'a Hall,
}

impl<'a> Model for ShapedHall<'a> {
    ghost use Rattle.std.specs.Prelude.{◌≡◌, true};
    ghost use Rattle.accord.specs.declared.Hall.{Hall};
    ghost use Rattle.accord.specs.Head.{hall_shaped};

    ghost Value = { Hall };

    ghost view = { λ h. h.hall.now };

    ghost invariant = { λ h. hall_shaped h.hall.now ≡ true };
}

impl<'a> ShapedHall<'a> {
    // The state of an honest node; no number past eight is one.
    pub fn honest(&self, who: usize) -> Option<Shaped<'a>>
        ensures told { result ≡ pick (honest_in self.now who) (Some (gateway self.now who)) None }
        ensures within { honest_in self.now who ≡ true → who < most_gateways }
    {
        let h = self.hall;
        if !in_set(&h.honest, who) {
            return None;
        }
        Some(Shaped {
            state: &h.states[who],
        })
    }
}

// Is the number in the set; none past eight is.
fn in_set(honest: &[bool; GATEWAYS], who: usize) -> bool
    ensures told { result ≡ get_or honest.now who false }
    ensures within { result ≡ true → who < most_gateways }
{
    honest.get(who).copied().unwrap_or(false)
}

// Is no number from n on in the set.
pub fn none_from(honest: &[bool; GATEWAYS], n: usize) -> bool
    requires { n ≤ most_gateways }
    ensures { result ≡ all_below most_gateways (λ i. ltb i n || not (get_or honest.now i false)) }
{
    honest[n..].iter().all(|honest| !honest)
}

// Is each of the first n states well shaped.
fn all_shaped(states: &[State; GATEWAYS], n: usize) -> bool
    requires { n ≤ most_gateways }
    ensures { result ≡ all_below n (λ i. well_shaped (get_or states.now i all_zero)) }
{
    states[..n].iter().all(|s| well_shaped(s))
}

// "n (1 to 8)", no honest number at or above it, every gateway's state well shaped.
pub fn hall_shaped(h: &Hall) -> bool
    ensures { result ≡ hall_shaped h.now }
{
    let n = h.n as usize;
    (1..=GATEWAYS).contains(&n) && none_from(&h.honest, n) && all_shaped(&h.states, n)
}
