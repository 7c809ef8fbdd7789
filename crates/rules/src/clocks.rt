// "the greatest c such that at least q nodes have a kept clock of c or more"

ghost use Rattle.std.specs.Prelude.{◌≡◌, ◌+◌, ◌≤◌, length, max, take};
ghost use Rattle.table.specs.Rows.{most_nodes};
ghost use Rattle.pala.specs.Rules.{agreed, shared};

use crate::quorum::enough;
use table::{Epoch, State};

// The kept clocks of the nodes; all where n is above 32, as in no state of 01.
fn clocks_of(s: &State) -> &[Epoch]
    ensures of_nodes { result.now ≡ take s.now.n s.now.clocks }
    ensures fits { length result.now ≤ most_nodes }
{
    s.clocks.get(..s.n as usize).unwrap_or(&s.clocks)
}

// "at least q nodes have a kept clock of c or more", asked of the number after c. A sum of tests, which are added several at once; a
// `filter` and `count` branch at each clock (tried: two thirds slower where 32 nodes' clocks differ).
fn shared_past(s: &State, c: Epoch) -> bool
    ensures { result ≡ shared s.now.n s.now.clocks (c.0 + 1) }
{
    let past = clocks_of(s).iter().map(|mine| u32::from(c < *mine)).sum();
    enough(past, s.n)
}

// The greater of the local epoch and the agreed clock. Where fewer than q nodes are past the local epoch, as mostly, no clock is looked at alone.
pub(crate) fn clock_of(s: &State) -> Epoch
    ensures { result ≡ record { 0 = max s.now.local.0 (agreed s.now.n s.now.clocks) } }
{
    let mut best = s.local;
    if shared_past(s, best) {
        for c in clocks_of(s) {
            if best < *c && shared_past(s, Epoch(c.0 - 1)) {
                best = *c;
            }
        }
    }
    best
}
