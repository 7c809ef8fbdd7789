// 01: "A state is well shaped when ..". The test is total: a state is anything at all, and the answer is determined.
// It runs on every public call.
// It relies on `table` for the types and on `pala` for what well shaped means.

#![tactic(auto)]

mod clocks;
mod names;
mod places;
pub mod shaped;

ghost use Rattle.std.specs.Prelude.{◌≡◌};
ghost use Rattle.pala.specs.Counts.{nodes};
ghost use Rattle.pala.specs.Shape.{well_shaped};

use clocks::clocks_ok;
use names::names_apart;
use places::{held_ok, unused_ok};
use table::{CAPACITY, MOST_NODES, NodeNo, State};

// "Nodes: n from 1 to 32, numbered 0 to n-1", the own number among them.
pub fn nodes(n: u32, own: NodeNo) -> bool
    ensures { result ≡ nodes n own.0 }
{
    0 < n && n <= MOST_NODES && own.0 < n
}

// "A state is well shaped when n is 1 to 32, own number below n, at most 64 blocks, .." The last tests are asked of a count that fits.
pub fn well_shaped(s: &State) -> bool
    ensures { result ≡ well_shaped s.now }
{
    nodes(s.n, s.own)
        && s.count <= CAPACITY
        && s.kept.0 <= s.count
        && 0 < s.local.0
        && clocks_ok(s.n, &s.clocks)
        && unused_ok(s)
        && held_ok(s)
        && names_apart(s)
}
