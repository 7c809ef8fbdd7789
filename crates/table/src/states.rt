// The states that a gateway starts from.

ghost use Rattle.std.specs.Prelude.{◌≡◌};
ghost use Rattle.table.specs.Rows.{all_zero, blank, fresh, plain};

use crate::{Block, Epoch, NAME_BYTES, NODES, NodeNo, PAYLOAD_BYTES, Place, ROWS, State};

// "Fresh: local 1"
const FIRST_EPOCH: u32 = 1;

// A row of zeros: the genesis, and what an unused place holds.
fn blank() -> Block
    ensures { result ≡ blank }
{
    Block {
        name: [0; NAME_BYTES],
        payload: [0; PAYLOAD_BYTES],
        voters: [false; NODES],
        epoch: Epoch(0),
        parent: Place(0),
    }
}

// The state with no blocks and no clocks, all else 0.
fn plain(n: u32, own: NodeNo, local: Epoch) -> State
    ensures { result ≡ plain n own.0 local.0 }
{
    State {
        blocks: [blank(); ROWS],
        clocks: [Epoch(0); NODES],
        n,
        own,
        local,
        bar: Epoch(0),
        voted: Epoch(0),
        proposed: Epoch(0),
        count: 0,
        kept: Place(0),
        torn: false,
    }
}

// "Fresh: local 1, all else 0, no blocks, not torn."
pub fn fresh(n: u32, own: NodeNo) -> State
    ensures { result ≡ fresh n own.0 }
{
    plain(n, own, Epoch(FIRST_EPOCH))
}

// "an all-zero state, which every later call refuses with 1"
pub fn all_zero() -> State
    ensures { result ≡ all_zero }
{
    plain(0, NodeNo(0), Epoch(0))
}
