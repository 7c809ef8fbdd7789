// "Beside each: the set of voters counted."

ghost use Rattle.std.specs.Prelude.{◌≡◌};
ghost use Rattle.table.specs.Rows.{has_voter, votes, with_voter};

use crate::{Block, MOST_NODES, NodeNo};

// Is the node among a block's voters; no number past the set is.
pub fn has_voter(b: &Block, who: NodeNo) -> bool
    ensures { result ≡ has_voter b.now who.0 }
{
    who.0 < MOST_NODES && b.voters[who.0 as usize]
}

// The block with one voter more; a number past the set changes nothing.
pub fn with_voter(b: Block, who: NodeNo) -> Block
    ensures { result ≡ with_voter b who.0 }
{
    let mut next = b;
    if who.0 < MOST_NODES {
        next.voters[who.0 as usize] = true;
    }
    next
}

// How many voters a block has; counted in a byte, which sixteen of can be summed at once.
pub fn votes(b: &Block) -> u32
    ensures { result ≡ votes b.now }
{
    let mut n: u8 = 0;
    for voter in &b.voters {
        n += *voter as u8;
    }
    n as u32
}
