// Tables of 64 blocks, heard from node 1 of 4 one after the other, so that a run reaches each.

ghost use Rattle.std.specs.Prelude.{◌<◌};
ghost use Rattle.table.specs.Rows.{capacity};

use crate::calls::{begun, next};
use crate::records::{Fields, Kind, RECORD_BYTES, low_byte};
use table::{CAPACITY, State};

// "A session at node 0 of 4"; node 1's turn the first epoch is.
const NODES: u32 = 4;

const OWN: u32 = 0;

const PROPOSER: u8 = 1;

// "proposer of epoch e is e mod n": an epoch of node 1's, later the greater k is.
fn turn(k: u32) -> u32
    requires { k < capacity }
{
    NODES * k + u32::from(PROPOSER)
}

// How the blocks of a table stand to one another.
#[derive(Clone, Copy)]
pub enum Table {
    // Each on the one before it, of rising epochs.
    Chain,
    // Each on the genesis, all of epoch 1.
    Flat,
    // Each on the genesis, of falling epochs.
    Falling,
}

// By its number; any past the last is the last.
impl From<u32> for Table {
    fn from(number: u32) -> Table {
        match number {
            0 => Table::Chain,
            1 => Table::Flat,
            _ => Table::Falling,
        }
    }
}

impl Table {
    // The proposal of the block that comes after k others; its name is its place 32 times.
    fn proposal(self, k: u32) -> [u8; RECORD_BYTES]
        requires { k < capacity }
    {
        let (epoch, parent) = match self {
            Table::Chain => (turn(k), k),
            Table::Flat => (turn(0), 0),
            Table::Falling => (turn(CAPACITY - 1 - k), 0),
        };
        Fields {
            kind: Kind::ProposalHeard as u8,
            sender: PROPOSER,
            epoch,
            name: low_byte(k + 1),
            parent: low_byte(parent),
            payload: 0,
        }
        .record()
    }

    // A full table at node 0 of 4, with no votes and no clocks.
    pub fn full(self) -> State {
        let mut s = begun(NODES, OWN);
        for k in 0..CAPACITY {
            next(&mut s, &self.proposal(k));
        }
        s
    }
}
