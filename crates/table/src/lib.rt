// The counts, blocks and states of a gateway's log, in the forms that document 01 names, and the leaves over them:
// comparing names, finding a name, the block at a place, setting and counting voters, the fresh state.
// It relies on nothing but the kit; the meaning of 01 (`pala`) and all code stand above it.

#![tactic(auto)]

pub mod names;
pub mod rows;
pub mod states;
pub mod voters;

// "Nodes: n from 1 to 32"
pub const MOST_NODES: u32 = 32;
// "A node's table holds up to 64 further blocks at places 1 to 64"
pub const CAPACITY: u32 = 64;
// "A block has a 32-byte name"
pub const NAME_BYTES: usize = 32;
// "24 opaque payload bytes"
pub const PAYLOAD_BYTES: usize = 24;

// A voter's mark and a clock for each node.
pub const NODES: usize = MOST_NODES as usize;
// The genesis's row and those of the 64 places.
pub const ROWS: usize = CAPACITY as usize + 1;

// "An epoch, a node number and a place in the table are three separate counts and never stand for one another."
#[derive(Clone, Copy, PartialEq, Eq, PartialOrd, Ord)]
pub struct Epoch(pub u32);

// "local epochs from 1 to 4,294,967,295", and every block's epoch is below it: "1 to 4,294,967,294"
pub const TOP_EPOCH: Epoch = Epoch(u32::MAX);

#[derive(Clone, Copy, PartialEq, Eq, PartialOrd, Ord)]
pub struct NodeNo(pub u32);

#[derive(Clone, Copy, PartialEq, Eq, PartialOrd, Ord)]
pub struct Place(pub u32);

// 96 bytes with no padding: the fields' sizes are 32, 24, 32, 4 and 4.
#[derive(Clone, Copy, PartialEq, Eq)]
pub struct Block {
    pub name: [u8; NAME_BYTES],
    pub payload: [u8; PAYLOAD_BYTES],
    pub voters: [bool; NODES],
    pub epoch: Epoch,
    pub parent: Place,
}

// A node's state, in fixed memory: no heap, so arrays of the most with n and the count beside them. The place of a block is its index, by which
// others name it as their parent, and place 0 is the genesis.
#[derive(Clone, Copy, PartialEq, Eq)]
pub struct State {
    pub blocks: [Block; ROWS],
    pub clocks: [Epoch; NODES],
    pub n: u32,
    pub own: NodeNo,
    pub local: Epoch,
    pub bar: Epoch,
    pub voted: Epoch,
    pub proposed: Epoch,
    pub count: u32,
    pub kept: Place,
    pub torn: bool,
}

// 01's answers and their numbers; `number` of `pala` is the same.
#[derive(Clone, Copy, PartialEq, Eq)]
pub enum Answer {
    Taken = 0,
    State = 1,
    Torn = 2,
    Length = 3,
    Kind = 4,
    Filler = 5,
    Sender = 6,
    Epoch = 7,
    Name = 8,
    Unknown = 9,
    Order = 10,
    Turn = 11,
    Repeat = 12,
    Nothing = 13,
    Full = 14,
    Setup = 15,
}

// How two final lists stand to one another.
#[derive(Clone, Copy, PartialEq, Eq)]
pub enum Relation {
    Equal,
    FirstLonger,
    SecondLonger,
    Fork(u64),
    Broken,
}
