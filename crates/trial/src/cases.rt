// A case: a state, a record and an out buffer, each in an area of its own. A number is 4 bytes, low byte first.

ghost use Rattle.std.specs.Prelude.{◌≤◌};

use table::states::all_zero;
use table::{Block, Epoch, NAME_BYTES, NODES, NodeNo, PAYLOAD_BYTES, Place, ROWS, State};

// Bytes of a number.
pub const NUMBER_BYTES: usize = 4;
// Bytes of a row: name, payload, a byte for each voter, epoch and parent; 96.
pub const ROW_BYTES: usize = NAME_BYTES + PAYLOAD_BYTES + NODES + 2 * NUMBER_BYTES;
// The numbers beside rows and clocks.
const NUMBERS: usize = 8;
// Bytes of a state: rows, clocks, numbers, torn or not; 6,401.
pub const STATE_BYTES: usize = ROW_BYTES * ROWS + NUMBER_BYTES * (NODES + NUMBERS) + 1;

// The areas that the record and the out buffer stand in, each after its length, and a case's bytes: 6,793.
const RECORD_AREA: usize = 256;

pub const OUT_AREA: usize = 128;

pub const CASE_BYTES: usize = STATE_BYTES + NUMBER_BYTES + RECORD_AREA + NUMBER_BYTES + OUT_AREA;

// An area, of which the first `length` bytes are lent; no heap.
#[derive(Drop)]
pub struct Area<const N: usize> {
    pub bytes: [u8; N],
    pub length: usize,
    ghost within: { length ≤ N },
}

#[derive(Drop)]
pub struct Case {
    pub state: State,
    pub record: Area<RECORD_AREA>,
    pub out: Area<OUT_AREA>,
}

impl Case {
    // Reads a case; none where it is short.
    pub fn read(bytes: &[u8]) -> Option<Case> {
        let mut rest = Rest(bytes);
        Some(Case {
            state: rest.state()?,
            record: rest.area()?,
            out: rest.area()?,
        })
    }
}

// What is left to read.
#[derive(Drop)]
struct Rest<'a>(&'a [u8]);

impl Rest<'_> {
    // The next N bytes; none where it is short.
    fn take<const N: usize>(&mut self) -> Option<[u8; N]> {
        let (next, rest) = self.0.split_first_chunk()?;
        self.0 = rest;
        Some(*next)
    }

    fn number(&mut self) -> Option<u32> {
        Some(u32::from_le_bytes(self.take()?))
    }

    fn area<const N: usize>(&mut self) -> Option<Area<N>> {
        let length = self.number()? as usize;
        Some(Area {
            bytes: self.take()?,
            length: length.min(N),
        })
    }

    // A mark for each node: any byte but 0. A loop and no `map`, so that many are compared at a time.
    fn voters(&mut self) -> Option<[bool; NODES]> {
        let bytes = self.take::<NODES>()?;
        let mut voters = [false; NODES];
        for (mark, b) in voters.iter_mut().zip(&bytes) {
            *mark = *b != 0;
        }
        Some(voters)
    }

    fn row(&mut self) -> Option<Block> {
        Some(Block {
            name: self.take()?,
            payload: self.take()?,
            voters: self.voters()?,
            epoch: Epoch(self.number()?),
            parent: Place(self.number()?),
        })
    }

    // A state of any shape: all its rows, those past the number of blocks too, and its clocks, then the rest.
    fn state(&mut self) -> Option<State> {
        let mut s = all_zero();
        for row in s.blocks.iter_mut() {
            *row = self.row()?;
        }
        for clock in s.clocks.iter_mut() {
            *clock = Epoch(self.number()?);
        }
        Some(State {
            n: self.number()?,
            own: NodeNo(self.number()?),
            local: Epoch(self.number()?),
            bar: Epoch(self.number()?),
            voted: Epoch(self.number()?),
            proposed: Epoch(self.number()?),
            count: self.number()?,
            kept: Place(self.number()?),
            torn: self.take()? != [0],
            ..s
        })
    }
}
