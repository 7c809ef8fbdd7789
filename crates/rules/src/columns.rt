// A state's table as columns: what the rules read of each block, made once for a call.

ghost use Rattle.std.specs.Prelude.{◌≡◌, ◌≤◌};
ghost use Rattle.pala.specs.Rules.{lower};
ghost use Rattle.rules.specs.Columns.{cell, columns, epoch_in, places, row_by, up_in};

use crate::Top;
use crate::quorum::enough;
use std::array;
use table::rows::{lower, row_of, size_of};
use table::voters::votes;
use table::{Block, Epoch, Place, ROWS, State};

// Of a block its parent and its epoch, and whether its votes reach the quorum.
#[derive(Clone, Copy)]
pub struct Row {
    pub parent: Place,
    pub epoch: Epoch,
    pub enough: bool,
}

// A row for each place, and how many of them the table has: the rows past its end show the root, so their number doesn't tell.
#[derive(Clone, Copy)]
pub struct Columns {
    pub rows: [Row; ROWS],
    pub size: u32,
}

impl Row {
    fn of(b: &Block, n: u32) -> Row
        ensures { result ≡ row_by n b.now }
    {
        Row {
            parent: b.parent,
            epoch: b.epoch,
            enough: enough(votes(b), n),
        }
    }
}

// The columns of a state. A place past the end shows the root.
pub fn columns_of(s: &State) -> Columns
    ensures shown { result ≡ columns s.now }
    ensures fits { result.size ≤ places }
{
    let size = size_of(s.count);
    let root = Row::of(&s.blocks[0], s.n);
    Columns {
        rows: array::from_fn(|k| {
            if k < size as usize {
                Row::of(&s.blocks[k], s.n)
            } else {
                root
            }
        }),
        size,
    }
}

impl Columns {
    // The row at a place; past the columns, the root's.
    pub(crate) fn row(&self, p: Place) -> Row
        ensures { result ≡ cell self.now.rows p.0 }
    {
        self.rows[row_of(p)]
    }

    // The place of the parent. "places fall": one that isn't lower counts as the genesis.
    pub(crate) fn parent(&self, p: Place) -> Place
        ensures { result ≡ record { 0 = lower (up_in self.now) p.0 } }
    {
        lower(self.row(p).parent, p)
    }

    pub(crate) fn epoch(&self, p: Place) -> Epoch
        ensures { result ≡ record { 0 = epoch_in self.now p.0 } }
    {
        self.row(p).epoch
    }

    pub(crate) fn top(&self, p: Place) -> Top
        ensures { result ≡ record { place = p; epoch = record { 0 = epoch_in self.now p.0 } } }
    {
        Top {
            place: p,
            epoch: self.epoch(p),
        }
    }
}
