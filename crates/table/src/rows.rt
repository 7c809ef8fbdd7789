// The rows of a state's table: the root at place 0, then the blocks held.

ghost use Rattle.std.specs.Prelude.{◌≡◌, ltb, min, suc};
ghost use Rattle.table.specs.Rows.{at, capacity, found, row_of, rows};
ghost use Rattle.table.specs.Scan.{pick};

use crate::names::same_name;
use crate::{Block, CAPACITY, NAME_BYTES, Place, State};

// The block at a place; past the end, the root.
pub fn at(s: &State, p: Place) -> &Block
    ensures { result.now ≡ at (rows s.now) p.0 }
{
    if p.0 < size_of(s.count) {
        return &s.blocks[p.0 as usize];
    }
    &s.blocks[0]
}

// The row that a place names; past the capacity, the root's.
pub fn row_of(p: Place) -> usize
    ensures { result ≡ row_of p.0 }
{
    if CAPACITY < p.0 { 0 } else { p.0 as usize }
}

// How many rows a table of so many blocks has; a count above the capacity, which no state of 01 has, gives no more.
pub fn size_of(count: u32) -> u32
    ensures { result ≡ min (suc count) (suc capacity) }
{
    count.min(CAPACITY) + 1
}

// The place of a block's parent: one that isn't lower, which no state of 01 has, counts as the genesis.
pub fn lower(up: Place, p: Place) -> Place
    ensures { result ≡ record { 0 = pick (ltb up.0 p.0) up.0 0 } }
{
    if up < p { up } else { Place(0) }
}

// The place of a name, the lowest; none where no row has it.
pub fn find(s: &State, name: &[u8; NAME_BYTES]) -> Option<Place>
    ensures { result ≡ found (rows s.now) name.now }
{
    // A loop and no `find`: most names differ in the first byte, which is looked at before a name is compared.
    for k in 0..size_of(s.count) {
        let held = &s.blocks[k as usize].name;
        if held[0] == name[0] && same_name(held, name) {
            return Some(Place(k));
        }
    }
    None
}
