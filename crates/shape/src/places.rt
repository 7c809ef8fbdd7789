// The rows: the blocks held at places 1 to the number of blocks, and the places that hold none.

ghost use Rattle.std.specs.Prelude.{◌≡◌, ◌≤◌};
ghost use Rattle.table.specs.Rows.{capacity, rows};
ghost use Rattle.pala.specs.Shape.{is_blank, voters_ok};
ghost use Rattle.shape.specs.Parts.{held_ok, in_order, row_ok, unused_ok};

use table::names::{zero_name, zeros};
use table::rows::at;
use table::{Block, Epoch, Place, State, TOP_EPOCH};

// "voters only below n". All are looked at, by `|` with no branch, so that many are compared at a time.
// Inlined, since n is one number for all rows: what hangs on it alone is computed once.
#[inline]
fn voters_ok(n: u32, b: &Block) -> bool
    ensures { result ≡ voters_ok n b.now }
{
    let mut good = true;
    for (k, voter) in b.voters.iter().enumerate() {
        good &= (k < n as usize) | !*voter;
    }
    good
}

// Is it a row of zeros.
fn blank_row(b: &Block) -> bool
    ensures { result ≡ is_blank b.now }
{
    zero_name(&b.name) && zeros(&b.payload) && b.epoch.0 == 0 && b.parent.0 == 0 && voters_ok(0, b)
}

// Is a block in order, as far as its row and its parent's epoch tell.
fn in_order(n: u32, up: Epoch, b: &Block) -> bool
    ensures { result ≡ in_order n up.0 b.now }
{
    !zero_name(&b.name) && up < b.epoch && b.epoch < TOP_EPOCH && voters_ok(n, b)
}

// Is the block at a place in order, but for its name's likes; "each block's parent at a lower place".
fn row_ok(s: &State, p: Place) -> bool
    ensures { result ≡ row_ok s.now.n (rows s.now) p.0 }
{
    let b = at(s, p);
    b.parent < p && in_order(s.n, at(s, b.parent).epoch, b)
}

// Are the genesis's place and "unused table places" all zero.
pub fn unused_ok(s: &State) -> bool
    requires { s.now.count ≤ capacity }
    ensures { result ≡ unused_ok s.now }
{
    blank_row(&s.blocks[0]) && s.blocks[s.count as usize + 1..].iter().all(blank_row)
}

// Are the blocks held in order, the genesis aside; their names are compared elsewhere.
pub fn held_ok(s: &State) -> bool
    requires { s.now.count ≤ capacity }
    ensures { result ≡ held_ok s.now }
{
    (0..s.count + 1).all(|p| p == 0 || row_ok(s, Place(p)))
}
