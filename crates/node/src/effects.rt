// "First the direct effect."

ghost use Rattle.std.specs.Prelude.{ℕ, suc, true, List, length, ◌≡◌};
ghost use Rattle.table.specs.Rows.{capacity};
ghost use Rattle.pala.specs.Effects.{effect, new_block};
ghost use Rattle.pala.specs.Shape.{well_shaped};
ghost use Rattle.node.specs.Moves.{Granted};

use record::Fields;
use record::kinds::Kind;
use table::voters::with_voter;
use table::{Block, Epoch, NODES, Place, State};

// A block with no voters; all its other fields are given, so there is nothing to take over from `table`'s row of zeros.
#[tactic(auto, unfolding(pala::specs::Effects::new_block))]
fn new_block(f: &Fields, epoch: Epoch, parent: Place) -> Block
    ensures { result ≡ new_block f.now.name epoch.0 parent.0 f.now.payload }
{
    Block {
        name: f.name,
        payload: f.payload,
        voters: [false; NODES],
        epoch,
        parent,
    }
}

// The direct effect of a record that is taken. The rows' number is the type's, told for those that cite it of a lent state.
// The shape is a condition, as `take_shaped`'s.
pub fn apply(s: &mut State, f: &Fields, place: Place)
    requires shaped { well_shaped s.old ≡ true }
    requires granted { (r : List ℕ) × Granted s.old f.now place r }
    ensures done { (r : List ℕ) → Granted s.old f.now place r → s.new ≡ effect s.old r }
    ensures rows { length s.old.blocks ≡ suc capacity }
{
    let row = place.0 as usize;
    // What is taken has one of the six kinds.
    match Kind::try_from(f.kind).unwrap() {
        Kind::ProposalHeard => {
            s.count += 1;
            s.blocks[s.count as usize] = new_block(f, f.epoch, place);
        }
        Kind::VoteHeard => s.blocks[row] = with_voter(s.blocks[row], f.sender),
        Kind::ClockHeard => s.clocks[f.sender.0 as usize] = f.epoch,
        Kind::ProposeNow => {
            s.count += 1;
            s.blocks[s.count as usize] = new_block(f, s.local, place);
            s.proposed = s.local;
        }
        Kind::CastNow => {
            s.blocks[row] = with_voter(s.blocks[row], s.own);
            s.voted = s.local;
        }
        Kind::MinuteUp => s.clocks[s.own.0 as usize] = Epoch(s.local.0 + 1),
    }
}
