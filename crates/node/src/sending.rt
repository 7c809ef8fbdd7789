// "Kinds 4, 5 and 6, when taken, write the record to send there: kind 1, 2 or 3 with own number as sender."

ghost use Rattle.std.specs.Prelude.{ℕ, length, true, List, ◌≡◌};
ghost use Rattle.pala.specs.Counts.{no_name, no_payload};
ghost use Rattle.pala.specs.Record.{record_bytes};
ghost use Rattle.pala.specs.Shape.{well_shaped};
ghost use Rattle.pala.specs.Step.{step};
ghost use Rattle.record.specs.Numbers.{kind_number};
ghost use Rattle.node.specs.Moves.{decision};

use crate::Decision;
use record::kinds::Kind;
use record::{Fields, write};
use table::rows::at;
use table::{Epoch, NAME_BYTES, NodeNo, PAYLOAD_BYTES, Place, State};

// A record of the own number with no other field used.
fn own_record(kind: Kind, own: NodeNo) -> Fields
    ensures { result ≡ record { name = no_name; parent = no_name; payload = no_payload; epoch = record { 0 = 0 }; sender = own; kind = kind_number kind; clean = true } }
{
    Fields {
        name: [0; NAME_BYTES],
        parent: [0; NAME_BYTES],
        payload: [0; PAYLOAD_BYTES],
        epoch: Epoch(0),
        sender: own,
        kind: kind as u32,
        clean: true,
    }
}

// Writes what a record that is taken has the node send; "Every other answer leaves the out buffer's bytes unchanged."
// Its conditions are `take_shaped`'s, which is called with the same two.
pub fn send(s: &State, d: &Decision, out: &mut [u8])
    requires shaped { well_shaped s.now ≡ true }
    requires decided { (r : List ℕ) × (d.now ≡ decision s.now r) }
    ensures { (r : List ℕ) → d.now ≡ decision s.now r → length out.old ≡ record_bytes → out.new ≡ (step s.now r out.old).out }
{
    let (Some(f), Ok(place)) = (&d.fields, d.verdict) else {
        return;
    };
    // What is taken has one of the six kinds.
    match Kind::try_from(f.kind).unwrap() {
        Kind::ProposalHeard | Kind::VoteHeard | Kind::ClockHeard => {}
        Kind::ProposeNow => write(
            out,
            &Fields {
                name: f.name,
                parent: at(s, place).name,
                payload: f.payload,
                epoch: s.local,
                ..own_record(Kind::ProposalHeard, s.own)
            },
        ),
        Kind::CastNow => write(
            out,
            &Fields {
                name: at(s, place).name,
                ..own_record(Kind::VoteHeard, s.own)
            },
        ),
        Kind::MinuteUp => write(
            out,
            &Fields {
                epoch: Epoch(s.local.0 + 1),
                ..own_record(Kind::ClockHeard, s.own)
            },
        ),
    }
}
