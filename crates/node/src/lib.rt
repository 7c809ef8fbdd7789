// A node: its start, and what it answers to a record (document 01, demands 1 and 2): the fourteen rows, the direct effects and the
// five steps. It decides first, which changes nothing, and then does what is taken, in place.
// It relies on `record` for the bytes, on `rules` for the rules that read the table and on `shape` for the test of a state.

#![tactic(auto)]

pub mod answers;
mod decide;
mod effects;
mod judges;
mod sending;
mod settling;

ghost use Rattle.std.specs.Prelude.{true, ℕ, List, ◌≡◌};
ghost use Rattle.pala.specs.Lists.{final_names};
ghost use Rattle.pala.specs.Run.{lent};
ghost use Rattle.pala.specs.Shape.{well_shaped};
ghost use Rattle.pala.specs.Step.{start, step};
ghost use Rattle.node.specs.Moves.{decision};

use decide::decide;
use effects::apply;
use record::{Fields, RECORD_BYTES, fields_at};
use sending::send;
use settling::settle;
use shape::nodes;
use shape::shaped::Shaped;
use table::states::{all_zero, fresh};
use table::{Answer, NodeNo, Place, State};

// What a start hands back, an answer and a state also where it is refused: "answers 15 and an all-zero state".
#[derive(Clone, Copy)]
pub struct Reply {
    pub answer: Answer,
    pub state: State,
}

// What is decided of a record of any length: its fields and, where it is taken, the place that the direct effect needs.
#[derive(Clone, Copy)]
pub struct Decision {
    pub fields: Option<Fields>,
    pub verdict: Result<Place, Answer>,
}

// "Starting with n of 0 or above 32, or own number not below n, answers 15 and an all-zero state."
#[tactic(auto, unfolding(pala::specs::Step::start, table::specs::Scan::pick))]
pub fn start(n: u32, own: u32) -> Reply
    ensures { record { answer = result.answer; state = result.state } ≡ start n own }
{
    let number = NodeNo(own);
    if nodes(n, number) {
        Reply {
            answer: Answer::Taken,
            state: fresh(n, number),
        }
    } else {
        Reply {
            answer: Answer::Setup,
            state: all_zero(),
        }
    }
}

// A record judged on a well-shaped state, as with 96 bytes lent to send into.
pub fn decide_shaped(s: &Shaped<'_>, rec: &[u8]) -> Decision
    ensures { result ≡ decision s.now rec.now }
{
    let fields = fields_at(rec);
    let verdict = if s.state.torn {
        Err(Answer::Torn)
    } else if let Some(f) = &fields {
        decide(s, f)
    } else {
        Err(Answer::Length)
    };
    Decision { fields, verdict }
}

// The state after a record: where it is taken, the direct effect and then the five steps; "Otherwise .. the same".
// It changes the state, so the shape is a condition: `&mut State` can't be lent as a `Shaped`.
pub fn take_shaped(s: &mut State, d: &Decision)
    requires { (well_shaped s.old ≡ true) × ((r : List ℕ) × (d.now ≡ decision s.old r)) }
    ensures step { (r : List ℕ) → d.now ≡ decision s.old r → s.new ≡ (step s.old r lent).state }
    ensures shaped { well_shaped s.new ≡ true }
    ensures names { s.new.kept.0 ≡ s.old.kept.0 → final_names s.new ≡ final_names s.old }
{
    let (Some(f), Ok(place)) = (&d.fields, d.verdict) else {
        return;
    };
    apply(s, f, place);
    settle(s);
}

// A call on any state: "1 State: the state isn't well shaped". The answer is 01's, 0 among them, and no Result: its clause gives each outcome a number.
pub fn step(s: &mut State, rec: &[u8], out: &mut [u8]) -> Answer
    ensures { record { answer = result; state = s.new; out = out.new } ≡ step s.old rec.now out.old }
{
    let d = match Shaped::new(s) {
        Some(shaped) => decide_shaped(&shaped, rec),
        None => return Answer::State,
    };
    // Row 3 is of the out buffer too, after row 2.
    if out.len() != RECORD_BYTES && !s.torn {
        return Answer::Length;
    }
    if let Err(answer) = d.verdict {
        return answer;
    }
    send(s, &d, out);
    take_shaped(s, &d);
    Answer::Taken
}
