// "20 to 22 before 01's, lowest first, the last two on whole records only."

ghost use Rattle.std.specs.Prelude.{ℕ, ◌≡◌, ◌&&◌, ◌||◌, true, false, List, MatchOption};
ghost use Rattle.table.specs.Rows.{rows};
ghost use Rattle.pala.specs.Record.{is, proposal_heard, propose_now};
ghost use Rattle.record.specs.Fields.{fields_of};
ghost use Rattle.hall.specs.Judged.{Decided, judged};
ghost use Rattle.hall.specs.Named.{block_named};
ghost use Rattle.accord.specs.Head.{honest_in};
ghost use Rattle.accord.specs.Rulings.{clash, content_at, content_of, forged, otherwise, shows, table_of, verdict, verdict_number};

use crate::seats::ShapedHall;
use accord::{GATEWAYS, Verdict};
use node::{Decision, answers};
use record::Fields;
use record::kinds::Kind;
use rules::steps::freshest;
use shape::shaped::Shaped;
use table::rows::{at, find, lower};
use table::voters::has_voter;
use table::{Answer, Epoch, NAME_BYTES, NodeNo, PAYLOAD_BYTES, Place, State};

// "20 receiver not an honest node"
const RECEIVER: u32 = 20;
// "21 a vote heard under an honest number whose own table doesn't show that vote"
const FORGED: u32 = 21;
// "22 kind 1 or 4 whose name stands in some honest node's table with another epoch, parent or payload"
const CLASH: u32 = 22;

// Where a block of that name stands; the genesis is none of the table's blocks.
fn block_named(s: &State, name: &[u8; NAME_BYTES]) -> Option<Place>
    ensures { result ≡ block_named (rows s.now) name.now }
{
    find(s, name).filter(|p| p.0 > 0)
}

// Does a node's table show its vote for that name.
fn shows(s: &Shaped<'_>, who: NodeNo, name: &[u8; NAME_BYTES]) -> bool
    ensures { result ≡ shows (rows s.now) who.0 name.now }
{
    block_named(s.state, name).is_some_and(|p| has_voter(at(s.state, p), who))
}

// What a name stands for.
#[derive(Clone, Copy, PartialEq, Eq)]
struct Content<'a> {
    epoch: Epoch,
    parent: &'a [u8; NAME_BYTES],
    payload: &'a [u8; PAYLOAD_BYTES],
}

// Of the block at a place.
fn content_at(s: &State, p: Place) -> Content<'_>
    ensures { record { epoch = result.epoch.0; parent = result.parent.now; payload = result.payload.now } ≡ content_at (rows s.now) p.0 }
{
    let b = at(s, p);
    Content {
        epoch: b.epoch,
        parent: &at(s, lower(b.parent, p)).name,
        payload: &b.payload,
    }
}

// Does the name stand in a table for something else.
fn otherwise(s: &Shaped<'_>, name: &[u8; NAME_BYTES], c: &Content<'_>) -> bool
    ensures { result ≡ otherwise (rows s.now) name.now (record { epoch = c.now.epoch.0; parent = c.now.parent.now; payload = c.now.payload.now }) }
{
    let Some(p) = block_named(s.state, name) else {
        return false;
    };
    content_at(s.state, p) != *c
}

// What the name of a record of kind 1 or 4 stands for: its own fields, or the block that its receiver would add now.
fn content_of<'a>(s: &'a Shaped<'_>, f: &'a Fields) -> Option<Content<'a>>
    ensures { (r : List ℕ) → f.now ≡ fields_of r → MatchOption result ((is proposal_heard r || is propose_now r) ≡ false) (λ c. ((is proposal_heard r || is propose_now r) ≡ true) × (record { epoch = c.epoch.0; parent = c.parent.now; payload = c.payload.now } ≡ content_of s.now r)) }
{
    // In two steps: with `Ok(Kind::ProposalHeard)` for a pattern the last arm tells a proof nothing of the kind (tried).
    let Ok(kind) = Kind::try_from(f.kind) else {
        return None;
    };
    match kind {
        Kind::ProposalHeard => Some(Content {
            epoch: f.epoch,
            parent: &f.parent,
            payload: &f.payload,
        }),
        Kind::ProposeNow => Some(Content {
            epoch: s.state.local,
            parent: &at(s.state, freshest(s.state).place).name,
            payload: &f.payload,
        }),
        _ => None,
    }
}

// "21 a vote heard under an honest number whose own table doesn't show that vote"
fn forged(h: &ShapedHall<'_>, f: &Fields) -> bool
    ensures { (r : List ℕ) → f.now ≡ fields_of r → result ≡ forged h.now r }
{
    f.kind == Kind::VoteHeard as u32
        && h.honest(f.sender.0 as usize)
            .is_some_and(|s| !shows(&s, f.sender, &f.name))
}

// Is the number an honest one, in whose table the name stands for something else. A function and no closure: one that captures the content tells
// a proof nothing of it (tried).
fn honest_otherwise(
    h: &ShapedHall<'_>,
    who: usize,
    name: &[u8; NAME_BYTES],
    c: &Content<'_>,
) -> bool
    ensures { result ≡ (honest_in h.now who && otherwise (table_of h.now who) name.now (record { epoch = c.now.epoch.0; parent = c.now.parent.now; payload = c.now.payload.now })) }
{
    let Some(t) = h.honest(who) else {
        return false;
    };
    otherwise(&t, name, c)
}

// "22 kind 1 or 4 whose name stands in some honest node's table with another epoch, parent or payload"
fn clash(h: &ShapedHall<'_>, s: &Shaped<'_>, f: &Fields) -> bool
    ensures { (r : List ℕ) → f.now ≡ fields_of r → result ≡ clash h.now s.now r }
{
    let Some(c) = content_of(s, f) else {
        return false;
    };
    (0..GATEWAYS).any(|i| honest_otherwise(h, i, &f.name, &c))
}

// What is told to an honest receiver, whose state is s and where d is decided: 21 and 22 before its own answer.
pub fn judge(h: &ShapedHall<'_>, s: &Shaped<'_>, d: &Decision) -> Result<(), Verdict>
    ensures { (to : ℕ) (r : List ℕ) → Decided h.now to r s.now d.now → result ≡ judged (verdict h.now to r) }
{
    if let Some(f) = &d.fields {
        if forged(h, f) {
            return Err(Verdict::Forged);
        }
        if clash(h, s, f) {
            return Err(Verdict::Clash);
        }
    }
    match d.verdict {
        Ok(_) => Ok(()),
        Err(answer) => Err(Verdict::Answered(answer)),
    }
}

// The number of each verdict.
#[tactic(auto, unfolding(accord::specs::Rulings::verdict_number))]
pub fn number_of(verdict: Verdict) -> u32
    ensures { result ≡ verdict_number verdict }
{
    match verdict {
        Verdict::Receiver => RECEIVER,
        Verdict::Forged => FORGED,
        Verdict::Clash => CLASH,
        Verdict::Answered(answer) => answers::number_of(answer),
    }
}
