// Rows 7 to 14 for each kind of record, in the order of the rows. Each kind has its own rows in 01's words; what two kinds share stands first.
// A State and the Fields of a record are two things, and the fields don't hold the record that a row is of: so each clause names it.

ghost use Rattle.std.specs.Prelude.{ℕ, ◌<◌, ◌||◌, ltb, List, ◌≡◌};
ghost use Rattle.table.specs.Bytes.{zeros};
ghost use Rattle.table.specs.Rows.{find, rows, size};
ghost use Rattle.pala.specs.Answers.{proposer};
ghost use Rattle.pala.specs.Counts.{clock_of};
ghost use Rattle.pala.specs.Record.{kind_of, proposal_heard, vote_heard, clock_heard, propose_now, cast_now, minute_up};
ghost use Rattle.record.specs.Fields.{fields_of};
ghost use Rattle.node.specs.Moves.{judged};

use record::Fields;
use rules::steps::{ballot, freshest};
use table::names::zero_name;
use table::rows::{at, find};
use table::voters::has_voter;
use table::{Answer, CAPACITY, Epoch, NAME_BYTES, NodeNo, Place, State, TOP_EPOCH};

// "kinds 1, 4: name all zero or already in the table"
#[tactic(auto, using(crate::proofs::Facts::is_there))]
fn bad_name(s: &State, name: &[u8; NAME_BYTES]) -> bool
    ensures { result ≡ (zeros name.now || ltb (find (rows s.now) name.now) (size (rows s.now))) }
{
    zero_name(name) || find(s, name).is_some()
}

// "the highest clock kept from each node"; 0 where none is kept and, as `clock_of` says, past the clocks.
fn clock_from(s: &State, who: NodeNo) -> Epoch
    ensures { result.0 ≡ clock_of s.now.clocks who.0 }
{
    s.clocks.get(who.0 as usize).copied().unwrap_or(Epoch(0))
}

// "proposer of epoch e is e mod n". It asks for n above 0 and for no well-shaped state: a remainder needs no more.
#[tactic(auto, unfolding(pala::specs::Answers::proposer))]
fn proposer(s: &State, e: Epoch) -> NodeNo
    requires { 0 < s.now.n }
    ensures { result.0 ≡ proposer s.now.n e.0 }
{
    NodeNo(e.0 % s.n)
}

// "1 proposal heard"
pub fn judge_proposal(s: &State, f: &Fields) -> Result<Place, Answer>
    requires nodes { 0 < s.now.n }
    requires kind { f.now.kind ≡ proposal_heard }
    ensures { (r : List ℕ) → f.now ≡ fields_of r → result ≡ judged s.now r }
{
    if f.epoch == Epoch(0) || TOP_EPOCH <= f.epoch {
        return Err(Answer::Epoch);
    }
    if bad_name(s, &f.name) {
        return Err(Answer::Name);
    }
    let parent = find(s, &f.parent).ok_or(Answer::Unknown)?;
    if f.epoch <= at(s, parent).epoch {
        return Err(Answer::Order);
    }
    if f.sender != proposer(s, f.epoch) {
        return Err(Answer::Turn);
    }
    if CAPACITY <= s.count {
        return Err(Answer::Full);
    }
    Ok(parent)
}

// "2 vote heard"
pub fn judge_vote(s: &State, f: &Fields) -> Result<Place, Answer>
    requires { f.now.kind ≡ vote_heard }
    ensures { (r : List ℕ) → f.now ≡ fields_of r → result ≡ judged s.now r }
{
    let block = find(s, &f.name).ok_or(Answer::Unknown)?;
    if block == Place(0) {
        return Err(Answer::Unknown);
    }
    if has_voter(at(s, block), f.sender) {
        return Err(Answer::Repeat);
    }
    Ok(block)
}

// "3 clock heard"
pub fn judge_clock(s: &State, f: &Fields) -> Result<Place, Answer>
    requires { f.now.kind ≡ clock_heard }
    ensures { (r : List ℕ) → f.now ≡ fields_of r → result ≡ judged s.now r }
{
    if f.epoch == Epoch(0) {
        return Err(Answer::Epoch);
    }
    if f.epoch <= clock_from(s, f.sender) {
        return Err(Answer::Repeat);
    }
    Ok(Place(0))
}

// "4 propose now"
pub fn judge_propose(s: &State, f: &Fields) -> Result<Place, Answer>
    requires nodes { 0 < s.now.n }
    requires kind { f.now.kind ≡ propose_now }
    ensures { (r : List ℕ) → f.now ≡ fields_of r → result ≡ judged s.now r }
{
    if TOP_EPOCH <= s.local {
        return Err(Answer::Epoch);
    }
    if bad_name(s, &f.name) {
        return Err(Answer::Name);
    }
    let parent = freshest(s);
    if s.local <= parent.epoch {
        return Err(Answer::Order);
    }
    if s.own != proposer(s, s.local) {
        return Err(Answer::Turn);
    }
    if s.proposed == s.local {
        return Err(Answer::Repeat);
    }
    if CAPACITY <= s.count {
        return Err(Answer::Full);
    }
    Ok(parent.place)
}

// "5 cast a vote now"
pub fn judge_cast(s: &State) -> Result<Place, Answer>
    ensures { (r : List ℕ) → kind_of r ≡ cast_now → result ≡ judged s.now r }
{
    ballot(s).ok_or(Answer::Nothing)
}

// "6 the minute is up"
pub fn judge_minute(s: &State) -> Result<Place, Answer>
    ensures { (r : List ℕ) → kind_of r ≡ minute_up → result ≡ judged s.now r }
{
    if TOP_EPOCH <= s.local {
        return Err(Answer::Epoch);
    }
    if s.local < clock_from(s, s.own) {
        return Err(Answer::Repeat);
    }
    Ok(Place(0))
}
