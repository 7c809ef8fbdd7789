// Rows 4 to 14: first those of every kind, then those of the record's own.

ghost use Rattle.std.specs.Prelude.{ℕ, eqb, leb, not, ◌||◌, List, ◌≡◌};
ghost use Rattle.table.specs.Scan.{pick};
ghost use Rattle.pala.specs.Record.{clock_heard};
ghost use Rattle.record.specs.Fields.{fields_of};
ghost use Rattle.record.specs.Numbers.{kind_number};
ghost use Rattle.node.specs.Moves.{decided};

use crate::judges::{
    judge_cast, judge_clock, judge_minute, judge_proposal, judge_propose, judge_vote,
};
use record::Fields;
use record::kinds::Kind;
use shape::shaped::Shaped;
use table::{Answer, NodeNo, Place, State};

// "sender at or above n; own number for kinds 1 to 3; another's for 4 to 6"
#[tactic(auto, unfolding(table::specs::Scan::pick))]
fn bad_sender(s: &State, kind: Kind, sender: NodeNo) -> bool
    ensures { result ≡ (leb s.now.n sender.0 || pick (leb (kind_number kind) clock_heard) (eqb sender.0 s.now.own.0) (not (eqb sender.0 s.now.own.0))) }
{
    s.n <= sender.0
        || match kind {
            Kind::ProposalHeard | Kind::VoteHeard | Kind::ClockHeard => sender == s.own,
            Kind::ProposeNow | Kind::CastNow | Kind::MinuteUp => sender != s.own,
        }
}

// Rows 4 to 14.
pub fn decide(shaped: &Shaped<'_>, f: &Fields) -> Result<Place, Answer>
    ensures { (r : List ℕ) → f.now ≡ fields_of r → result ≡ decided shaped.now r }
{
    let s = shaped.state;
    let kind = Kind::try_from(f.kind)?;
    if !f.clean {
        return Err(Answer::Filler);
    }
    if bad_sender(s, kind, f.sender) {
        return Err(Answer::Sender);
    }
    match kind {
        Kind::ProposalHeard => judge_proposal(s, f),
        Kind::VoteHeard => judge_vote(s, f),
        Kind::ClockHeard => judge_clock(s, f),
        Kind::ProposeNow => judge_propose(s, f),
        Kind::CastNow => judge_cast(s),
        Kind::MinuteUp => judge_minute(s),
    }
}
