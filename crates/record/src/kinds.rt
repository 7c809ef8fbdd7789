// The kinds of a record.

ghost use Rattle.std.specs.Prelude.{◌≡◌, ◌∷◌, []};
ghost use Rattle.pala.specs.Record.{uses_epoch, uses_name, uses_parent, uses_payload};
ghost use Rattle.record.specs.Numbers.{kind_in, kind_number};

use table::Answer;

// "1 proposal heard, 2 vote heard, 3 clock heard, 4 propose now, 5 cast a vote now, 6 the minute is up"
#[derive(Clone, Copy, PartialEq, Eq, PartialOrd, Ord)]
pub enum Kind {
    ProposalHeard = 1,
    VoteHeard = 2,
    ClockHeard = 3,
    ProposeNow = 4,
    CastNow = 5,
    MinuteUp = 6,
}

#[tactic(auto, unfolding(crate::specs::Numbers::kind_in, table::specs::Scan::pick))]
impl TryFrom<u32> for Kind {
    type Error = Answer;

    ghost try_from_gives = { λ n r. r ≡ kind_in n };

    fn try_from(number: u32) -> Result<Self, Answer> {
        match number {
            1 => Ok(Kind::ProposalHeard),
            2 => Ok(Kind::VoteHeard),
            3 => Ok(Kind::ClockHeard),
            4 => Ok(Kind::ProposeNow),
            5 => Ok(Kind::CastNow),
            6 => Ok(Kind::MinuteUp),
            _ => Err(Answer::Kind),
        }
    }
}

// "fields used": a column of 01's table each, each with its definition in `pala`.
impl Kind {
    #[tactic(auto, unfolding(pala::specs::Record::uses_epoch))]
    pub(crate) fn uses_epoch(self) -> bool
        ensures { result ≡ uses_epoch (kind_number self ∷ []) }
    {
        matches!(self, Kind::ProposalHeard | Kind::ClockHeard)
    }

    #[tactic(auto, unfolding(pala::specs::Record::uses_name))]
    pub(crate) fn uses_name(self) -> bool
        ensures { result ≡ uses_name (kind_number self ∷ []) }
    {
        matches!(
            self,
            Kind::ProposalHeard | Kind::VoteHeard | Kind::ProposeNow
        )
    }

    #[tactic(auto, unfolding(pala::specs::Record::uses_parent))]
    pub(crate) fn uses_parent(self) -> bool
        ensures { result ≡ uses_parent (kind_number self ∷ []) }
    {
        self == Kind::ProposalHeard
    }

    #[tactic(auto, unfolding(pala::specs::Record::uses_payload))]
    pub(crate) fn uses_payload(self) -> bool
        ensures { result ≡ uses_payload (kind_number self ∷ []) }
    {
        matches!(self, Kind::ProposalHeard | Kind::ProposeNow)
    }
}
