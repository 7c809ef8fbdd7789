// A record in 01's words, told from its bytes.

use crate::names::Name;
use crate::records::{Fields, Kind, RECORD_BYTES};
use std::fmt;

// A record in words; where some byte is not what the words say, that too.
#[derive(Drop)]
pub struct Described<'a>(pub &'a [u8; RECORD_BYTES]);

impl fmt::Display for Described<'_> {
    fn fmt<W: fmt::Write>(&self, f: &mut fmt::Formatter<W>) -> fmt::Result {
        let fields = Fields::of(self.0);
        write!(f, "{fields}")?;
        if fields.record() == *self.0 {
            return Ok(());
        }
        f.write_str(" and other bytes")
    }
}

// The words of a kind; none of a number that is no kind's.
impl fmt::Display for Fields {
    fn fmt<W: fmt::Write>(&self, f: &mut fmt::Formatter<W>) -> fmt::Result {
        let Fields {
            kind,
            sender,
            epoch,
            name,
            parent,
            payload,
        } = *self;
        let (name, parent, payload) = (Name(name), Name(parent), Payload(payload));
        match Kind::try_from(kind) {
            Ok(Kind::ProposalHeard) => write!(
                f,
                "proposal {name} from {sender} (epoch {epoch}, on {parent}{payload})"
            ),
            Ok(Kind::VoteHeard) => write!(f, "vote {name} from {sender}"),
            Ok(Kind::ClockHeard) => write!(f, "clock {epoch} from {sender}"),
            Ok(Kind::ProposeNow) => write!(f, "propose {name}{payload}"),
            Ok(Kind::CastNow) => f.write_str("cast"),
            Ok(Kind::MinuteUp) => f.write_str("minute"),
            Err(_) => Ok(()),
        }
    }
}

// A payload that isn't zero: "Payloads are zero, but .."
#[derive(Drop)]
struct Payload(u8);

impl fmt::Display for Payload {
    fn fmt<W: fmt::Write>(&self, f: &mut fmt::Formatter<W>) -> fmt::Result {
        if self.0 == 0 {
            return Ok(());
        }
        write!(f, ", payload {}", self.0)
    }
}
