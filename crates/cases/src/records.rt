// "The 96-byte record", built here byte by byte and not by the crate `record`: the cases don't lean on what they test.

// "The 96-byte record"
pub const RECORD_BYTES: usize = 96;
// "Byte 0 kind, 1 sender, 2 and 3 zero, 4 to 7 epoch (low byte first), 8 to 39 name, 40 to 71 parent name, 72 to 95 payload"
const KIND_AT: usize = 0;

const SENDER_AT: usize = 1;

const EPOCH_AT: usize = 4;

const NAME_AT: usize = 8;

const PARENT_AT: usize = 40;

const PAYLOAD_AT: usize = 72;

// "1 proposal heard, 2 vote heard, 3 clock heard, 4 propose now, 5 cast a vote now, 6 the minute is up"
#[derive(Clone, Copy)]
pub enum Kind {
    ProposalHeard = 1,
    VoteHeard = 2,
    ClockHeard = 3,
    ProposeNow = 4,
    CastNow = 5,
    MinuteUp = 6,
}

impl TryFrom<u8> for Kind {
    // The number of no kind.
    type Error = u8;

    fn try_from(number: u8) -> Result<Kind, u8> {
        match number {
            1 => Ok(Kind::ProposalHeard),
            2 => Ok(Kind::VoteHeard),
            3 => Ok(Kind::ClockHeard),
            4 => Ok(Kind::ProposeNow),
            5 => Ok(Kind::CastNow),
            6 => Ok(Kind::MinuteUp),
            _ => Err(number),
        }
    }
}

// A record's fields; each of name, parent name and payload is one byte throughout, and the kind may be no kind's number.
#[derive(Clone, Copy, Default)]
pub struct Fields {
    pub kind: u8,
    pub sender: u8,
    pub epoch: u32,
    pub name: u8,
    pub parent: u8,
    pub payload: u8,
}

impl Fields {
    // The fields by the first byte of each: a record built below is told whole.
    pub fn of(rec: &[u8; RECORD_BYTES]) -> Fields {
        let [kind, sender, _, _, first, second, third, fourth, ..] = *rec;
        Fields {
            kind,
            sender,
            epoch: u32::from_le_bytes([first, second, third, fourth]),
            name: rec[NAME_AT],
            parent: rec[PARENT_AT],
            payload: rec[PAYLOAD_AT],
        }
    }

    // The record with these fields.
    pub fn record(&self) -> [u8; RECORD_BYTES] {
        let mut rec = [0; RECORD_BYTES];
        rec[KIND_AT] = self.kind;
        rec[SENDER_AT] = self.sender;
        rec[EPOCH_AT..NAME_AT].copy_from_slice(&self.epoch.to_le_bytes());
        rec[NAME_AT..PARENT_AT].fill(self.name);
        rec[PARENT_AT..PAYLOAD_AT].fill(self.parent);
        rec[PAYLOAD_AT..].fill(self.payload);
        rec
    }
}

// The lowest byte of a number.
pub fn low_byte(x: u32) -> u8 {
    x.to_le_bytes()[0]
}

// The record with another byte at an index; past its end, the record.
pub fn with_byte(rec: &[u8; RECORD_BYTES], at: u32, to: u32) -> [u8; RECORD_BYTES] {
    let mut made = *rec;
    if let Some(byte) = made.get_mut(at as usize) {
        *byte = low_byte(to);
    }
    made
}
