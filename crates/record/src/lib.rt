// "The 96-byte record": reading its fields, telling whether the unused ones are zero, and writing a record to send.
// It relies on `table` for the counts and names; its promises cite the definitions of `pala`.

#![tactic(auto)]

pub mod kinds;

ghost use Rattle.std.specs.Prelude.{◌≡◌, ◌+◌, ◌≤◌, ◌%◌, ◌||◌, eqb, length, take, drop};
ghost use Rattle.table.specs.Bytes.{zeros};
ghost use Rattle.table.specs.Scan.{pick};
ghost use Rattle.pala.specs.Record.{message, record_bytes, unused_zero};
ghost use Rattle.record.specs.Fields.{fields_in};

use kinds::Kind;
use table::names::zeros;
use table::{Epoch, NAME_BYTES, NodeNo, PAYLOAD_BYTES};

// "The 96-byte record"
pub const RECORD_BYTES: usize = 96;

// "Byte 0 kind"
const KIND_AT: usize = 0;
// "1 sender"
const SENDER_AT: usize = 1;
// "2 and 3 zero"
const SPARE_AT: usize = 2;
// "4 to 7 epoch (low byte first)"
const EPOCH_AT: usize = 4;
// "8 to 39 name"
const NAME_AT: usize = 8;
// "40 to 71 parent name"
const PARENT_AT: usize = 40;
// "72 to 95 payload"
const PAYLOAD_AT: usize = 72;

// What a record says; `clean` where bytes 2 and 3 and the fields that its kind does not use are zero.
// `kind` stays a number: `write` promises the bytes of any, and row 4 is told from a record's.
#[derive(Clone, Copy, PartialEq, Eq)]
pub struct Fields {
    pub name: [u8; NAME_BYTES],
    pub parent: [u8; NAME_BYTES],
    pub payload: [u8; PAYLOAD_BYTES],
    pub epoch: Epoch,
    pub sender: NodeNo,
    pub kind: u32,
    pub clean: bool,
}

// The N bytes from an index on: each field has its own.
fn part<const N: usize>(rec: &[u8], at: usize) -> [u8; N]
    requires { at + N ≤ length rec.now }
    ensures { result ≡ take N (drop at rec.now) }
{
    let mut bytes = [0; N];
    bytes.copy_from_slice(&rec[at..at + N]);
    bytes
}

// A field is used, or zero.
fn fits(used: bool, field: &[u8]) -> bool
    ensures { result ≡ (used || zeros field.now) }
{
    used || zeros(field)
}

// "Fields a kind doesn't use are zero"; a number that is no kind uses none. Joined by `&`: with `&&` each join asks the proof for a case of its own (tried).
fn unused_zero(rec: &[u8]) -> bool
    requires { length rec.now ≡ record_bytes }
    ensures { result ≡ unused_zero rec.now }
{
    let kind = Kind::try_from(u32::from(rec[KIND_AT]));
    zeros(&rec[SPARE_AT..EPOCH_AT])
        & fits(kind.is_ok_and(Kind::uses_epoch), &rec[EPOCH_AT..NAME_AT])
        & fits(kind.is_ok_and(Kind::uses_name), &rec[NAME_AT..PARENT_AT])
        & fits(
            kind.is_ok_and(Kind::uses_parent),
            &rec[PARENT_AT..PAYLOAD_AT],
        )
        & fits(kind.is_ok_and(Kind::uses_payload), &rec[PAYLOAD_AT..])
}

// The fields of a record of 96 bytes; none of any other length.
#[tactic(auto, unfolding(crate::specs::Fields::fields_in, table::specs::Scan::pick))]
pub fn fields_at(rec: &[u8]) -> Option<Fields>
    ensures { result ≡ fields_in rec.now }
{
    if rec.len() != RECORD_BYTES {
        return None;
    }
    Some(Fields {
        name: part(rec, NAME_AT),
        parent: part(rec, PARENT_AT),
        payload: part(rec, PAYLOAD_AT),
        epoch: Epoch(u32::from_le_bytes(part(rec, EPOCH_AT))),
        sender: NodeNo(u32::from(rec[SENDER_AT])),
        kind: u32::from(rec[KIND_AT]),
        clean: unused_zero(rec),
    })
}

// The lowest byte of a number.
fn low_byte(x: u32) -> u8
    ensures { result ≡ x % 256 }
{
    let [low, ..] = x.to_le_bytes();
    low
}

// Writes the record of these fields into a buffer of 96 bytes; a buffer of another length stays as it was.
#[tactic(auto, unfolding(table::specs::Scan::pick))]
pub fn write(out: &mut [u8], f: &Fields)
    ensures { out.new ≡ pick (eqb (length out.old) record_bytes) (message (f.now.kind % 256) (f.now.sender.0 % 256) f.now.epoch.0 f.now.name f.now.parent f.now.payload) out.old }
{
    if out.len() != RECORD_BYTES {
        return;
    }
    out[KIND_AT..EPOCH_AT].copy_from_slice(&[low_byte(f.kind), low_byte(f.sender.0), 0, 0]);
    out[EPOCH_AT..NAME_AT].copy_from_slice(&f.epoch.0.to_le_bytes());
    out[NAME_AT..PARENT_AT].copy_from_slice(&f.name);
    out[PARENT_AT..PAYLOAD_AT].copy_from_slice(&f.parent);
    out[PAYLOAD_AT..].copy_from_slice(&f.payload);
}
