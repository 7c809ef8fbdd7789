// A reply: the answer, the state and the out area after the step, and what the final list of that state reads as.

ghost use Rattle.std.specs.Prelude.{◌≡◌, ◌+◌, ◌*◌, ◌≤◌, length};

use crate::cases::{Area, Case, NUMBER_BYTES, OUT_AREA, ROW_BYTES, STATE_BYTES};
use lists::finals::{LIST_BYTES, final_list};
use node::step;
use table::{Answer, Block, NODES, State};

// What each byte of the final list's buffer holds before the call.
const UNTOUCHED: u8 = 0x55;

// A reply's bytes: 8,580. Answers and count are a byte each.
const REPLY_BYTES: usize = 1 + STATE_BYTES + OUT_AREA + 2 + LIST_BYTES;

// A reply, as far as it is written; no heap.
#[derive(Drop)]
pub struct Reply {
    pub bytes: [u8; REPLY_BYTES],
    written: usize,
}

// Each says how many bytes it puts, so that all are seen to fit.
impl Reply {
    // It is lent from here on: a reply that a function hands back is copied whole.
    pub fn unwritten() -> Reply {
        Reply {
            bytes: [0; REPLY_BYTES],
            written: 0,
        }
    }

    // Puts bytes behind those that are written. `Line` of `lines` does so into a lent text and says what stands there; here only the room counts.
    fn put(&mut self, bytes: &[u8])
        requires { self.old.written + length bytes.now ≤ REPLY_BYTES }
        ensures { self.new.written ≡ self.old.written + length bytes.now }
    {
        let end = self.written + bytes.len();
        self.bytes[self.written..end].copy_from_slice(bytes);
        self.written = end;
    }

    fn put_numbers<const N: usize>(&mut self, numbers: [u32; N])
        requires { self.old.written + NUMBER_BYTES * N ≤ REPLY_BYTES }
        ensures { self.new.written ≡ self.old.written + NUMBER_BYTES * N }
    {
        self.put(numbers.map(u32::to_le_bytes).as_flattened());
    }

    // A loop and no `map`, so that many marks become bytes at a time.
    fn put_voters(&mut self, voters: &[bool; NODES])
        requires { self.old.written + NODES ≤ REPLY_BYTES }
        ensures { self.new.written ≡ self.old.written + NODES }
    {
        let mut bytes = [0; NODES];
        for (b, mark) in bytes.iter_mut().zip(voters) {
            *b = u8::from(*mark);
        }
        self.put(&bytes);
    }

    fn put_row(&mut self, b: &Block)
        requires { self.old.written + ROW_BYTES ≤ REPLY_BYTES }
        ensures { self.new.written ≡ self.old.written + ROW_BYTES }
    {
        self.put(&b.name);
        self.put(&b.payload);
        self.put_voters(&b.voters);
        self.put_numbers([b.epoch.0, b.parent.0]);
    }

    fn put_state(&mut self, s: &State)
        requires { self.old.written + STATE_BYTES ≤ REPLY_BYTES }
        ensures { self.new.written ≡ self.old.written + STATE_BYTES }
    {
        for row in &s.blocks {
            self.put_row(row);
        }
        self.put_numbers(s.clocks.map(|clock| clock.0));
        self.put_numbers([
            s.n,
            s.own.0,
            s.local.0,
            s.bar.0,
            s.voted.0,
            s.proposed.0,
            s.count,
            s.kept.0,
        ]);
        self.put(&[u8::from(s.torn)]);
    }
}

// Steps the state of a case once and puts all that comes of it.
pub fn reply_to(case: Case, reply: &mut Reply) {
    let Case {
        mut state,
        record,
        out: Area {
            bytes: mut out,
            length: room,
        },
    } = case;
    let answer = step(&mut state, &record.bytes[..record.length], &mut out[..room]);
    let mut list = [UNTOUCHED; LIST_BYTES];
    let (list_answer, count) = match final_list(&state, &mut list) {
        Ok(count) => (Answer::Taken, count),
        Err(refusal) => (refusal, 0),
    };
    // From its start, whatever it held.
    reply.written = 0;
    reply.put(&[answer as u8]);
    reply.put_state(&state);
    reply.put(&out);
    reply.put(&[list_answer as u8, count.to_le_bytes()[0]]);
    reply.put(&list);
}
