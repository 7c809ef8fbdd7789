// A call of `node::step`, and what it hands back.

use crate::records::RECORD_BYTES;
use node::{start, step};
use table::{Answer, State};

// What every byte of an out buffer is before a call.
pub const UNTOUCHED: u8 = 0xEE;

// The answer, the state and the out buffer after a call.
#[derive(Drop)]
pub struct Outcome {
    pub answer: Answer,
    pub state: State,
    pub out: [u8; RECORD_BYTES],
}

// The state of a gateway that has just started.
pub fn begun(n: u32, own: u32) -> State {
    start(n, own).state
}

// A call with a record and an out buffer of 96 bytes.
pub fn call(s: &State, rec: &[u8; RECORD_BYTES]) -> Outcome {
    let mut state = *s;
    let mut out = [UNTOUCHED; RECORD_BYTES];
    let answer = step(&mut state, rec, &mut out);
    Outcome { answer, state, out }
}

// The state goes on to what a record leaves.
pub fn next(s: &mut State, rec: &[u8; RECORD_BYTES]) -> Answer {
    step(s, rec, &mut [UNTOUCHED; RECORD_BYTES])
}

// Is every byte as it was before a call.
pub fn untouched(bytes: &[u8]) -> bool {
    bytes.iter().all(|byte| *byte == UNTOUCHED)
}
