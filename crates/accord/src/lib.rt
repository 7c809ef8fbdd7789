// The meaning of request M-101, a hall on the desk, and nothing that runs: its types, in `specs/` its rules as definitions in 02's order
// and words, in `proofs/` that with fewer than a third faulty it never says no. It relies on `pala` for the meaning of a node.

#![tactic(auto)]

use table::{Answer, State};

// "up to eight gateways"
pub const MOST_GATEWAYS: u32 = 8;
// A state and a mark for each.
pub const GATEWAYS: usize = MOST_GATEWAYS as usize;

// The gateways on the desk: the state of each number, "the set of honest nodes" and n. Fixed memory, no heap: arrays of eight, and n.
#[derive(Clone, Copy, PartialEq, Eq)]
pub struct Hall {
    pub states: [State; GATEWAYS],
    pub honest: [bool; GATEWAYS],
    pub n: u32,
}

// What is answered to a record: 20, 21, 22, or what its receiver answered; `verdict_number` gives each its number.
#[derive(Clone, Copy, PartialEq, Eq)]
pub enum Verdict {
    Receiver,
    Forged,
    Clash,
    Answered(Answer),
}
