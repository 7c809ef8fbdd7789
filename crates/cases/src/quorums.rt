// "Taking more than half for a quorum": how many votes make a block firm.

use crate::calls::{begun, next};
use crate::records::{Fields, Kind, RECORD_BYTES, low_byte};
use table::{Answer, Epoch, State};

// "Fresh: local 1"; that epoch's proposer is 1 mod n.
const FIRST: u32 = 1;
// "A is 32 bytes of 0x0A"
const A: u8 = 0x0A;

// A record of a node's about A, or about nothing.
fn of_node(kind: Kind, sender: u32, name: u8) -> [u8; RECORD_BYTES] {
    Fields {
        kind: kind as u8,
        sender: low_byte(sender),
        name,
        ..Fields::default()
    }
    .record()
}

// How many votes for A come before the local epoch rises, with the own one.
fn votes_before(s: &mut State, n: u32) -> u32 {
    let mut votes = 1u32;
    for who in 0..n {
        let before = s.local == Epoch(FIRST);
        let answer = next(s, &of_node(Kind::VoteHeard, who, A));
        votes = votes.wrapping_add(u32::from(before && answer == Answer::Taken));
    }
    votes
}

// How many votes make a block firm at n nodes: the own one, and others until the local epoch rises.
pub fn quorum_at(n: u32) -> u32 {
    if n == 0 {
        return 0;
    }
    let own = FIRST % n;
    let mut s = begun(n, own);
    next(&mut s, &of_node(Kind::ProposeNow, own, A));
    next(&mut s, &of_node(Kind::CastNow, own, 0));
    votes_before(&mut s, n)
}
