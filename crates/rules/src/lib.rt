// The rules of 01, "What a taken record does", as code: enough votes, freshest, the block that may be voted for, and where a state
// stands before the five steps. Every state is answered, of whatever shape.
// It relies on `table` for the types and leaves; its promises cite the definitions of `pala`.

#![tactic(auto)]

use table::{Epoch, Place};

mod chains;
mod clocks;
pub mod columns;
pub mod quorum;
mod scans;
pub mod steps;

// The freshest block: its place and its epoch.
#[derive(Clone, Copy)]
pub struct Top {
    pub place: Place,
    pub epoch: Epoch,
}

// What the five steps need of a state: the freshest block's epoch, the greater of the local epoch and the agreed clock,
// the candidate, and whether the candidate descends from the kept final block and the kept one from it.
// Both tests stand beside the candidate, and no enum in their place: the law `standing_shown` names each.
#[derive(Clone, Copy)]
pub struct Standing {
    pub fresh: Epoch,
    pub clock: Epoch,
    pub candidate: Place,
    pub forward: bool,
    pub back: bool,
}
