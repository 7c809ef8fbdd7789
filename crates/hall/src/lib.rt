// A hall on the desk (request M-101): up to eight gateways fed from one recording, and the line for each of its records.
// It relies on `node` for the step, on `lists` for the final lists and on `lines` for the text; its promises cite `accord`.
// What a record asks of the other gateways is read in their states, where they stand.

#![tactic(auto)]

mod chains;
pub mod heads;
mod judging;
pub mod pieces;
mod seats;
