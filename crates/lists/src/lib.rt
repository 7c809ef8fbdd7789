// "Reading it out": the final list of a state, how two final lists stand to one another, and the tail of the longer.
// It relies on `table` for the types, on `pala` for the meaning and on `shape` for the test of a state.

#![tactic(auto)]

pub mod finals;
pub mod relations;
