// The meaning of document 01, and nothing that runs: `specs/` has every rule as a definition, in 01's order and words,
// `proofs/` the laws that the code above cites and the computed cases. It relies on `table` for the types alone.

#![tactic(auto)]
