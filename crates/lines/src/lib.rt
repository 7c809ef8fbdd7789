// The lines of a recording: the text that `replay` prints, and a line as a hall's text has it, made by functions on lent bytes.
// It relies on `node` for the step, on `shape` for the test of a state and on `lists` for the length of the final list.

#![tactic(auto)]

pub mod ends;
pub mod pieces;
mod text;
pub mod words;
