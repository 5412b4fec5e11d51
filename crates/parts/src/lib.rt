// What the lines of productions are made of: the laws of their shapes, and parts that stand below the crates of productions.
//
// A function that reads a part of a line is handed the state and hands it back. d is how many nodes may still be opened, may whether the part may be missing,
// x what the reading is given, lent what it is lent (crate notes).
#![tactic(auto)]

pub mod part;
pub mod terms;
pub mod tuples;
