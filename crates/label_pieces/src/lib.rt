// Pieces of a line, written into a lent buffer.
#![tactic(auto)]

pub mod inner;
