// The row in force for a number, found by halves among the records of a shelf or among their numbers, and the rows that the
// keys of a delivery point find.
#![tactic(auto)]

pub mod inner;
mod search;
