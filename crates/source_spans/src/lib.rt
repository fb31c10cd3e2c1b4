// Where the elements of a delivery point stand: the texts of its rows on a shelf, the rest in the slice that holds it.
#![tactic(auto)]

pub mod inner;
