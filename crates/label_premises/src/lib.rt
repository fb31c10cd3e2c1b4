// How the premises of a label are written, by the rows of a table.
#![tactic(auto)]

pub mod inner;
