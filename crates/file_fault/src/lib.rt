// What a fault is and where it stands: the fields of each record, and the test of a field at its place.
#![tactic(auto)]

mod at;
mod fine;
pub mod inner;
