// The lines of a label, written into a lent buffer that is known to be long enough.
#![tactic(auto)]

pub mod inner;
