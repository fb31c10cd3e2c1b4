#![tactic(auto)]

// The source that a pair of files is, and the places at which its views stand. This crate has definitions and laws, and no
// code.
