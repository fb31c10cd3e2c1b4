#![tactic(auto)]

// CSV PAF: what a written row is, when a file of rows is accepted, and what its rows say. This crate has definitions and
// laws, and no code.
