#![tactic(auto)]

// Codes counted in rising order, wherever they come from. A code is a number here. This crate has definitions and laws, and
// no code.
