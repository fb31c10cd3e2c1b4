#![tactic(auto)]

// What a builder finds out before it writes, and the bytes that it then writes. This crate has definitions and laws, and no
// code.
