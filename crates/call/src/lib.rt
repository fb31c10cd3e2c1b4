#![tactic(auto)]

// What the exported calls come to. This crate has definitions and laws, and no code.
