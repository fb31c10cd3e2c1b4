#![tactic(auto)]

// What is asked of a source: labels by number and by code, one or in turn. This crate has definitions and laws, and no code.
