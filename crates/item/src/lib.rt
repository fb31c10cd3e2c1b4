#![tactic(auto)]

// An item of a listing: its heading, and the label or the line of its refusal. This crate has definitions and laws, and no
// code.
