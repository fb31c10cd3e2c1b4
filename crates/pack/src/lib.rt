#![tactic(auto)]

// What a pack is: its bytes, when it is accepted, and what its labels are. This crate has definitions and no code.
