#![tactic(auto)]

// What a pack of a sound source carries: its rows, its points and its labels. This crate has theorems and no code.
