#![tactic(auto)]

// That a written row is read back, of any source: it is accepted and prints the label of its view, except exactly where the
// row has no field for what that needs. This crate has statements and laws, and no code.
