// The organisations of the addresses of a code: how many rows they are in a pack, in how many bytes, and their bytes.
#![tactic(auto)]

pub mod inner;
mod walks;
