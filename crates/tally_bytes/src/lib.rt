// Entries as bytes: a code in four and its count in four.
#![tactic(auto)]

pub mod inner;

// An entry as it is written.
#[derive(Clone, Copy)]
pub struct Entry;

impl Entry {
    pub const WIDTH: usize = 8;
}
