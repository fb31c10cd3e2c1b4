// What a builder has to know of the organisations of a stretch of address records.
pub use crate::walks::{organisations_at, organisations_in};
