// What asks more of its caller than any bytes have: for the check of a file, which knows how long the fronts of its records are.
pub use crate::above::{is_above_8, is_above_24, is_above_42, is_same_41};
