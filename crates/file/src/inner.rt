// What asks more of its caller than any bytes have: for the check of a file, which knows that a record has neighbours.
pub use crate::follow::{is_followed, is_placed};
