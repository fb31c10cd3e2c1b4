// What asks more of its caller than any bytes have: for the check of a file, which knows of the record before.
pub use crate::fine::is_fine;
