// What asks more of its caller than any bytes have: for the crates above, which know that a record is there.
pub use crate::parts::whole_record;
