// What says less than one answer: the fast questions before the exact ones, whose yes is a promise and whose no is none.
pub use crate::fine::{is_fine_descriptor, is_fine_locality, is_fine_name, is_fine_organisation};
