// What says less than one answer: the fast question before the exact one, whose yes is a promise and whose no is none.
pub use crate::fine::is_fine;
