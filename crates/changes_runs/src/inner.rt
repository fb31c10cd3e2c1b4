// The step of a walk, which listings take too.
pub use crate::places::place_behind;
