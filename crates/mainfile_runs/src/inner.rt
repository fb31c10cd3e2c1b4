// The step of a walk, which rows take too.
pub use crate::walk::place_behind;
