// What a builder has to know of the rows of a set.
pub use crate::marking::mark_point;
pub use crate::walk::mark_addresses;
