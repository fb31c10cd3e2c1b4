// What a builder has to know of the rows of a set.
pub use crate::offsets::offsets_of;
pub use crate::places::place_set;
pub use crate::rows::set_rows_at;
