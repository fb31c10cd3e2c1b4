// What the crate that judges whole packs has to know of points.
pub use crate::offsets::{offsets_marked, offsets_told};
pub use crate::points::fields_good;
