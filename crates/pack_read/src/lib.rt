// Where the parts of a pack stand, and numbers and texts at places of a pack.
#![tactic(auto)]

pub mod inner;
mod kinds;
mod layout;

pub use kinds::{NewestPack, PackPoint, PackTrailer};
pub use layout::{Layout, has_counts, has_suffix, is_known, layout_in, layout_of};
