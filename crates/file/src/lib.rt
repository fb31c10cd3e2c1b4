// The files of fixed records: the kinds there are, when one is accepted, and how owners and followers stand in a point file.
#![tactic(auto)]

mod follow;
pub mod inner;
mod sequence;

pub use follow::needed_next;
pub use sequence::is_front_above;

// A kind of file; `Formats.format_of` gives each its format.
#[derive(Clone, Copy)]
pub enum Kind {
    Table,
    Points,
    Main(MainKind),
}

// The files of a Mainfile set, in their order; `Mainfile.main_format` gives each its format.
#[derive(Clone, Copy)]
pub enum MainKind {
    Localities,
    Thoroughfares,
    Descriptors,
    Buildings,
    SubBuildings,
    Organisations,
    Addresses,
}
