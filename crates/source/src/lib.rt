// What a delivery point says and what is printed of it, wherever it was read. The definitions know addresses; code knows a
// delivery point as a struct by value, read once from its record by one reader for each source.
#![tactic(auto)]

// What code knows of a delivery point. Places are those of the slices that hold its texts: postcode, suffix and PO box in
// one, the organisation in the same or another.
#[derive(Clone, Copy)]
pub struct DeliveryPoint {
    // the seven keys, in offset order; 0 is none
    pub keys: [u32; 7],
    pub number: u16,
    pub address_key: u32,
    pub organisation_key: u32,
    pub postcode_type: u8,
    pub concatenation: bool,
    // the small user organisation indicator
    pub indicator: bool,
    // outward 4, then inward 3
    pub postcode: usize,
    pub suffix: usize,
    pub po_box: usize,
    // whether it has an organisation, whose name 60 and department 60 stand there
    pub organised: bool,
    pub organisation: usize,
    // whether it needs an organisation that is not there
    pub lacking: bool,
}

// The rows that the seven keys of a delivery point find, in offset order; 0 is none.
#[derive(Clone, Copy)]
pub struct Found {
    pub rows: [usize; 7],
}
