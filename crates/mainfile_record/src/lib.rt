// Where the fields of the Mainfile's records stand: the first byte of each, counted from 0. A field ends where the next begins.
#![tactic(auto)]

// A record of the localities file.
#[derive(Clone, Copy)]
pub struct Locality;

impl Locality {
    pub const WIDTH: usize = 151;

    pub const KEY_END: usize = 6;

    pub const TOWN: usize = 51;

    pub const DEPENDENT: usize = 81;

    pub const DOUBLE: usize = 116;
}

// The records of the files of one text.
#[derive(Clone, Copy)]
pub struct Text;

impl Text {
    pub const TEXT: usize = 8;

    pub const THOROUGHFARE_WIDTH: usize = 68;

    pub const BUILDING_WIDTH: usize = 58;

    pub const SUB_BUILDING_WIDTH: usize = 38;

    pub const DESCRIPTOR_TEXT: usize = 4;

    pub const DESCRIPTOR_WIDTH: usize = 30;
}

// A record of the organisations file.
#[derive(Clone, Copy)]
pub struct Organisation;

impl Organisation {
    pub const WIDTH: usize = 153;

    pub const TYPE: usize = 8;

    pub const NAME: usize = 9;

    pub const DEPARTMENT: usize = 69;

    pub const DEPARTMENT_END: usize = 129;
}

// A record of the address file.
#[derive(Clone, Copy)]
pub struct Address;

impl Address {
    pub const WIDTH: usize = 88;

    pub const OUTWARD: usize = 0;

    pub const INWARD: usize = 4;

    pub const ADDRESS_KEY: usize = 7;

    pub const LOCALITY: usize = 15;

    pub const THOROUGHFARE: usize = 21;

    pub const DESCRIPTOR: usize = 29;

    pub const DEPENDENT: usize = 33;

    pub const DEPENDENT_DESCRIPTOR: usize = 41;

    pub const NUMBER: usize = 45;

    pub const BUILDING: usize = 49;

    pub const SUB_BUILDING: usize = 57;

    pub const HOUSEHOLDS: usize = 65;

    pub const ORGANISATION_KEY: usize = 69;

    pub const POSTCODE_TYPE: usize = 77;

    pub const CONCATENATION: usize = 78;

    pub const SUFFIX: usize = 79;

    pub const INDICATOR: usize = 81;

    pub const PO_BOX: usize = 82;

    pub const PO_BOX_END: usize = 88;
}
