// Where the parts of a pack stand. A part ends where the next begins.

// A point: its postcode, what its edition puts behind it, and the rest.
#[derive(Clone, Copy)]
pub struct PackPoint;

impl PackPoint {
    // In the postcode, and where it ends.
    pub const INWARD: usize = 4;

    pub const POSTCODE_END: usize = 7;

    // Behind the postcode, in an edition that has a suffix, and how many bytes it has.
    pub const SUFFIX: usize = 7;

    pub const SUFFIX_WIDTH: usize = 2;

    // In the rest, counted from the rest's start, and how many bytes it has.
    pub const TYPE: usize = 0;

    pub const ADDRESS_KEY: usize = 1;

    pub const ORGANISATION_KEY: usize = 5;

    pub const NUMBER: usize = 9;

    pub const CONCATENATION: usize = 11;

    pub const PO_BOX: usize = 12;

    pub const OFFSETS: usize = 18;

    pub const REST: usize = 50;

    // The offset that refers to no row.
    pub const ABSENT: usize = 4294967295;
}

// The trailer: its fields, what its edition puts behind them, and the edition as its last byte.
#[derive(Clone, Copy)]
pub struct PackTrailer;

impl PackTrailer {
    // Counted from the trailer's start, and how many bytes they have.
    pub const ROWS: usize = 0;

    pub const START: usize = 4;

    pub const POINTS: usize = 8;

    pub const OUTWARD: usize = 12;

    pub const LENGTH: usize = 16;

    pub const FIELDS: usize = 20;

    // Behind the fields, in an edition that has counts: where they begin, the bytes of one, and of all ten.
    pub const COUNTS: usize = 20;

    pub const COUNT: usize = 4;

    pub const COUNTS_WIDTH: usize = 40;

    pub const EDITION: usize = 1;
}

// The edition that is built, and the widths of its points and its trailer.
#[derive(Clone, Copy)]
pub struct NewestPack;

impl NewestPack {
    pub const EDITION: u8 = 3;

    pub const POINT: usize = PackPoint::POSTCODE_END + PackPoint::SUFFIX_WIDTH + PackPoint::REST;

    pub const TRAILER: usize = PackTrailer::FIELDS
        + PackTrailer::COUNTS_WIDTH
        + PackTrailer::EDITION;
}
