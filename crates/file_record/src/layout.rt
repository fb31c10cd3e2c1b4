// Where the fields of each record kind stand: the first byte of each, counted from 0. A field ends where the next begins.
ghost use Rattle.std.specs.Prelude.{◌≡◌};

// What the five types of a table record share, and where the text of types 2 to 5 ends.
#[derive(Clone, Copy)]
pub struct Table;

impl Table {
    pub const WIDTH: usize = 169;

    pub const IDENTIFIER: u8 = 9;

    pub const TYPE: usize = 0;

    pub const KEY: usize = 1;

    pub const DATE: usize = 9;

    pub const TIME: usize = 17;

    pub const LETTER: usize = 23;

    pub const TEXT: usize = 24;

    pub const THOROUGHFARE_END: usize = 84;

    pub const DESCRIPTOR_END: usize = 44;

    pub const BUILDING_END: usize = 74;

    pub const SUB_BUILDING_END: usize = 54;
}

// A table record of type 1.
#[derive(Clone, Copy)]
pub struct Locality;

impl Locality {
    pub const TOWN: usize = 69;

    pub const DEPENDENT: usize = 99;

    pub const DOUBLE: usize = 134;

    pub const END: usize = 169;
}

// What the three types of a point record share.
#[derive(Clone, Copy)]
pub struct Point;

impl Point {
    pub const WIDTH: usize = 168;

    pub const IDENTIFIER: u8 = 14;

    pub const DATE: usize = 0;

    pub const TIME: usize = 8;

    pub const OUTWARD: usize = 14;

    pub const INWARD: usize = 18;

    pub const SUFFIX: usize = 21;

    pub const POSTCODE_TYPE: usize = 23;

    pub const ADDRESS_KEY: usize = 24;

    pub const ORGANISATION_KEY: usize = 32;

    pub const LETTER: usize = 40;

    pub const TYPE: usize = 41;

    pub const REST: usize = 42;
}

// A point record of type 1.
#[derive(Clone, Copy)]
pub struct View;

impl View {
    pub const LOCALITY: usize = 42;

    pub const THOROUGHFARE: usize = 50;

    pub const DESCRIPTOR: usize = 58;

    pub const DEPENDENT: usize = 66;

    pub const DEPENDENT_DESCRIPTOR: usize = 74;

    pub const NUMBER: usize = 82;

    pub const BUILDING: usize = 86;

    pub const SUB_BUILDING: usize = 94;

    pub const HOUSEHOLDS: usize = 102;

    pub const CONCATENATION: usize = 106;

    pub const PO_BOX: usize = 107;

    pub const INDICATOR: usize = 113;

    pub const REASON: usize = 114;

    pub const REASON_END: usize = 116;
}

// A point record of type 2 or 3.
#[derive(Clone, Copy)]
pub struct Organisation;

impl Organisation {
    pub const NAME: usize = 42;

    pub const DEPARTMENT: usize = 102;

    pub const DEPARTMENT_END: usize = 162;
}

// A place in a file, counted in records; the header is record 0.
#[derive(Clone, Copy)]
pub struct Cursor {
    pub at: usize,
}

impl Cursor {
    // The first record behind the header.
    pub fn fresh() -> Self
        ensures { result.at ≡ 1 }
    {
        Cursor { at: 1 }
    }
}
