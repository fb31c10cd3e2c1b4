// Where the parts of a book stand.

// A book: its slots, then the count.
#[derive(Clone, Copy)]
pub struct Book;

impl Book {
    pub const SLOTS: usize = 256;
    // A slot: the place, the view's record, its follower's.
    pub const SLOT: usize = 338;

    pub const VIEW: usize = 2;

    pub const FOLLOWER: usize = 170;

    pub const COUNT: usize = 86528;

    pub const LENGTH: usize = 86530;
}
