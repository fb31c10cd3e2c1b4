// The rows of a source. A shelf is a lent slice of records of one width, header first and trailer last, and a struct by value
// that says how to read them; a record between the two is a row, and its number tells its kind and its key.
#![tactic(auto)]

// How the records of a shelf are read. Places count from a record's start.
#[derive(Clone, Copy)]
pub struct Shelf {
    // the bytes of a record
    pub width: usize,
    // where the number stands, in how many digits, and what is added to it: the kind, where the digits have none
    pub key: usize,
    pub digits: usize,
    pub base: usize,
    // where the letter stands that may say that a row is not in force; behind the record where there is none
    pub letter: usize,
    // where the three texts of a locality begin, and where the text of another kind does
    pub locality: usize,
    pub text: usize,
}
