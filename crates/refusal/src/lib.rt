// Document 01's numbered refusals: their numbers and details, how one is made, and the one number in which an answer
// reaches a C program.
#![tactic(auto)]

ghost use Rattle.std.specs.Prelude.{◌≡◌};
ghost use Rattle.refusal.specs.Refusal.{later_number, number, detail, second, malformed_at, with_view};
ghost use Rattle.refusal.specs.Answer.{blame};
ghost use Rattle.refusal.specs.Packed.{word, packed};

// The refusals of an address book, which have no details.
#[derive(Clone, Copy)]
pub enum LaterReason {
    InsertedTwice,
    NotPresent,
    Unpaired,
    NoFreeSlot,
    NotABook,
}

// Why a call refuses, a case for each number of the documents, with its details. Records, rows, views, rules, fields
// and steps are counted from 1, and so are the bytes of a record. `view` is the view at which building stopped, and 0 where a single label was asked.
#[derive(Clone, Copy)]
pub enum Reason {
    Length,
    Header,
    Trailer { record: usize },
    Malformed { record: usize, byte: usize },
    NotAbove { record: usize },
    Follower { record: usize },
    NoSuchNumber,
    Combination { rule: usize, view: usize },
    MissingKey { field: usize, view: usize },
    Room { needed: usize },
    BadPack { step: usize },
    BadCode,
    NoSuffix,
    BadRow { row: usize, field: usize },
    Uncarried,
    BadDigit,
    Later(LaterReason),
}

// A refusal as a call answers it. `file` is the file to blame: 0 none; of a pair 1 the table file, 2 the point file; of a
// Mainfile set 1 to 7, in document 02's order.
#[derive(Clone, Copy)]
pub struct Refusal {
    pub file: usize,
    pub reason: Reason,
}

// What a call answers: a value, or why it refuses.
pub type Answer = Result<usize, Refusal>;

// What a check says: of a record, of a file, of a delivery point.
pub type Verdict = Result<(), Reason>;

// A reason that blames no file.
impl From<Reason> for Refusal {
    ghost from_gives = { λ why r. r ≡ blame 0 why };

    fn from(reason: Reason) -> Refusal {
        Refusal { file: 0, reason }
    }
}

// Document 02's number of a refusal of an address book.
fn later_number(why: LaterReason) -> usize
    ensures { result ≡ later_number why }
{
    match why {
        LaterReason::InsertedTwice => 17,
        LaterReason::NotPresent => 18,
        LaterReason::Unpaired => 19,
        LaterReason::NoFreeSlot => 20,
        LaterReason::NotABook => 28,
    }
}

// Document 01's number of a refusal.
pub fn number_of(reason: Reason) -> usize
    ensures { result ≡ number reason }
{
    match reason {
        Reason::Length => 1,
        Reason::Header => 2,
        Reason::Trailer { record: _ } => 3,
        Reason::Malformed { record: _, byte: _ } => 4,
        Reason::NotAbove { record: _ } => 5,
        Reason::Follower { record: _ } => 6,
        Reason::NoSuchNumber => 7,
        Reason::Combination { rule: _, view: _ } => 8,
        Reason::MissingKey { field: _, view: _ } => 9,
        Reason::Room { needed: _ } => 10,
        Reason::BadPack { step: _ } => 11,
        Reason::BadCode => 12,
        Reason::NoSuffix => 13,
        Reason::BadRow { row: _, field: _ } => 14,
        Reason::Uncarried => 15,
        Reason::BadDigit => 27,
        Reason::Later(why) => later_number(why),
    }
}

// Document 01's detail of a refusal.
pub fn detail_of(reason: Reason) -> usize
    ensures { result ≡ detail reason }
{
    match reason {
        Reason::Length => 0,
        Reason::Header => 1,
        Reason::Trailer { record } => record,
        Reason::Malformed { record, byte: _ } => record,
        Reason::NotAbove { record } => record,
        Reason::Follower { record } => record,
        Reason::NoSuchNumber => 0,
        Reason::Combination { rule, view: _ } => rule,
        Reason::MissingKey { field, view: _ } => field,
        Reason::Room { needed } => needed,
        Reason::BadPack { step } => step,
        Reason::BadCode => 0,
        Reason::NoSuffix => 0,
        Reason::BadRow { row, field: _ } => row,
        Reason::Uncarried => 0,
        Reason::BadDigit => 0,
        Reason::Later(_) => 0,
    }
}

// The second detail: the byte where 4 names a record, the view number where building gives 8 or 9, the field where 14
// names a row.
pub fn second_of(reason: Reason) -> usize
    ensures { result ≡ second reason }
{
    match reason {
        Reason::Length => 0,
        Reason::Header => 0,
        Reason::Trailer { record: _ } => 0,
        Reason::Malformed { record: _, byte } => byte,
        Reason::NotAbove { record: _ } => 0,
        Reason::Follower { record: _ } => 0,
        Reason::NoSuchNumber => 0,
        Reason::Combination { rule: _, view } => view,
        Reason::MissingKey { field: _, view } => view,
        Reason::Room { needed: _ } => 0,
        Reason::BadPack { step: _ } => 0,
        Reason::BadCode => 0,
        Reason::NoSuffix => 0,
        Reason::BadRow { row: _, field } => field,
        Reason::Uncarried => 0,
        Reason::BadDigit => 0,
        Reason::Later(_) => 0,
    }
}

// The four parts of a refusal in their bits of one word.
pub fn word_of(number: usize, file: usize, second: usize, detail: usize) -> usize
    ensures { result ≡ word number file second detail }
{
    let high = number % 256 * 72057594037927936 + file % 16 * 4503599627370496;
    let low = second % 1048576 * 4294967296 + detail % 4294967296;
    high + low
}

// An answer as the one number that C gets.
pub fn packed_answer(answer: Answer) -> usize
    ensures { result ≡ packed answer }
{
    match answer {
        Ok(value) => value % 72057594037927936,
        Err(Refusal { file, reason }) => {
            word_of(
                number_of(reason),
                file,
                second_of(reason),
                detail_of(reason),
            )
        }
    }
}

// The refusal of a malformed record: where it stands in its file, and where its first fault stands in it.
pub fn malformed(at: usize, byte: usize) -> Reason
    ensures { result ≡ malformed_at at byte }
{
    Reason::Malformed { record: at, byte }
}

// The same refusal with the view at which building stopped.
pub fn with_view(reason: Reason, view: usize) -> Reason
    ensures { result ≡ with_view view reason }
{
    match reason {
        Reason::Length => Reason::Length,
        Reason::Header => Reason::Header,
        Reason::Trailer { record } => Reason::Trailer { record },
        Reason::Malformed { record, byte } => Reason::Malformed { record, byte },
        Reason::NotAbove { record } => Reason::NotAbove { record },
        Reason::Follower { record } => Reason::Follower { record },
        Reason::NoSuchNumber => Reason::NoSuchNumber,
        Reason::Combination { rule, view: _ } => Reason::Combination { rule, view },
        Reason::MissingKey { field, view: _ } => Reason::MissingKey { field, view },
        Reason::Room { needed } => Reason::Room { needed },
        Reason::BadPack { step } => Reason::BadPack { step },
        Reason::BadCode => Reason::BadCode,
        Reason::NoSuffix => Reason::NoSuffix,
        Reason::BadRow { row, field } => Reason::BadRow { row, field },
        Reason::Uncarried => Reason::Uncarried,
        Reason::BadDigit => Reason::BadDigit,
        Reason::Later(why) => Reason::Later(why),
    }
}
