// Owners and followers in a point file.
ghost use Rattle.std.specs.Prelude.{◌≡◌, true, cond, ◌||◌, ◌+◌, ◌-◌, ◌/◌, ◌≤◌, ◌<◌, eqb, length};
ghost use Rattle.file_record.specs.Names.Point.{width};
ghost use Rattle.file.specs.Formats.{needed, follows, placed_at};
ghost use Rattle.file.specs.Viewed.{Viewed};

use field_word::inner::eight_zero;
use file_compare::inner::is_same_41;
use file_record::Point;

// The type of record that is needed next: by what all of this is said at once, so that nothing is decided on the way.
fn needed_by(view: bool, large: bool, alone: bool) -> u8
    ensures { result ≡ cond view (cond large 51 (cond alone 0 50)) 0 }
{
    if view {
        if large {
            b'3'
        } else {
            if alone { 0 } else { b'2' }
        }
    } else {
        0
    }
}

// The type of record that a record needs next, 0 where it needs none.
pub fn needed_next(rec: &[u8]) -> u8
    ensures { result ≡ needed rec.now }
{
    let view = file_record::byte_of(rec, Point::TYPE) == b'1';
    let large = file_record::byte_of(rec, Point::POSTCODE_TYPE) == b'L';
    let key = file_record::part_of(rec, Point::ORGANISATION_KEY, Point::LETTER);
    needed_by(view, large, field_read::says_zero(key))
}

// Whether a record is the one that its owner needs, which is of type `need`.
fn is_follower(need: u8, owner: &[u8], rec: &[u8]) -> bool
    requires { need ≡ needed owner.now }
    ensures { result ≡ follows owner.now rec.now }
{
    let kind = file_record::byte_of(rec, Point::TYPE);
    let head = file_compare::same_bytes(
        file_record::part_of(rec, 0, Point::TYPE),
        file_record::part_of(owner, 0, Point::TYPE),
    );
    (need != 0) & ((kind == need) & head)
}

// The place of the owner that record `i` is, or that stands before it.
fn owner_of(own: bool, i: usize) -> usize
    requires { 1 ≤ i }
    ensures { (result ≡ cond own i (i - 1)) × (result ≤ i) }
{
    if own { i } else { i - 1 }
}

// Whether a view has the follower that it needs, or a follower its owner. A follower stands behind its owner, so that one
// comparison does for both.
pub fn is_placed(file: &[u8], i: usize) -> bool
    requires { (1 ≤ i) × (i + 1 < length file.now / width) }
    ensures { result ≡ placed_at file.now i }
{
    let rec = file_record::inner::whole_record(file, Point::WIDTH, i);
    let own = file_record::byte_of(rec, Point::TYPE) == b'1';
    let place = owner_of(own, i);
    let owner = file_record::inner::whole_record(file, Point::WIDTH, place);
    let need = needed_next(owner);
    let next = file_record::inner::whole_record(file, Point::WIDTH, place + 1);
    let followed = is_follower(need, owner, next);
    (own & (need == 0)) | followed
}

// Whether a view is known to need no follower, or to have it behind it. Its organisation key has digits alone, so that eight
// bytes say whether it is zero.
pub fn is_followed(view: &[u8], next: &[u8]) -> bool
    requires { Viewed view.now × (168 ≤ length next.now) }
    ensures { result ≡ true
        → (eqb (needed view.now) 0 || follows view.now next.now) ≡ true }
{
    let large = file_record::byte_of(view, Point::POSTCODE_TYPE) == b'L';
    let need = needed_by(true, large, eight_zero(view, Point::ORGANISATION_KEY));
    let kind = file_record::byte_of(next, Point::TYPE);
    let same = is_same_41(
        file_record::part_of(next, 0, Point::TYPE),
        file_record::part_of(view, 0, Point::TYPE),
    );
    (need == 0) | ((kind == need) & same)
}
