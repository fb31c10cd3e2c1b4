// Whether a follower has no fault at all. Its front is that of its owner, so that nothing but its texts is looked at.
ghost use Rattle.std.specs.Prelude.{◌≡◌, true};
ghost use Rattle.file_fault.specs.Point.{point_fault};
ghost use Rattle.changes_points.specs.Owned.{Owned};

use file_fault::inner::is_fine_organisation;
use file_record::{Organisation, Point, byte_of};

// Whether a follower is known to have no fault.
pub fn is_fine_follower(owner: &[u8], rec: &[u8]) -> bool
    requires { Owned owner.now rec.now }
    ensures { result ≡ true → point_fault rec.now ≡ 0 }
{
    if rec.len() < Point::WIDTH {
        return false;
    }
    let small = byte_of(rec, Point::TYPE) == b'2';
    is_fine_organisation(rec, Organisation::NAME, small)
}
