// The codes of the live views, read in one walk over the views.
ghost use Rattle.std.specs.Prelude.{◌≡◌, ◌≤◌, length};
ghost use Rattle.label.specs.Put.{Wrote};
ghost use Rattle.changes_views.specs.Views.{is_live};
ghost use Rattle.changes_codes.specs.Codes.{code_of, all_codes};

use changes_views::{last_of, next_wanted};
use file_record::{Point, point_record};

// Whether the record of a view is live.
fn is_live(rec: &[u8]) -> bool
    ensures { result ≡ is_live rec.now }
{
    let letter = file_record::byte_of(rec, Point::LETTER);
    (letter == b'I') | (letter == b'C')
}

// The outward code of a record that has one.
fn code_of(rec: &[u8]) -> u32
    requires { 18 ≤ length rec.now }
    ensures { result ≡ code_of rec.now }
{
    pack_read::inner::number_within(rec, Point::OUTWARD, 4) as u32
}

// The codes of all live views in file order, at the front of what is lent; how many there are.
pub fn live_codes(points: &[u8], codes: &mut [u32]) -> usize
    requires { length (all_codes points.now) ≤ length codes.old }
    ensures { Wrote (all_codes points.now) codes.old result codes.new }
{
    let last = last_of(points);
    let mut n = 0;
    let mut next = next_wanted(points, &points[..0], 1);
    while next < last {
        let rec = point_record(points, next);
        next = next_wanted(points, &points[..0], next + 1);
        if is_live(rec) {
            codes[n] = code_of(rec);
            n += 1;
        }
    }
    n
}
