// An identifier at a place of lent bytes, for callers that know that it lies within them.
ghost use Rattle.std.specs.Prelude.{◌≡◌, cond, ◌+◌, ◌≤◌, length};
ghost use Rattle.unspace_file.specs.Unspaced.{spaces_at, rewritten};

// An identifier of `width` bytes at `at` becomes `proper` throughout where it is all spaces: 1 where it is, else 0.
pub fn rewrite(file: &mut [u8], at: usize, width: u8, proper: u8) -> usize
    requires { at + width ≤ length file.old }
    ensures count { result ≡ cond (spaces_at width at file.old) 1 0 }
    ensures content { file.new ≡ rewritten width at proper file.old }
{
    let n = usize::from(width);
    if !field_test::all_are(file_record::part_of(file, at, at + n), b' ') {
        return 0;
    }
    file[at..at + n].fill(proper);
    1
}

// The header of a file, which is its first bytes: zero bytes where they are spaces.
pub fn rewrite_header(rec: &mut [u8], width: u8) -> usize
    requires { width ≤ length rec.old }
    ensures count { result ≡ cond (spaces_at width 0 rec.old) 1 0 }
    ensures content { rec.new ≡ rewritten width 0 0 rec.old }
{
    rewrite(rec, 0, width, 0)
}

// Its trailer, lent by itself: bytes 255.
pub fn rewrite_trailer(rec: &mut [u8], width: u8) -> usize
    requires { width ≤ length rec.old }
    ensures count { result ≡ cond (spaces_at width 0 rec.old) 1 0 }
    ensures content { rec.new ≡ rewritten width 0 255 rec.old }
{
    rewrite(rec, 0, width, 255)
}
