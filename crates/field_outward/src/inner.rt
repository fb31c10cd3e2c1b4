// How one test stands before the others.
ghost use Rattle.std.specs.Prelude.{◌≡◌, cond};

// The place where a test failed, or what the rest found.
pub fn unless(ok: bool, place: usize, rest: usize) -> usize
    ensures { result ≡ cond ok rest place }
{
    if ok { rest } else { place }
}
