// The row of an organisation.
ghost use Rattle.std.specs.Prelude.{◌+◌, ◌≤◌, length};
ghost use Rattle.label.specs.Put.{Put};
ghost use Rattle.build.specs.Plan.{organisation_bytes};

use build_bytes::inner::two_texts_at;
use label_pieces::inner::byte_at;

// The row of an organisation, where it is there: its name 60 and department 60 stand at `texts`.
pub fn organisation_at(others: &[u8], there: bool, texts: usize, at: usize, out: &mut [u8]) -> usize
    requires texts_in_bounds { texts + 120 ≤ length others.now }
    requires texts_in_bounds_2 { at + length (organisation_bytes others.now there texts) ≤ length out.old }
    ensures { Put (organisation_bytes others.now there texts)
        out.old at result out.new }
{
    if !there {
        return at;
    }
    let i = byte_at(6, at, out);
    two_texts_at(others, texts, texts + 60, texts + 120, i, out)
}
