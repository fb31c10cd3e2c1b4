// The walks over a stretch of address records: each reads of a record what it needs and hands it on.
ghost use Rattle.std.specs.Prelude.{◌≡◌, ◌+◌, ◌≤◌, length};
ghost use Rattle.label.specs.Put.{Put};
ghost use Rattle.build.specs.Plan.{organisation_rows, organisation_count};
ghost use Rattle.mainfile_mark.specs.Packed.{packed_by};
ghost use Rattle.mainfile_points.specs.Standing.{Standing};

use build_place::inner::{Sums, one_if, organisation_len};
use build_rows::inner::organisation_at;
use mainfile_source::delivery_at;

// The organisations of so many address records from one on: how many rows, in how many bytes.
pub fn organisations_in(organisations: &[u8], addresses: &[u8], first: usize, many: usize) -> Sums
    requires { Standing organisations.now addresses.now first many }
    ensures rows { result.rows
        ≡ organisation_count (packed_by addresses.now organisations.now first many) }
    ensures bytes { result.bytes ≡ length (organisation_rows organisations.now
        (packed_by addresses.now organisations.now first many)) }
{
    let mut rows = 0;
    let mut bytes = 0;
    for i in first..first + many {
        let p = delivery_at(addresses, organisations, i);
        rows += one_if(p.organised);
        bytes += organisation_len(organisations, p.organised, p.organisation);
    }
    Sums { rows, bytes }
}

// Their rows.
pub fn organisations_at(
    organisations: &[u8],
    addresses: &[u8],
    first: usize,
    many: usize,
    at: usize,
    out: &mut [u8],
) -> usize
    requires standing { Standing organisations.now addresses.now first many }
    requires many_in_bounds { at + length (organisation_rows organisations.now
        (packed_by addresses.now organisations.now first many)) ≤ length out.old }
    ensures { Put (organisation_rows organisations.now
        (packed_by addresses.now organisations.now first many))
        out.old at result out.new }
{
    let mut to = at;
    for i in first..first + many {
        let p = delivery_at(addresses, organisations, i);
        to = organisation_at(organisations, p.organised, p.organisation, to, out);
    }
    to
}
