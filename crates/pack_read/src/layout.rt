// What the edition of a pack decides: how wide its points and its trailer are.
ghost use Rattle.std.specs.Prelude.{◌≡◌, ◌≤◌};
ghost use Rattle.pack.specs.Names.{known, has_suffix, has_counts, suffix_width, counts_width, behind_postcode, behind_fields};
ghost use Rattle.pack_read.specs.Laid.{Laid, LaidIn};

use crate::kinds::{PackPoint, PackTrailer};

// The widths of an edition: a point up to its rest, a point, the trailer.
#[derive(Clone, Copy)]
pub struct Layout {
    pub edition: u8,
    pub rest: usize,
    pub point: usize,
    pub trailer: usize,
}

// Whether there is such an edition.
pub fn is_known(edition: u8) -> bool
    ensures { result ≡ known edition }
{
    matches!(edition, 1..=3)
}

// Whether the points of an edition have a suffix.
pub fn has_suffix(edition: u8) -> bool
    ensures { result ≡ has_suffix edition }
{
    matches!(edition, 2..=3)
}

// Whether the trailer of an edition has counts.
pub fn has_counts(edition: u8) -> bool
    ensures { result ≡ has_counts edition }
{
    edition == 3
}

// How many bytes an edition puts behind the postcode.
fn behind_postcode(edition: u8) -> usize
    ensures { (result ≡ behind_postcode edition) × (result ≤ suffix_width) }
{
    if has_suffix(edition) {
        PackPoint::SUFFIX_WIDTH
    } else {
        0
    }
}

// How many bytes an edition puts behind the trailer's fields.
fn behind_fields(edition: u8) -> usize
    ensures { (result ≡ behind_fields edition) × (result ≤ counts_width) }
{
    if has_counts(edition) {
        PackTrailer::COUNTS_WIDTH
    } else {
        0
    }
}

// The widths of an edition; those of edition 1 where there is none such.
pub fn layout_of(edition: u8) -> Layout
    ensures { Laid edition result }
{
    let rest = PackPoint::POSTCODE_END + behind_postcode(edition);
    Layout {
        edition,
        rest,
        point: rest + PackPoint::REST,
        trailer: PackTrailer::FIELDS + behind_fields(edition) + PackTrailer::EDITION,
    }
}

// The widths of the edition that a pack's last byte says, 0 where it has no byte.
pub fn layout_in(pack: &[u8]) -> Layout
    ensures { LaidIn pack.now result }
{
    layout_of(pack.last().copied().unwrap_or(0))
}
