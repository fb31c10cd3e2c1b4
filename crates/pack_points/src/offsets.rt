// The offsets of the points of a pack whose trailer and rows are good: each is absent or the start of a row of its type.
ghost use Rattle.std.specs.Prelude.{◌≡◌, true, IfSome};
ghost use Rattle.pack.specs.Opening.{offset_kinds, offsets_good};
ghost use Rattle.pack_read.specs.Laid.{LaidIn, RestIn};
ghost use Rattle.pack_points.specs.Ready.{Sized, Marked, Told, Judges, all_points, offsets_fine};

use file_compare::same_bytes;
use pack_read::inner::{offset_of, trailer_number};
use pack_read::{Layout, PackPoint, PackTrailer};
use pack_rows::inner::{offset_good, offset_marked};

// The types of the rows that the offsets of a point refer to.
const KINDS: [u8; 8] = [1, 2, 3, 2, 3, 4, 5, 6];

// Whether the offsets of the rest at a place are good, each judged with the type of its row.
fn offsets_of<F: Fn(u8, usize) -> bool>(pack: &[u8], judge: &F, rest: usize) -> bool
    requires room { RestIn pack.now rest }
    requires judges { Judges pack.now (F.pre judge.now) (F.post judge.now) }
    ensures { result ≡ offsets_good pack.now rest 0 offset_kinds }
{
    for (n, &kind) in KINDS.iter().enumerate() {
        if !judge(kind, offset_of(pack, rest, n)) {
            return false;
        }
    }
    true
}

// Whether the offsets of a rest are those of another. The houses of a street have the same.
#[inline(always)]
fn repeats(pack: &[u8], rest: usize, other: usize) -> bool
    requires { RestIn pack.now rest × RestIn pack.now other }
    ensures { result ≡ true → offsets_good pack.now rest 0 offset_kinds
        ≡ offsets_good pack.now other 0 offset_kinds }
{
    let at = rest + PackPoint::OFFSETS;
    let to = other + PackPoint::OFFSETS;
    same_bytes(
        &pack[at..rest + PackPoint::REST],
        &pack[to..other + PackPoint::REST],
    )
}

// Whether the offsets of the rest at a place are good, those of another being known to be where there is one.
fn next_offsets<F: Fn(u8, usize) -> bool>(
    pack: &[u8],
    judge: &F,
    rest: usize,
    known: Option<usize>,
) -> bool
    requires room { RestIn pack.now rest }
    requires judges { Judges pack.now (F.pre judge.now) (F.post judge.now) }
    requires known { IfSome known (λ other. RestIn pack.now other × (offsets_good pack.now other 0 offset_kinds ≡ true)) }
    ensures { result ≡ offsets_good pack.now rest 0 offset_kinds }
{
    if let Some(other) = known
        && repeats(pack, rest, other)
    {
        return true;
    }
    offsets_of(pack, judge, rest)
}

// Whether the offsets of all points are good, each judged with the type of its row.
fn all_offsets<F: Fn(u8, usize) -> bool>(pack: &[u8], judge: F, layout: Layout) -> bool
    requires sized { Sized pack.now }
    requires laid { LaidIn pack.now layout }
    requires judges { Judges pack.now (F.pre judge) (F.post judge) }
    ensures { result ≡ all_points pack.now (offsets_fine pack.now) }
{
    let count = trailer_number(pack, layout, PackTrailer::POINTS);
    let start = trailer_number(pack, layout, PackTrailer::START);
    let mut known = None;
    for i in 0..count {
        let rest = start + layout.point * i + layout.rest;
        if !next_offsets(pack, &judge, rest, known) {
            return false;
        }
        known = Some(rest);
    }
    true
}

// Whether the offsets of all points are good, told by bits.
pub fn offsets_marked(pack: &[u8], rows: &[u8], marks: &[u32], layout: Layout) -> bool
    requires { Sized pack.now × (LaidIn pack.now layout × Marked pack.now rows.now marks.now) }
    ensures { result ≡ all_points pack.now (offsets_fine pack.now) }
{
    let first = rows[0];
    all_offsets(
        pack,
        move |kind, o| offset_marked(rows, marks, first, kind, o),
        layout,
    )
}

// Whether the offsets of all points are good, told by walks.
pub fn offsets_told(pack: &[u8], rows: &[u8], width: usize, starts: &[u32], layout: Layout) -> bool
    requires { Sized pack.now × (LaidIn pack.now layout × Told pack.now rows.now width starts.now) }
    ensures { result ≡ all_points pack.now (offsets_fine pack.now) }
{
    all_offsets(
        pack,
        move |kind, o| offset_good(rows, width, starts, kind, o),
        layout,
    )
}
