// A walk over records that stand together, of accepted files, which are not judged again.
ghost use Rattle.std.specs.Prelude.{◌≡◌, ◌+◌, ◌≤◌};
ghost use Rattle.refusal.specs.Outcome.{said};
ghost use Rattle.run.specs.Series.{run_from};
ghost use Rattle.mainfile.specs.Set.{set_of};
ghost use Rattle.mainfile_label.specs.Places.{place_among, Between};
ghost use Rattle.mainfile_runs.specs.Shown.{shown_among, place_behind};

use crate::shown::shown_at;
use mainfile_label::inner::place_among;
use mainfile_views::Stretch;
use refusal::Answer;
use run::Series;
use run_in_turn::inner::{InTurn, in_turn};

// The record behind one of them, 0 where there is none.
pub fn place_behind(s: Stretch, place: usize) -> usize
    requires { (s.first + s.many ≤ 1_000_000) × (place ≤ 1_000_000) }
    ensures { result ≡ place_behind s.first s.many place }
{
    let next = place + 1;
    if next < s.first + s.many { next } else { 0 }
}

// Records that stand together, shown from one on, and the place of that one.
#[derive(Drop)]
struct Records<'a> {
    localities: &'a [u8],
    thoroughfares: &'a [u8],
    descriptors: &'a [u8],
    buildings: &'a [u8],
    subs: &'a [u8],
    organisations: &'a [u8],
    addresses: &'a [u8],
    of: Stretch,
    listed: bool,
    place: usize,
}

impl<'a> InTurn for Records<'a> {
    ghost asking = { λ s. let files = set_of s.localities.now s.thoroughfares.now s.descriptors.now s.buildings.now
        s.subs.now s.organisations.now s.addresses.now in
        shown_among s.listed files s.of.first s.of.many };

    ghost is_next = { λ s k. let files = set_of s.localities.now s.thoroughfares.now s.descriptors.now s.buildings.now
        s.subs.now s.organisations.now s.addresses.now in
        Between files s.of.first s.of.many × (s.place ≡ place_among s.of.first s.of.many k) };

    fn ask_next(&mut self, out: &mut [u8]) -> Answer {
        let bytes = shown_at(
            self.localities,
            self.thoroughfares,
            self.descriptors,
            self.buildings,
            self.subs,
            self.organisations,
            self.addresses,
            self.place,
            self.listed,
            out,
        )?;
        self.place = place_behind(self.of, self.place);
        Ok(bytes)
    }
}

// So many of them from the k-th on.
pub fn walk(
    localities: &[u8],
    thoroughfares: &[u8],
    descriptors: &[u8],
    buildings: &[u8],
    subs: &[u8],
    organisations: &[u8],
    addresses: &[u8],
    s: Stretch,
    listed: bool,
    first: usize,
    count: usize,
    out: &mut [u8],
) -> Series
    requires { Between (set_of localities.now thoroughfares.now descriptors.now buildings.now
        subs.now organisations.now addresses.now) s.first s.many }
    ensures { said result out.new ≡ run_from (shown_among listed (set_of localities.now
        thoroughfares.now descriptors.now buildings.now subs.now
        organisations.now addresses.now) s.first s.many) first count out.old }
{
    let mut turns = Records {
        localities,
        thoroughfares,
        descriptors,
        buildings,
        subs,
        organisations,
        addresses,
        of: s,
        listed,
        place: place_among(s, first),
    };
    in_turn(&mut turns, count, out)
}
