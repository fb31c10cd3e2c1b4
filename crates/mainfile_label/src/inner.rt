// The label of a record of accepted files, which are not judged again.
ghost use Rattle.std.specs.Prelude.{◌≡◌, ◌+◌, ◌≤◌};
ghost use Rattle.refusal.specs.Outcome.{said};
ghost use Rattle.label.specs.Label.{label_of, room_outcome};
ghost use Rattle.mainfile_meaning.specs.Elements.{elements_at, Inside};
ghost use Rattle.mainfile.specs.Set.{set_of};
ghost use Rattle.mainfile_label.specs.Places.{place_among, AddressPlace, place_label};

use mainfile_texts::inner::{gather_localities, gather_own, gather_premises, gather_streets};
use mainfile_texts::{Places, spans_from};
use mainfile_views::Stretch;
use refusal::{Answer, Reason};
use source::{DeliveryPoint, Found};

// The record of the k-th of some that stand together; 0 where there is none.
pub fn place_among(s: Stretch, k: usize) -> usize
    requires { s.first + s.many ≤ 1_000_000 }
    ensures { result ≡ place_among s.first s.many k }
{
    if k == 0 {
        return 0;
    }
    let before = k - 1;
    if before < s.many { s.first + before } else { 0 }
}

// Prints the label of a delivery point from its texts, gathered in one buffer.
fn print_from(
    localities: &[u8],
    thoroughfares: &[u8],
    descriptors: &[u8],
    buildings: &[u8],
    sub_buildings: &[u8],
    organisations: &[u8],
    addresses: &[u8],
    p: DeliveryPoint,
    found: Found,
    out: &mut [u8],
) -> Answer
    requires { Inside addresses.now organisations.now p }
    ensures { said result out.new ≡ room_outcome (label_of (elements_at (set_of localities.now
        thoroughfares.now descriptors.now buildings.now sub_buildings.now
        organisations.now addresses.now) p found.rows)) out.old }
{
    let rows = found.rows;
    let mut texts = [0u8; Places::END];
    let own = gather_own(organisations, addresses, p, &mut texts);
    let premises = gather_premises(buildings, sub_buildings, rows, &mut texts);
    let streets = gather_streets(thoroughfares, descriptors, rows, &mut texts);
    let places = gather_localities(localities, rows, &mut texts);
    let spans = spans_from(own, premises, streets, places, p);
    let all = &texts[..];
    label_print::print_label(all, all, spans, out)
}

// The label of an address record, 0 being none.
pub fn label_at(
    localities: &[u8],
    thoroughfares: &[u8],
    descriptors: &[u8],
    buildings: &[u8],
    sub_buildings: &[u8],
    organisations: &[u8],
    addresses: &[u8],
    place: usize,
    out: &mut [u8],
) -> Answer
    requires { AddressPlace (set_of localities.now thoroughfares.now descriptors.now buildings.now
        sub_buildings.now organisations.now addresses.now) place }
    ensures { said result out.new ≡ place_label (set_of localities.now thoroughfares.now
        descriptors.now buildings.now sub_buildings.now organisations.now
        addresses.now) place out.old }
{
    if place == 0 {
        return Err(Reason::NoSuchNumber.into());
    }
    let p = mainfile_source::delivery_at(addresses, organisations, place);
    let keys = p.keys;
    let found = mainfile_source::kind_rows(
        localities,
        thoroughfares,
        descriptors,
        buildings,
        sub_buildings,
        keys,
    );
    source_keys::refusal_in(p, found)?;
    print_from(
        localities,
        thoroughfares,
        descriptors,
        buildings,
        sub_buildings,
        organisations,
        addresses,
        p,
        found,
        out,
    )
}
