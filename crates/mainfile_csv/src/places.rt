// The row of an address of accepted files, which are not judged again.
ghost use Rattle.std.specs.Prelude.{◌≡◌};
ghost use Rattle.refusal.specs.Outcome.{said};
ghost use Rattle.csv_write.specs.Ending.{written_by};
ghost use Rattle.mainfile.specs.Set.{set_of};
ghost use Rattle.mainfile_meaning.specs.Elements.{elements_at, Inside};
ghost use Rattle.mainfile_label.specs.Places.{AddressPlace};
ghost use Rattle.mainfile_csv.specs.Rows.{place_row};

use csv_write::Ending;
use mainfile_texts::inner::{gather_localities, gather_own, gather_premises, gather_streets};
use mainfile_texts::{Places, spans_from};
use refusal::{Answer, Reason};
use source::{DeliveryPoint, Found};

// Writes the row of a delivery point from its texts, gathered in one buffer.
fn write_from(
    localities: &[u8],
    thoroughfares: &[u8],
    descriptors: &[u8],
    buildings: &[u8],
    subs: &[u8],
    organisations: &[u8],
    addresses: &[u8],
    p: DeliveryPoint,
    found: Found,
    x: Ending,
    out: &mut [u8],
) -> Answer
    requires { Inside addresses.now organisations.now p }
    ensures { said result out.new ≡ written_by x (elements_at
        (set_of localities.now thoroughfares.now descriptors.now
        buildings.now subs.now organisations.now addresses.now) p found.rows)
        out.old }
{
    let rows = found.rows;
    let mut texts = [0u8; Places::END];
    let own = gather_own(organisations, addresses, p, &mut texts);
    let premises = gather_premises(buildings, subs, rows, &mut texts);
    let streets = gather_streets(thoroughfares, descriptors, rows, &mut texts);
    let places = gather_localities(localities, rows, &mut texts);
    let spans = spans_from(own, premises, streets, places, p);
    let all = &texts[..];
    csv_write::print_row(all, all, spans, x, out)
}

// The row of an address record, 0 being none.
pub fn row_at(
    localities: &[u8],
    thoroughfares: &[u8],
    descriptors: &[u8],
    buildings: &[u8],
    subs: &[u8],
    organisations: &[u8],
    addresses: &[u8],
    place: usize,
    out: &mut [u8],
) -> Answer
    requires { AddressPlace (set_of localities.now thoroughfares.now descriptors.now buildings.now subs.now
        organisations.now addresses.now) place }
    ensures { said result out.new ≡ place_row (set_of localities.now thoroughfares.now
        descriptors.now buildings.now subs.now organisations.now
        addresses.now) place out.old }
{
    if place == 0 {
        return Err(Reason::NoSuchNumber.into());
    }
    let p = mainfile_source::delivery_at(addresses, organisations, place);
    let keys = p.keys;
    let found = mainfile_source::kind_rows(
        localities,
        thoroughfares,
        descriptors,
        buildings,
        subs,
        keys,
    );
    source_keys::refusal_in(p, found)?;
    write_from(
        localities,
        thoroughfares,
        descriptors,
        buildings,
        subs,
        organisations,
        addresses,
        p,
        found,
        csv_write::inner::ending_of(addresses, p),
        out,
    )
}
