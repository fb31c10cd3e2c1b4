// What is shown of an address of accepted files: its label, or in a listing its item.
ghost use Rattle.std.specs.Prelude.{◌≡◌, true};
ghost use Rattle.refusal.specs.Outcome.{said};
ghost use Rattle.mainfile.specs.Set.{set_of};
ghost use Rattle.mainfile_label.specs.Places.{AddressPlace};
ghost use Rattle.mainfile_runs.specs.Shown.{shown_at};

use item_write::inner::{headed_item, room_before, worded_line};
use mainfile_label::inner::label_at;
use refusal::Answer;

// The item of an address record: its line, then its label or the line of its refusal.
fn item_at(
    localities: &[u8],
    thoroughfares: &[u8],
    descriptors: &[u8],
    buildings: &[u8],
    subs: &[u8],
    organisations: &[u8],
    addresses: &[u8],
    place: usize,
    out: &mut [u8],
) -> Answer
    requires { AddressPlace (set_of localities.now thoroughfares.now descriptors.now buildings.now
        subs.now organisations.now addresses.now) place }
    ensures { said result out.new ≡ shown_at true (set_of localities.now
        thoroughfares.now descriptors.now buildings.now subs.now
        organisations.now addresses.now) place out.old }
{
    let line = worded_line(b"view", place);
    let bytes = line.bytes;
    let n = line.len;
    let heading = &bytes[..n];
    let room = room_before(heading, out.len());
    let answer = label_at(
        localities,
        thoroughfares,
        descriptors,
        buildings,
        subs,
        organisations,
        addresses,
        place,
        &mut out[room..],
    );
    headed_item(heading, answer, out)
}

// The item of an address record, or its label alone.
pub fn shown_at(
    localities: &[u8],
    thoroughfares: &[u8],
    descriptors: &[u8],
    buildings: &[u8],
    subs: &[u8],
    organisations: &[u8],
    addresses: &[u8],
    place: usize,
    listed: bool,
    out: &mut [u8],
) -> Answer
    requires { AddressPlace (set_of localities.now thoroughfares.now descriptors.now buildings.now
        subs.now organisations.now addresses.now) place }
    ensures { said result out.new ≡ shown_at listed (set_of localities.now
        thoroughfares.now descriptors.now buildings.now subs.now
        organisations.now addresses.now) place out.old }
{
    if listed {
        return item_at(
            localities,
            thoroughfares,
            descriptors,
            buildings,
            subs,
            organisations,
            addresses,
            place,
            out,
        );
    }
    label_at(
        localities,
        thoroughfares,
        descriptors,
        buildings,
        subs,
        organisations,
        addresses,
        place,
        out,
    )
}
