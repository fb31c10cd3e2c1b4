// The check of a Mainfile set: its seven files in their order, and the first refusal.
#![tactic(auto)]

ghost use Rattle.std.specs.Prelude.{◌≡◌};
ghost use Rattle.refusal.specs.Outcome.{after};
ghost use Rattle.file.specs.Check.{checked};
ghost use Rattle.file.specs.Mainfile.{main_format};
ghost use Rattle.mainfile.specs.Set.{set_of, set_judged};

use file::MainKind;
use file_check::check_main;
use refusal::Answer;

// A file behind others: it is looked at only where none of them was refused.
fn then_file(found: Answer, kind: MainKind, file: &[u8]) -> Answer
    ensures { result ≡ after found (checked (main_format kind) file.now) }
{
    found?;
    check_main(kind, file)
}

// How many records the address file of an accepted set has, or the set's first refusal.
pub fn check_set(
    localities: &[u8],
    thoroughfares: &[u8],
    descriptors: &[u8],
    buildings: &[u8],
    subs: &[u8],
    organisations: &[u8],
    addresses: &[u8],
) -> Answer
    ensures { result ≡ set_judged (set_of localities.now thoroughfares.now
        descriptors.now buildings.now subs.now
        organisations.now addresses.now) }
{
    let first = check_main(MainKind::Localities, localities);
    let second = then_file(first, MainKind::Thoroughfares, thoroughfares);
    let third = then_file(second, MainKind::Descriptors, descriptors);
    let fourth = then_file(third, MainKind::Buildings, buildings);
    let fifth = then_file(fourth, MainKind::SubBuildings, subs);
    let sixth = then_file(fifth, MainKind::Organisations, organisations);
    then_file(sixth, MainKind::Addresses, addresses)
}
