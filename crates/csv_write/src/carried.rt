// Whether a row can carry its texts: none has a comma or a double quote, and no joined street is too long.
ghost use Rattle.std.specs.Prelude.{◌≡◌, not};
ghost use Rattle.label.specs.Spans.{text_in2, elements_in};
ghost use Rattle.csv_paf.specs.Row.{plain_byte, plain, street_fits, carried};
ghost use Rattle.csv_write.specs.Carried.{places_plain, premises_plain};

use crate::length::street_len;
use label::{Span, Spans, text_of};

fn is_marked(b: u8) -> bool
    ensures { result ≡ not (plain_byte b) }
{
    (b == b',') | (b == b'"')
}

// Whether every byte is plain. No byte ends the loop, so that many are taken at once.
fn all_plain(s: &[u8]) -> bool
    ensures { result ≡ plain s.now }
{
    let mut bad = false;
    for &b in s {
        bad |= is_marked(b);
    }
    !bad
}

// The same of the text at a span.
fn is_plain<'a>(a: &'a [u8], b: &'a [u8], s: Span) -> bool
    ensures { result ≡ plain (text_in2 a.now b.now s) }
{
    let t = text_of(a, b, s);
    all_plain(t)
}

// Town, localities and thoroughfares.
fn places_plain<'a>(a: &'a [u8], b: &'a [u8], e: Spans) -> bool
    ensures { result ≡ places_plain (elements_in a.now b.now e) }
{
    let town = is_plain(a, b, e.town);
    let dependent_locality = is_plain(a, b, e.dependent_locality);
    let double_locality = is_plain(a, b, e.double_locality);
    let thoroughfare = is_plain(a, b, e.thoroughfare);
    let descriptor = is_plain(a, b, e.descriptor);
    let dependent = is_plain(a, b, e.dependent);
    let beside = is_plain(a, b, e.dependent_descriptor);
    town & dependent_locality & double_locality & thoroughfare & descriptor & dependent & beside
}

// Names, PO box and organisation.
fn premises_plain<'a>(a: &'a [u8], b: &'a [u8], e: Spans) -> bool
    ensures { result ≡ premises_plain (elements_in a.now b.now e) }
{
    let building = is_plain(a, b, e.building);
    let sub_building = is_plain(a, b, e.sub_building);
    let po_box = is_plain(a, b, e.po_box);
    let department = is_plain(a, b, e.department);
    let organisation = is_plain(a, b, e.organisation);
    building & sub_building & po_box & department & organisation
}

fn street_fits<'a>(a: &'a [u8], b: &'a [u8], name: Span, descriptor: Span) -> bool
    ensures { result ≡ street_fits (text_in2 a.now b.now name)
        (text_in2 a.now b.now descriptor) }
{
    street_len(a, b, name, descriptor) <= 80
}

pub fn is_carried<'a>(a: &'a [u8], b: &'a [u8], e: Spans) -> bool
    ensures { result ≡ carried (elements_in a.now b.now e) }
{
    let places = places_plain(a, b, e);
    let premises = premises_plain(a, b, e);
    let street = street_fits(a, b, e.thoroughfare, e.descriptor);
    let beside = street_fits(a, b, e.dependent, e.dependent_descriptor);
    places & premises & street & beside
}
