// The fields of a row, one behind the other.
ghost use Rattle.std.specs.Prelude.{◌≡◌, List, [], ℕ, suc, ◌+◌, ◌-◌, ◌≤◌, length};
ghost use Rattle.field.specs.Text.{part, text_in};
ghost use Rattle.label.specs.Spans.{text_in2};
ghost use Rattle.csv_read.specs.Cut.{field_end, field_start};
ghost use Rattle.csv_spans.specs.Row.{GoodRow, PlacesSay, PremisesSay};

use csv_read::inner::field_end;
use field_read::{read_text, value_of};
use file_record::part_of;
use label::Span;

// A text, and where the field behind it begins.
#[derive(Clone, Copy)]
pub struct Cut {
    pub span: Span,
    pub next: usize,
}

// The fields from post town to dependent thoroughfare, and where the number begins.
#[derive(Clone, Copy)]
pub struct Places {
    pub town: Span,
    pub dependent_locality: Span,
    pub double_locality: Span,
    pub thoroughfare: Span,
    pub dependent: Span,
    pub next: usize,
}

// Those from building number to organisation.
#[derive(Clone, Copy)]
pub struct Premises {
    pub number: u16,
    pub building: Span,
    pub sub_building: Span,
    pub po_box: Span,
    pub department: Span,
    pub organisation: Span,
}

// A text of no bytes.
pub fn no_text() -> Span
    ensures { (a b : List ℕ) → text_in2 a b result ≡ [] }
{
    Span {
        first: true,
        at: 0,
        len: 0,
    }
}

// The field that begins at a place, without its padding.
fn cut_field(csv: &[u8], start: usize) -> Cut
    requires { (start ≤ length csv.now) × (field_end csv.now start ≤ start + 80) }
    ensures { (text_in2 csv.now csv.now result.span
        ≡ text_in csv.now start (field_end csv.now start))
        × (result.next ≡ suc (field_end csv.now start)) }
{
    let end = field_end(csv, start);
    let text = read_text(csv, start, end);
    Cut {
        span: Span {
            first: true,
            at: start,
            len: text.len() as u8,
        },
        next: end + 1,
    }
}

// The bytes of a postcode before its space, and those behind it.
pub fn outward_span(at: usize, end: usize) -> Span
    requires { (at + 6 ≤ end) × (end ≤ at + 8) }
    ensures { (a b : List ℕ) → text_in2 a b result ≡ part a at (end - 4) }
{
    Span {
        first: true,
        at,
        len: (end - at - 4) as u8,
    }
}

pub fn inward_span(end: usize) -> Span
    requires { 3 ≤ end }
    ensures { (a b : List ℕ) → text_in2 a b result ≡ part a (end - 3) end }
{
    Span {
        first: true,
        at: end - 3,
        len: 3,
    }
}

// Those behind the postcode of the row that begins at a place.
pub fn places_of(csv: &[u8], at: usize, start: usize) -> Places
    requires { GoodRow csv.now at × (start ≡ field_start csv.now at 1) }
    ensures { PlacesSay csv.now at result }
{
    let first = cut_field(csv, start);
    let town = first.span;
    let second = cut_field(csv, first.next);
    let dependent_locality = second.span;
    let third = cut_field(csv, second.next);
    let double_locality = third.span;
    let fourth = cut_field(csv, third.next);
    let thoroughfare = fourth.span;
    let fifth = cut_field(csv, fourth.next);
    let dependent = fifth.span;
    Places {
        town,
        dependent_locality,
        double_locality,
        thoroughfare,
        dependent,
        next: fifth.next,
    }
}

// Those behind these.
pub fn premises_of(csv: &[u8], at: usize, start: usize) -> Premises
    requires { GoodRow csv.now at × (start ≡ field_start csv.now at 6) }
    ensures { PremisesSay csv.now at result }
{
    let end = field_end(csv, start);
    let number = value_of(part_of(csv, start, end));
    let first = cut_field(csv, end + 1);
    let building = first.span;
    let second = cut_field(csv, first.next);
    let sub_building = second.span;
    let third = cut_field(csv, second.next);
    let po_box = third.span;
    let fourth = cut_field(csv, third.next);
    let department = fourth.span;
    let fifth = cut_field(csv, fourth.next);
    let organisation = fifth.span;
    Premises {
        number: number as u16,
        building,
        sub_building,
        po_box,
        department,
        organisation,
    }
}
