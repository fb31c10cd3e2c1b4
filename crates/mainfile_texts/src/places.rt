// Where the texts stand in the buffer.
ghost use Rattle.std.specs.Prelude.{◌≡◌};
ghost use Rattle.mainfile_texts.specs.Gathered.{span_at, spans_from};

use label::{Span, Spans};
use source::DeliveryPoint;

// Each behind the one before, as wide as its field.
#[derive(Clone, Copy)]
pub struct Places;

impl Places {
    pub const ORGANISATION: usize = 0;

    pub const DEPARTMENT: usize = 60;

    pub const PO_BOX: usize = 120;

    pub const OUTWARD: usize = 126;

    pub const INWARD: usize = 130;

    pub const SUB_BUILDING: usize = 133;

    pub const BUILDING: usize = 163;

    pub const DEPENDENT: usize = 213;

    pub const DEPENDENT_DESCRIPTOR: usize = 273;

    pub const THOROUGHFARE: usize = 293;

    pub const DESCRIPTOR: usize = 353;

    pub const DOUBLE_LOCALITY: usize = 373;

    pub const DEPENDENT_LOCALITY: usize = 408;

    pub const TOWN: usize = 443;

    pub const END: usize = 473;
}

fn span_at(at: usize, len: u8) -> Span
    ensures { result ≡ span_at at len }
{
    Span {
        first: true,
        at,
        len,
    }
}

// The spans of the elements, by the lengths of the texts.
pub fn spans_from(
    own: [u8; 5],
    premises: [u8; 2],
    streets: [u8; 4],
    localities: [u8; 3],
    p: DeliveryPoint,
) -> Spans
    ensures { result ≡ spans_from own premises streets localities p }
{
    Spans {
        organisation: span_at(Places::ORGANISATION, own[0]),
        department: span_at(Places::DEPARTMENT, own[1]),
        po_box: span_at(Places::PO_BOX, own[2]),
        sub_building: span_at(Places::SUB_BUILDING, premises[0]),
        building: span_at(Places::BUILDING, premises[1]),
        number: p.number,
        concatenation: p.concatenation,
        dependent: span_at(Places::DEPENDENT, streets[0]),
        dependent_descriptor: span_at(Places::DEPENDENT_DESCRIPTOR, streets[1]),
        thoroughfare: span_at(Places::THOROUGHFARE, streets[2]),
        descriptor: span_at(Places::DESCRIPTOR, streets[3]),
        double_locality: span_at(Places::DOUBLE_LOCALITY, localities[0]),
        dependent_locality: span_at(Places::DEPENDENT_LOCALITY, localities[1]),
        town: span_at(Places::TOWN, localities[2]),
        outward: span_at(Places::OUTWARD, own[3]),
        inward: span_at(Places::INWARD, own[4]),
    }
}
