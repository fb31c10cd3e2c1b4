// What is read of a delivery point whose texts lie within their slice.
ghost use Rattle.std.specs.Prelude.{◌+◌, ◌≤◌, length};
ghost use Rattle.csv_write.specs.Ending.{EndingOf};

use crate::Ending;
use source::DeliveryPoint;

// The ending of a delivery point whose suffix stands in these bytes.
pub fn ending_of(own: &[u8], p: DeliveryPoint) -> Ending
    requires { p.suffix + 2 ≤ length own.now }
    ensures { EndingOf own.now p result }
{
    let at = p.suffix;
    Ending {
        kind: p.postcode_type,
        indicator: p.indicator,
        digit: own[at],
        letter: own[at + 1],
    }
}
