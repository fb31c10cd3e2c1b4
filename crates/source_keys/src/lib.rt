// Refusals 8 and 9 of a delivery point, by its keys and the rows that these find.
#![tactic(auto)]

ghost use Rattle.std.specs.Prelude.{◌≡◌, cond};
ghost use Rattle.source.specs.Delivery.{forbidden_in, lacking_from, missing_in, refusal_in};

use refusal::{Reason, Verdict};
use source::{DeliveryPoint, Found};

// What a test decides: the rule where it holds, or the rest.
fn first_rule(holds: bool, rule: usize, rest: usize) -> usize
    ensures { result ≡ cond holds rule rest }
{
    if holds { rule } else { rest }
}

// The forbidden combination that a delivery point has, 0 where it has none.
pub fn forbidden_in(p: DeliveryPoint) -> usize
    ensures { result ≡ forbidden_in p }
{
    let keys = p.keys;
    let street = keys[1] != 0;
    let descriptor = keys[2] != 0;
    let dependent = keys[3] != 0;
    let second = keys[4] != 0;
    let name = keys[5] != 0;
    let sub = keys[6] != 0;
    let number = p.number != 0;
    let third = first_rule((descriptor & !street) | (second & !dependent), 3, 0);
    first_rule(
        sub & !(name | number),
        1,
        first_rule(dependent & !street, 2, third),
    )
}

// The first key that is not zero and finds no row, counted from 1; 0 where there is none.
fn first_lacking(keys: [u32; 7], rows: [usize; 7]) -> usize
    ensures { result ≡ lacking_from 1 keys rows }
{
    let lacking = keys
        .iter()
        .zip(&rows)
        .position(|(key, row)| (*key != 0) & (*row == 0));
    match lacking {
        Some(i) => i + 1,
        None => 0,
    }
}

// The first field whose row is missing, 0 where there is none.
pub fn missing_in(p: DeliveryPoint, found: Found) -> usize
    ensures { result ≡ missing_in p found.rows }
{
    let keys = p.keys;
    let rows = found.rows;
    if keys[0] == 0 {
        return 1;
    }
    let field = first_lacking(keys, rows);
    first_rule(field == 0, first_rule(p.lacking, 8, 0), field)
}

// Refusal 8 or 9 of a delivery point.
pub fn refusal_in(p: DeliveryPoint, found: Found) -> Verdict
    ensures { result ≡ refusal_in p found.rows }
{
    let rule = forbidden_in(p);
    if rule != 0 {
        return Err(Reason::Combination { rule, view: 0 });
    }
    let field = missing_in(p, found);
    if field != 0 {
        return Err(Reason::MissingKey { field, view: 0 });
    }
    Ok(())
}
