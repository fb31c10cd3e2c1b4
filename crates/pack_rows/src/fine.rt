// A quick yes to the question whether the rows are good: the ends of each text are looked at one by one, the bytes within
// them in one sweep over all rows. Where this says no, the rows are judged text by text.
ghost use Rattle.std.specs.Prelude.{◌≡◌, true, false, [], ◌∷◌, ◌+◌, ◌≤◌, ◌<◌, length, IfSome};
ghost use Rattle.bits.specs.Bits.{Unmarked};
ghost use Rattle.pack.specs.Opening.{slot, slots_of, text_good, text_at, text_end, row_kind};
ghost use Rattle.pack_rows.specs.Marks.{Fine};
ghost use Rattle.pack_rows.specs.Odds.{odd, odds};
ghost use Rattle.pack_rows.specs.Steps.{Stepped};

use crate::sweep::odds_of;
use bits::inner::mark;
use field::lesser;
use pack_read::inner::text_end;

// A step over a row that is fine as far as its ends and lengths go: where it ends, and how many of its bytes outside of its
// texts may stand in no text.
#[derive(Clone, Copy)]
pub struct Step {
    pub end: usize,
    pub odds: usize,
}

// 1 for a length below 32, which may stand in no text, 0 for another.
fn low(b: u8) -> usize
    ensures { (result ≤ odd b) × (result ≤ 1) }
{
    usize::from(b < 32)
}

// Whether the text at a place is good where its bytes may stand in a text. Of an empty one its length byte, 0, is taken
// for both ends.
fn ends_good(rows: &[u8], at: usize, width: u8, blank: bool) -> bool
    requires { text_end rows.now at ≤ length rows.now }
    ensures { result ≡ true → odds (text_at rows.now at) ≡ 0
        → text_good (slot width blank) (text_at rows.now at) ≡ true }
{
    let n = rows[at];
    let first = rows[at + lesser(1, n as usize)];
    let last = rows[at + n as usize];
    (n <= width) & ((first != 32) & ((last != 32) & (blank | (n != 0))))
}

// A row of one text that may not be empty.
fn text_step(rows: &[u8], at: usize, width: u8) -> Option<Step>
    requires { (at + 1 < length rows.now) × (slots_of (row_kind rows.now at) ≡ slot width false ∷ [])
        × ((2 ≤ row_kind rows.now at) × (row_kind rows.now at ≤ 6)) }
    ensures { IfSome result (λ s. Stepped rows.now at s) }
{
    let text = at + 1;
    let end = text_end(rows, text);
    if rows.len() < end {
        return None;
    }
    let odds = 1 + low(rows[text]);
    ends_good(rows, text, width, false).then_some(Step { end, odds })
}

fn locality_step(rows: &[u8], at: usize) -> Option<Step>
    requires { (at + 1 < length rows.now) × (row_kind rows.now at ≡ 1) }
    ensures { IfSome result (λ s. Stepped rows.now at s) }
{
    let town = at + 1;
    let dependent = text_end(rows, town);
    let double = text_end(rows, dependent);
    let end = text_end(rows, double);
    if rows.len() < end {
        return None;
    }
    let towns = ends_good(rows, town, 30, false);
    let dependents = ends_good(rows, dependent, 35, true);
    let doubles = ends_good(rows, double, 35, true);
    let alone = (rows[dependent] == 0) & (rows[double] != 0);
    let odds = 1 + low(rows[town]) + low(rows[dependent]) + low(rows[double]);
    ((towns & (dependents & doubles)) & !alone).then_some(Step { end, odds })
}

fn organisation_step(rows: &[u8], at: usize) -> Option<Step>
    requires { (at + 1 < length rows.now) × (row_kind rows.now at ≡ 6) }
    ensures { IfSome result (λ s. Stepped rows.now at s) }
{
    let name = at + 1;
    let department = text_end(rows, name);
    let end = text_end(rows, department);
    if rows.len() < end {
        return None;
    }
    let names = ends_good(rows, name, 60, true);
    let departments = ends_good(rows, department, 60, true);
    let odds = 1 + low(rows[name]) + low(rows[department]);
    (names & departments).then_some(Step { end, odds })
}

fn row_step(rows: &[u8], at: usize) -> Option<Step>
    requires { at + 1 < length rows.now }
    ensures { IfSome result (λ s. Stepped rows.now at s) }
{
    match rows[at] {
        1 => locality_step(rows, at),
        2 => text_step(rows, at, 60),
        3 => text_step(rows, at, 20),
        4 => text_step(rows, at, 50),
        5 => text_step(rows, at, 30),
        6 => organisation_step(rows, at),
        _ => None,
    }
}

// How many bytes outside of texts may stand in no text, where the rows are so many fine ones and there are some. Their
// starts are marked on the way.
fn odds_outside(rows: &[u8], count: usize, marks: &mut [u32]) -> Option<usize>
    requires { Unmarked marks.old }
    ensures { IfSome result (λ n. odds rows.now ≡ n → Fine rows.now count marks.new) }
{
    let mut kind = 1;
    let mut odds = 0;
    let mut at = 0;
    for _ in 0..count {
        if rows.len() <= at + 1 {
            return None;
        }
        let step = row_step(rows, at)?;
        if rows[at] < kind {
            return None;
        }
        mark(marks, at);
        kind = rows[at];
        odds += step.odds;
        at = step.end;
    }
    ((0 < at) & (at == rows.len())).then_some(odds)
}

// Whether the rows are so many good ones, at first sight. Their starts are marked where they are.
pub fn rows_fine(rows: &[u8], count: usize, marks: &mut [u32]) -> bool
    requires { Unmarked marks.old }
    ensures { result ≡ true → Fine rows.now count marks.new }
{
    odds_outside(rows, count, marks).is_some_and(|outside| odds_of(rows) == outside)
}
