// Building the pack of an outward code from a book and a table file. The book is judged first, then the table file, then the code,
// then the delivery points of the code in order of place; the pack's length is known before its first byte is written, and a
// refused call writes nothing.
#![tactic(auto)]

mod walks;
mod whole;

ghost use Rattle.std.specs.Prelude.{◌≡◌};
ghost use Rattle.refusal.specs.Outcome.{said};
ghost use Rattle.label.specs.Label.{room_outcome};
ghost use Rattle.ask.specs.Source.{in_code};
ghost use Rattle.pack.specs.Cutting.{cut_outcome, pack_built};
ghost use Rattle.changes_source.specs.Rows.{table_lookup};
ghost use Rattle.changes_whole.specs.Marked.{Marked};
ghost use Rattle.book_source.specs.Starts.{addresses_at};
ghost use Rattle.book_source.specs.Source.{addresses_of, book_of};
ghost use Rattle.book_build.specs.Chosen.{packed_all, Known};
ghost use Rattle.book_build.specs.Ready.{chosen_pack, Judged, MayPack};

use book_source::check_source;
use pack_read::NewestPack;
use refusal::{Answer, Reason};

// The most records of a table file.
const RECORDS: usize = 20000;

// The pack, where it fits: how many bytes it has is known before the first is written.
fn write_if_room(
    table: &[u8],
    refs: &[u32],
    book: &[u8],
    chosen: &[u32],
    code: &[u8],
    starts: &mut [u32],
    out: &mut [u8],
) -> Answer
    requires known { Known table.now refs.now book.now chosen.now }
    requires may_pack { MayPack table.now book.now chosen.now code.now }
    requires marked { Marked table.now (packed_all book.now chosen.now) starts.old }
    ensures { said result out.new ≡ room_outcome (chosen_pack table.now book.now
        chosen.now code.now) out.old }
{
    let of_table = build_place::inner::place_rows(table, changes_source::table_shelf(), starts);
    let of_book = walks::organisations_in(book, chosen);
    let points = NewestPack::POINT * chosen.len();
    let needed = of_table.bytes + of_book.bytes + points + NewestPack::TRAILER;
    if out.len() < needed {
        return Err(Reason::Room { needed }.into());
    }
    let rows = of_table.rows + of_book.rows;
    Ok(whole::write_pack(table, refs, book, chosen, starts, code, rows, out))
}

// The pack of chosen delivery points.
fn cut_chosen(table: &[u8], book: &[u8], chosen: &[u32], code: &[u8], out: &mut [u8]) -> Answer
    requires { MayPack table.now book.now chosen.now code.now }
    ensures { said result out.new ≡ cut_outcome (table_lookup table.now)
        (addresses_at book.now chosen.now) code.now out.old }
{
    let mut refs = [0u32; RECORDS];
    shelf_find::inner::fill_refs(table, changes_source::table_shelf(), &mut refs);
    let mut starts = [0u32; RECORDS];
    walks::mark_chosen(table, &refs, book, chosen, &mut starts)?;
    write_if_room(table, &refs, book, chosen, code, &mut starts, out)
}

// The pack of a code from a book and a table file that are accepted.
fn cut(book: &[u8], table: &[u8], code: &[u8], out: &mut [u8]) -> Answer
    requires { Judged book.now table.now code.now }
    ensures { said result out.new ≡ cut_outcome (table_lookup table.now)
        (in_code code.now (addresses_of book.now)) code.now out.old }
{
    let found = book_source::inner::starts_in(book, code);
    let starts = found.at;
    let many = found.many;
    cut_chosen(table, book, &starts[..many], code, out)
}

// The pack of a code, for any bytes given as book, table file and code.
pub fn build_pack(book: &[u8], table: &[u8], code: &[u8], out: &mut [u8]) -> Answer
    ensures { said result out.new
        ≡ pack_built (book_of book.now table.now) code.now out.old }
{
    check_source(book, table)?;
    if field_outward::outward_fault(code) != 0 {
        return Err(Reason::BadCode.into());
    }
    cut(book, table, code, out)
}
