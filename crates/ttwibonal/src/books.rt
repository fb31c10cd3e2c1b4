// The calls that a C program makes for a running address book: its events, and what is asked of it with a table file.
ghost use Rattle.std.specs.Prelude.{◌≡◌, []};
ghost use Rattle.call.specs.Call.{a_book, of_book, of_book_event, of_book_tidy, of_book_live, of_label, of_code_label, of_labels, of_code_labels, of_list, of_code_list, of_build, called, comes_to};

// How many delivery points a book has.
#[unsafe(no_mangle)]
pub extern "C" fn ttw_book(book: &[u8]) -> u64
    ensures { called result [] 0 ≡ comes_to (of_book book.now) [] 0 }
{
    refusal::packed_answer(book_check::check_book(book)) as u64
}

// Does in a book what the event of a view says: the place concerned.
#[unsafe(no_mangle)]
pub extern "C" fn ttw_book_event(book: &mut [u8], points: &[u8], view: u64) -> u64
    ensures { called result book.new 0
        ≡ comes_to (of_book_event points.now view) book.old 0 }
{
    refusal::packed_answer(book_event::book_event(book, points, view as usize)) as u64
}

// Moves the places into the first slots, in order.
#[unsafe(no_mangle)]
pub extern "C" fn ttw_book_tidy(book: &mut [u8]) -> u64
    ensures { called result book.new 0 ≡ comes_to of_book_tidy book.old 0 }
{
    refusal::packed_answer(book_event::tidy_book(book)) as u64
}

// How many delivery points of a code are present.
#[unsafe(no_mangle)]
pub extern "C" fn ttw_book_live(book: &[u8], code: &[u8]) -> u64
    ensures { called result [] 0 ≡ comes_to (of_book_live book.now code.now) [] 0 }
{
    refusal::packed_answer(book_label::live_in(book, code)) as u64
}

// The label of a place, printed into `out`.
#[unsafe(no_mangle)]
pub extern "C" fn ttw_book_label<'a>(
    book: &'a [u8],
    table: &'a [u8],
    place: u64,
    out: &mut [u8],
) -> u64
    ensures { called result out.new 0
        ≡ comes_to (of_label (a_book book.now table.now) place) out.old 0 }
{
    refusal::packed_answer(book_label::label_of_place(book, table, place as usize, out)) as u64
}

// The label of the k-th that is present in a code, printed into `out`.
#[unsafe(no_mangle)]
pub extern "C" fn ttw_book_code_label<'a>(
    book: &'a [u8],
    table: &'a [u8],
    code: &[u8],
    k: u64,
    out: &mut [u8],
) -> u64
    ensures { called result out.new 0
        ≡ comes_to (of_code_label (a_book book.now table.now) code.now k)
        out.old 0 }
{
    refusal::packed_answer(book_label::label_in_code(book, table, code, k as usize, out)) as u64
}

// So many labels from a place on, one behind the other in `out`, and their bytes in `bytes`.
#[unsafe(no_mangle)]
pub extern "C" fn ttw_book_labels<'a>(
    book: &'a [u8],
    table: &'a [u8],
    first: u64,
    count: u64,
    out: &mut [u8],
    bytes: &mut u64,
) -> u64
    ensures { called result out.new bytes.new
        ≡ comes_to (of_labels (a_book book.now table.now) first count)
        out.old bytes.old }
{
    let run = book_label::labels_of_places(book, table, first as usize, count as usize, out);
    *bytes = run::bytes_of(run, *bytes as usize) as u64;
    run::packed_series(run) as u64
}

// The same from the k-th that is present in a code on.
#[unsafe(no_mangle)]
pub extern "C" fn ttw_book_code_labels<'a>(
    book: &'a [u8],
    table: &'a [u8],
    code: &[u8],
    first: u64,
    count: u64,
    out: &mut [u8],
    bytes: &mut u64,
) -> u64
    ensures { called result out.new bytes.new
        ≡ comes_to (of_code_labels (a_book book.now table.now) code.now first count)
        out.old bytes.old }
{
    let run = book_label::labels_in_code(book, table, code, first as usize, count as usize, out);
    *bytes = run::bytes_of(run, *bytes as usize) as u64;
    run::packed_series(run) as u64
}

// So many places from one on in `out`, each as its line and the label or the line of its refusal, and their bytes in `bytes`.
#[unsafe(no_mangle)]
pub extern "C" fn ttw_book_list<'a>(
    book: &'a [u8],
    table: &'a [u8],
    first: u64,
    count: u64,
    out: &mut [u8],
    bytes: &mut u64,
) -> u64
    ensures { called result out.new bytes.new
        ≡ comes_to (of_list (a_book book.now table.now) first count)
        out.old bytes.old }
{
    let list = book_label::list_of_places(book, table, first as usize, count as usize, out);
    *bytes = run::bytes_of(list, *bytes as usize) as u64;
    run::packed_series(list) as u64
}

// The same from the k-th that is present in a code on.
#[unsafe(no_mangle)]
pub extern "C" fn ttw_book_code_list<'a>(
    book: &'a [u8],
    table: &'a [u8],
    code: &[u8],
    first: u64,
    count: u64,
    out: &mut [u8],
    bytes: &mut u64,
) -> u64
    ensures { called result out.new bytes.new
        ≡ comes_to (of_code_list (a_book book.now table.now) code.now first count)
        out.old bytes.old }
{
    let list = book_label::list_in_code(book, table, code, first as usize, count as usize, out);
    *bytes = run::bytes_of(list, *bytes as usize) as u64;
    run::packed_series(list) as u64
}

// The pack of an outward code, cut from a book and a table file into `out`.
#[unsafe(no_mangle)]
pub extern "C" fn ttw_book_build(book: &[u8], table: &[u8], code: &[u8], out: &mut [u8]) -> u64
    ensures { called result out.new 0
        ≡ comes_to (of_build (a_book book.now table.now) code.now)
        out.old 0 }
{
    refusal::packed_answer(book_build::build_pack(book, table, code, out)) as u64
}
