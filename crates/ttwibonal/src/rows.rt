// The calls that a C program makes for CSV PAF: rows written of a pair or of a set, and a file of rows read.
ghost use Rattle.std.specs.Prelude.{◌≡◌, []};
ghost use Rattle.mainfile.specs.Set.{set_of};
ghost use Rattle.call.specs.Call.{pair_files, set_files, of_csv_row, of_csv_rows, of_csv, of_csv_label, of_csv_labels, of_csv_list, called, comes_to};

// A view as a row of CSV PAF, written into `out`.
#[unsafe(no_mangle)]
pub extern "C" fn ttw_csv_row<'a>(
    table: &'a [u8],
    points: &'a [u8],
    view: u64,
    out: &mut [u8],
) -> u64
    ensures { called result out.new 0
        ≡ comes_to (of_csv_row (pair_files table.now points.now) view) out.old 0 }
{
    refusal::packed_answer(changes_csv::row_of_view(table, points, view as usize, out)) as u64
}

// So many rows from a view on, one behind the other in `out`, and their bytes in `bytes`.
#[unsafe(no_mangle)]
pub extern "C" fn ttw_csv_rows<'a>(
    table: &'a [u8],
    points: &'a [u8],
    first: u64,
    count: u64,
    out: &mut [u8],
    bytes: &mut u64,
) -> u64
    ensures { called result out.new bytes.new
        ≡ comes_to (of_csv_rows (pair_files table.now points.now) first count)
        out.old bytes.old }
{
    let run = changes_csv::rows_of_views(table, points, first as usize, count as usize, out);
    *bytes = run::bytes_of(run, *bytes as usize) as u64;
    run::packed_series(run) as u64
}

// A view of a set as a row.
#[unsafe(no_mangle)]
pub extern "C" fn ttw_main_csv_row(
    localities: &[u8],
    thoroughfares: &[u8],
    descriptors: &[u8],
    buildings: &[u8],
    subs: &[u8],
    organisations: &[u8],
    addresses: &[u8],
    view: u64,
    out: &mut [u8],
) -> u64
    ensures { called result out.new 0 ≡ comes_to (of_csv_row (set_files (set_of localities.now
        thoroughfares.now descriptors.now buildings.now subs.now
        organisations.now addresses.now)) view) out.old 0 }
{
    let answer = mainfile_csv::row_of_view(
        localities,
        thoroughfares,
        descriptors,
        buildings,
        subs,
        organisations,
        addresses,
        view as usize,
        out,
    );
    refusal::packed_answer(answer) as u64
}

// So many rows of a set from a view on.
#[unsafe(no_mangle)]
pub extern "C" fn ttw_main_csv_rows(
    localities: &[u8],
    thoroughfares: &[u8],
    descriptors: &[u8],
    buildings: &[u8],
    subs: &[u8],
    organisations: &[u8],
    addresses: &[u8],
    first: u64,
    count: u64,
    out: &mut [u8],
    bytes: &mut u64,
) -> u64
    ensures { called result out.new bytes.new ≡ comes_to (of_csv_rows (set_files (set_of
        localities.now thoroughfares.now descriptors.now buildings.now
        subs.now organisations.now addresses.now)) first count) out.old
        bytes.old }
{
    let run = mainfile_csv::rows_of_views(
        localities,
        thoroughfares,
        descriptors,
        buildings,
        subs,
        organisations,
        addresses,
        first as usize,
        count as usize,
        out,
    );
    *bytes = run::bytes_of(run, *bytes as usize) as u64;
    run::packed_series(run) as u64
}

// How many rows a file of CSV PAF has.
#[unsafe(no_mangle)]
pub extern "C" fn ttw_csv(csv: &[u8]) -> u64
    ensures { called result [] 0 ≡ comes_to (of_csv csv.now) [] 0 }
{
    refusal::packed_answer(csv_read::check_csv(csv)) as u64
}

// The label of a row, printed into `out`.
#[unsafe(no_mangle)]
pub extern "C" fn ttw_csv_label(csv: &[u8], row: u64, out: &mut [u8]) -> u64
    ensures { called result out.new 0
        ≡ comes_to (of_csv_label csv.now row) out.old 0 }
{
    refusal::packed_answer(csv_label::label_of_row(csv, row as usize, out)) as u64
}

// So many labels from a row on, one behind the other in `out`, and their bytes in `bytes`.
#[unsafe(no_mangle)]
pub extern "C" fn ttw_csv_labels(
    csv: &[u8],
    first: u64,
    count: u64,
    out: &mut [u8],
    bytes: &mut u64,
) -> u64
    ensures { called result out.new bytes.new
        ≡ comes_to (of_csv_labels csv.now first count)
        out.old bytes.old }
{
    let run = csv_label::labels_of_rows(csv, first as usize, count as usize, out);
    *bytes = run::bytes_of(run, *bytes as usize) as u64;
    run::packed_series(run) as u64
}

// So many rows from one on in `out`, each as its line and the label or the line of its refusal.
#[unsafe(no_mangle)]
pub extern "C" fn ttw_csv_list(
    csv: &[u8],
    first: u64,
    count: u64,
    out: &mut [u8],
    bytes: &mut u64,
) -> u64
    ensures { called result out.new bytes.new
        ≡ comes_to (of_csv_list csv.now first count)
        out.old bytes.old }
{
    let list = csv_label::list_of_rows(csv, first as usize, count as usize, out);
    *bytes = run::bytes_of(list, *bytes as usize) as u64;
    run::packed_series(list) as u64
}
