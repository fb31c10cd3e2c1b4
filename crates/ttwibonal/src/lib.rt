// The calls that a C program makes. Each answers one number, which packs the answer of the crate below; see the header,
// include/ttwibonal.h.
#![tactic(auto)]

mod books;
mod rows;
mod sets;

ghost use Rattle.std.specs.Prelude.{◌≡◌, []};
ghost use Rattle.call.specs.Call.{of_table, of_points, of_views, of_letter, of_live, of_codes, of_label, of_code_label, of_build, of_pack, of_pack_label, of_labels, of_code_labels, of_pack_labels, of_list, of_code_list, of_pack_list, of_pack_suffix, of_sector, of_unspace_table, of_unspace_points, pair, called, comes_to};

use changes_items::list_in_code;
use changes_label::label_in_code;
use changes_runs::labels_in_code;

// How many records a table file has.
#[unsafe(no_mangle)]
pub extern "C" fn ttw_table(table: &[u8]) -> u64
    ensures { called result [] 0 ≡ comes_to (of_table table.now) [] 0 }
{
    refusal::packed_answer(file_check::check_table(table)) as u64
}

// How many records a point file has.
#[unsafe(no_mangle)]
pub extern "C" fn ttw_points(points: &[u8]) -> u64
    ensures { called result [] 0 ≡ comes_to (of_points points.now) [] 0 }
{
    refusal::packed_answer(file_check::check_points(points)) as u64
}

// Rewrites a table file where it stands: identifiers of all spaces, as archived files have them, become proper ones. How many.
#[unsafe(no_mangle)]
pub extern "C" fn ttw_unspace_table(file: &mut [u8]) -> u64
    ensures { called result file.new 0 ≡ comes_to of_unspace_table file.old 0 }
{
    refusal::packed_answer(Ok(unspace_file::unspace_table(file))) as u64
}

// The same of a point file.
#[unsafe(no_mangle)]
pub extern "C" fn ttw_unspace_points(file: &mut [u8]) -> u64
    ensures { called result file.new 0 ≡ comes_to of_unspace_points file.old 0 }
{
    refusal::packed_answer(Ok(unspace_file::unspace_points(file))) as u64
}

// How many views a point file has.
#[unsafe(no_mangle)]
pub extern "C" fn ttw_views(points: &[u8]) -> u64
    ensures { called result [] 0 ≡ comes_to (of_views points.now) [] 0 }
{
    refusal::packed_answer(changes_list::views_in(points)) as u64
}

// The amendment letter of a view.
#[unsafe(no_mangle)]
pub extern "C" fn ttw_letter(points: &[u8], view: u64) -> u64
    ensures { called result [] 0 ≡ comes_to (of_letter points.now view) [] 0 }
{
    refusal::packed_answer(changes_list::letter_of(points, view as usize)) as u64
}

// How many live views a code has.
#[unsafe(no_mangle)]
pub extern "C" fn ttw_live(points: &[u8], code: &[u8]) -> u64
    ensures { called result [] 0 ≡ comes_to (of_live points.now code.now) [] 0 }
{
    refusal::packed_answer(changes_list::live_in(points, code)) as u64
}

// The outward codes with live views, rising, written into `out` with how many live views each has.
#[unsafe(no_mangle)]
pub extern "C" fn ttw_codes(points: &[u8], out: &mut [u8]) -> u64
    ensures { called result out.new 0 ≡ comes_to (of_codes points.now) out.old 0 }
{
    refusal::packed_answer(changes_codes::codes_in(points, out)) as u64
}

// The label of a view, printed into `out`.
#[unsafe(no_mangle)]
pub extern "C" fn ttw_label<'a>(table: &'a [u8], points: &'a [u8], view: u64, out: &mut [u8]) -> u64
    ensures { called result out.new 0
        ≡ comes_to (of_label (pair table.now points.now) view) out.old 0 }
{
    refusal::packed_answer(changes_label::label_view(table, points, view as usize, out)) as u64
}

// The label of the k-th live view in a code, printed into `out`.
#[unsafe(no_mangle)]
pub extern "C" fn ttw_code_label<'a>(
    table: &'a [u8],
    points: &'a [u8],
    code: &[u8],
    k: u64,
    out: &mut [u8],
) -> u64
    ensures { called result out.new 0
        ≡ comes_to (of_code_label (pair table.now points.now) code.now k)
        out.old 0 }
{
    refusal::packed_answer(label_in_code(table, points, code, k as usize, out)) as u64
}

// The pack of an outward code, cut from both files into `out`.
#[unsafe(no_mangle)]
pub extern "C" fn ttw_build(table: &[u8], points: &[u8], code: &[u8], out: &mut [u8]) -> u64
    ensures { called result out.new 0
        ≡ comes_to (of_build (pair table.now points.now) code.now)
        out.old 0 }
{
    refusal::packed_answer(changes_build::build_pack(table, points, code, out)) as u64
}

// How many points a pack has.
#[unsafe(no_mangle)]
pub extern "C" fn ttw_pack(pack: &[u8]) -> u64
    ensures { called result [] 0 ≡ comes_to (of_pack pack.now) [] 0 }
{
    refusal::packed_answer(pack_open::open_pack(pack)) as u64
}

// The label of point k of a pack, printed into `out`.
#[unsafe(no_mangle)]
pub extern "C" fn ttw_pack_label<'a>(pack: &'a [u8], k: u64, out: &mut [u8]) -> u64
    ensures { called result out.new 0
        ≡ comes_to (of_pack_label pack.now k) out.old 0 }
{
    refusal::packed_answer(pack_label::label_of_point(pack, k as usize, out)) as u64
}

// The suffix of point k of a pack as one number: its first byte times 256 plus the second.
#[unsafe(no_mangle)]
pub extern "C" fn ttw_pack_suffix(pack: &[u8], k: u64) -> u64
    ensures { called result [] 0 ≡ comes_to (of_pack_suffix pack.now k) [] 0 }
{
    refusal::packed_answer(pack_suffix::suffix_of_point(pack, k as usize)) as u64
}

// How many points of a pack have this inward digit, 0 to 9.
#[unsafe(no_mangle)]
pub extern "C" fn ttw_sector(pack: &[u8], digit: u64) -> u64
    ensures { called result [] 0 ≡ comes_to (of_sector pack.now digit) [] 0 }
{
    refusal::packed_answer(pack_sector::points_in_sector(pack, digit as usize)) as u64
}

// So many labels from a view on, one behind the other in `out`, and their bytes in `bytes`.
#[unsafe(no_mangle)]
pub extern "C" fn ttw_labels<'a>(
    table: &'a [u8],
    points: &'a [u8],
    first: u64,
    count: u64,
    out: &mut [u8],
    bytes: &mut u64,
) -> u64
    ensures { called result out.new bytes.new
        ≡ comes_to (of_labels (pair table.now points.now) first count)
        out.old bytes.old }
{
    let run = changes_runs::labels_of_views(table, points, first as usize, count as usize, out);
    *bytes = run::bytes_of(run, *bytes as usize) as u64;
    run::packed_series(run) as u64
}

// The same from the k-th live view of a code on.
#[unsafe(no_mangle)]
pub extern "C" fn ttw_code_labels<'a>(
    table: &'a [u8],
    points: &'a [u8],
    code: &[u8],
    first: u64,
    count: u64,
    out: &mut [u8],
    bytes: &mut u64,
) -> u64
    ensures { called result out.new bytes.new
        ≡ comes_to (of_code_labels (pair table.now points.now) code.now first count)
        out.old bytes.old }
{
    let run = labels_in_code(table, points, code, first as usize, count as usize, out);
    *bytes = run::bytes_of(run, *bytes as usize) as u64;
    run::packed_series(run) as u64
}

// The same from point k of a pack on.
#[unsafe(no_mangle)]
pub extern "C" fn ttw_pack_labels<'a>(
    pack: &'a [u8],
    first: u64,
    count: u64,
    out: &mut [u8],
    bytes: &mut u64,
) -> u64
    ensures { called result out.new bytes.new
        ≡ comes_to (of_pack_labels pack.now first count)
        out.old bytes.old }
{
    let run = pack_runs::labels_of_points(pack, first as usize, count as usize, out);
    *bytes = run::bytes_of(run, *bytes as usize) as u64;
    run::packed_series(run) as u64
}

// So many views from one on in `out`, each as its line and the label or the line of its refusal, and their bytes in
// `bytes`.
#[unsafe(no_mangle)]
pub extern "C" fn ttw_list<'a>(
    table: &'a [u8],
    points: &'a [u8],
    first: u64,
    count: u64,
    out: &mut [u8],
    bytes: &mut u64,
) -> u64
    ensures { called result out.new bytes.new
        ≡ comes_to (of_list (pair table.now points.now) first count)
        out.old bytes.old }
{
    let list = changes_items::list_of_views(table, points, first as usize, count as usize, out);
    *bytes = run::bytes_of(list, *bytes as usize) as u64;
    run::packed_series(list) as u64
}

// The same of the live views of a code, from the k-th on.
#[unsafe(no_mangle)]
pub extern "C" fn ttw_code_list<'a>(
    table: &'a [u8],
    points: &'a [u8],
    code: &[u8],
    first: u64,
    count: u64,
    out: &mut [u8],
    bytes: &mut u64,
) -> u64
    ensures { called result out.new bytes.new
        ≡ comes_to (of_code_list (pair table.now points.now) code.now first count)
        out.old bytes.old }
{
    let list = list_in_code(table, points, code, first as usize, count as usize, out);
    *bytes = run::bytes_of(list, *bytes as usize) as u64;
    run::packed_series(list) as u64
}

// The same of the points of a pack, each as its line and the label.
#[unsafe(no_mangle)]
pub extern "C" fn ttw_pack_list<'a>(
    pack: &'a [u8],
    first: u64,
    count: u64,
    out: &mut [u8],
    bytes: &mut u64,
) -> u64
    ensures { called result out.new bytes.new
        ≡ comes_to (of_pack_list pack.now first count)
        out.old bytes.old }
{
    let list = pack_items::list_of_points(pack, first as usize, count as usize, out);
    *bytes = run::bytes_of(list, *bytes as usize) as u64;
    run::packed_series(list) as u64
}
