// The calls that a C program makes of a Mainfile set: its seven files stand first, each a slice of its own.
ghost use Rattle.std.specs.Prelude.{◌≡◌, []};
ghost use Rattle.mainfile.specs.Set.{set_of};
ghost use Rattle.call.specs.Call.{set, of_main, of_main_live, of_main_codes, of_label, of_code_label, of_labels, of_code_labels, of_list, of_code_list, of_build, called, comes_to};

// How many views a set has.
#[unsafe(no_mangle)]
pub extern "C" fn ttw_main(
    localities: &[u8],
    thoroughfares: &[u8],
    descriptors: &[u8],
    buildings: &[u8],
    subs: &[u8],
    organisations: &[u8],
    addresses: &[u8],
) -> u64
    ensures { called result [] 0 ≡ comes_to (of_main (set_of localities.now thoroughfares.now
        descriptors.now buildings.now subs.now organisations.now
        addresses.now)) [] 0 }
{
    let answer = mainfile_list::views_in(
        localities,
        thoroughfares,
        descriptors,
        buildings,
        subs,
        organisations,
        addresses,
    );
    refusal::packed_answer(answer) as u64
}

// How many addresses of an address file are in a code.
#[unsafe(no_mangle)]
pub extern "C" fn ttw_main_live(addresses: &[u8], code: &[u8]) -> u64
    ensures { called result [] 0 ≡ comes_to (of_main_live addresses.now code.now) [] 0 }
{
    refusal::packed_answer(mainfile_views::live_in(addresses, code)) as u64
}

// The outward codes of an address file, rising, written into `out` with how many addresses each has.
#[unsafe(no_mangle)]
pub extern "C" fn ttw_main_codes(addresses: &[u8], out: &mut [u8]) -> u64
    ensures { called result out.new 0
        ≡ comes_to (of_main_codes addresses.now) out.old 0 }
{
    refusal::packed_answer(mainfile_codes::codes_in(addresses, out)) as u64
}

// The label of a view of a set, printed into `out`.
#[unsafe(no_mangle)]
pub extern "C" fn ttw_main_label(
    localities: &[u8],
    thoroughfares: &[u8],
    descriptors: &[u8],
    buildings: &[u8],
    subs: &[u8],
    organisations: &[u8],
    addresses: &[u8],
    view: u64,
    out: &mut [u8],
) -> u64
    ensures { called result out.new 0 ≡ comes_to (of_label (set (set_of localities.now
        thoroughfares.now descriptors.now buildings.now subs.now
        organisations.now addresses.now)) view) out.old 0 }
{
    let answer = mainfile_label::label_view(
        localities,
        thoroughfares,
        descriptors,
        buildings,
        subs,
        organisations,
        addresses,
        view as usize,
        out,
    );
    refusal::packed_answer(answer) as u64
}

// The label of the k-th address of a set in a code, printed into `out`.
#[unsafe(no_mangle)]
pub extern "C" fn ttw_main_code_label(
    localities: &[u8],
    thoroughfares: &[u8],
    descriptors: &[u8],
    buildings: &[u8],
    subs: &[u8],
    organisations: &[u8],
    addresses: &[u8],
    code: &[u8],
    k: u64,
    out: &mut [u8],
) -> u64
    ensures { called result out.new 0 ≡ comes_to (of_code_label (set (set_of localities.now
        thoroughfares.now descriptors.now buildings.now subs.now
        organisations.now addresses.now)) code.now k) out.old 0 }
{
    let answer = mainfile_label::label_in_code(
        localities,
        thoroughfares,
        descriptors,
        buildings,
        subs,
        organisations,
        addresses,
        code,
        k as usize,
        out,
    );
    refusal::packed_answer(answer) as u64
}

// So many labels of a set from a view on, one behind the other in `out`, and their bytes in `bytes`.
#[unsafe(no_mangle)]
pub extern "C" fn ttw_main_labels(
    localities: &[u8],
    thoroughfares: &[u8],
    descriptors: &[u8],
    buildings: &[u8],
    subs: &[u8],
    organisations: &[u8],
    addresses: &[u8],
    first: u64,
    count: u64,
    out: &mut [u8],
    bytes: &mut u64,
) -> u64
    ensures { called result out.new bytes.new ≡ comes_to (of_labels (set (set_of
        localities.now thoroughfares.now descriptors.now buildings.now
        subs.now organisations.now addresses.now)) first count) out.old
        bytes.old }
{
    let run = mainfile_runs::labels_of_views(
        localities,
        thoroughfares,
        descriptors,
        buildings,
        subs,
        organisations,
        addresses,
        first as usize,
        count as usize,
        out,
    );
    *bytes = run::bytes_of(run, *bytes as usize) as u64;
    run::packed_series(run) as u64
}

// The same from the k-th address in a code on.
#[unsafe(no_mangle)]
pub extern "C" fn ttw_main_code_labels(
    localities: &[u8],
    thoroughfares: &[u8],
    descriptors: &[u8],
    buildings: &[u8],
    subs: &[u8],
    organisations: &[u8],
    addresses: &[u8],
    code: &[u8],
    first: u64,
    count: u64,
    out: &mut [u8],
    bytes: &mut u64,
) -> u64
    ensures { called result out.new bytes.new ≡ comes_to (of_code_labels (set (set_of
        localities.now thoroughfares.now descriptors.now buildings.now
        subs.now organisations.now addresses.now)) code.now first count)
        out.old bytes.old }
{
    let run = mainfile_runs::labels_in_code(
        localities,
        thoroughfares,
        descriptors,
        buildings,
        subs,
        organisations,
        addresses,
        code,
        first as usize,
        count as usize,
        out,
    );
    *bytes = run::bytes_of(run, *bytes as usize) as u64;
    run::packed_series(run) as u64
}

// So many views of a set from one on, each as its line and its label or refusal.
#[unsafe(no_mangle)]
pub extern "C" fn ttw_main_list(
    localities: &[u8],
    thoroughfares: &[u8],
    descriptors: &[u8],
    buildings: &[u8],
    subs: &[u8],
    organisations: &[u8],
    addresses: &[u8],
    first: u64,
    count: u64,
    out: &mut [u8],
    bytes: &mut u64,
) -> u64
    ensures { called result out.new bytes.new ≡ comes_to (of_list (set (set_of
        localities.now thoroughfares.now descriptors.now buildings.now
        subs.now organisations.now addresses.now)) first count) out.old
        bytes.old }
{
    let list = mainfile_runs::list_of_views(
        localities,
        thoroughfares,
        descriptors,
        buildings,
        subs,
        organisations,
        addresses,
        first as usize,
        count as usize,
        out,
    );
    *bytes = run::bytes_of(list, *bytes as usize) as u64;
    run::packed_series(list) as u64
}

// The same of the addresses in a code from the k-th on.
#[unsafe(no_mangle)]
pub extern "C" fn ttw_main_code_list(
    localities: &[u8],
    thoroughfares: &[u8],
    descriptors: &[u8],
    buildings: &[u8],
    subs: &[u8],
    organisations: &[u8],
    addresses: &[u8],
    code: &[u8],
    first: u64,
    count: u64,
    out: &mut [u8],
    bytes: &mut u64,
) -> u64
    ensures { called result out.new bytes.new ≡ comes_to (of_code_list (set (set_of
        localities.now thoroughfares.now descriptors.now buildings.now
        subs.now organisations.now addresses.now)) code.now first count)
        out.old bytes.old }
{
    let list = mainfile_runs::list_in_code(
        localities,
        thoroughfares,
        descriptors,
        buildings,
        subs,
        organisations,
        addresses,
        code,
        first as usize,
        count as usize,
        out,
    );
    *bytes = run::bytes_of(list, *bytes as usize) as u64;
    run::packed_series(list) as u64
}

// The pack of a code from a set, written into `out`.
#[unsafe(no_mangle)]
pub extern "C" fn ttw_main_build(
    localities: &[u8],
    thoroughfares: &[u8],
    descriptors: &[u8],
    buildings: &[u8],
    subs: &[u8],
    organisations: &[u8],
    addresses: &[u8],
    code: &[u8],
    out: &mut [u8],
) -> u64
    ensures { called result out.new 0 ≡ comes_to (of_build (set (set_of localities.now
        thoroughfares.now descriptors.now buildings.now subs.now
        organisations.now addresses.now)) code.now) out.old 0 }
{
    let answer = mainfile_build::build_pack(
        localities,
        thoroughfares,
        descriptors,
        buildings,
        subs,
        organisations,
        addresses,
        code,
        out,
    );
    refusal::packed_answer(answer) as u64
}
