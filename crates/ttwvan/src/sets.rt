// The calls that a C program makes of a Mainfile set: its seven files stand first, each a slice of its own.
ghost use Rattle.std.specs.Prelude.{◌≡◌};
ghost use Rattle.refusal.specs.Outcome.{said};
ghost use Rattle.ask.specs.Labels.{view_label, code_label};
ghost use Rattle.mainfile.specs.Set.{set_of};
ghost use Rattle.mainfile.specs.Main.{main_of};
ghost use Rattle.van.specs.Said.{folding, told};

// The label of a view of a set, folded into `out`.
#[unsafe(no_mangle)]
pub extern "C" fn ttwvan_main_label(
    localities: &[u8],
    thoroughfares: &[u8],
    descriptors: &[u8],
    buildings: &[u8],
    subs: &[u8],
    organisations: &[u8],
    addresses: &[u8],
    view: u64,
    out: &mut [u8],
) -> u64
    ensures { said result out.new ≡ told (folding (view_label (main_of (set_of localities.now
        thoroughfares.now descriptors.now buildings.now subs.now
        organisations.now addresses.now)) view) out.old) }
{
    let answer = van_label::main_label_view(
        localities,
        thoroughfares,
        descriptors,
        buildings,
        subs,
        organisations,
        addresses,
        view as usize,
        out,
    );
    van::packed_answer(answer) as u64
}

// The label of the k-th address in a code, folded into `out`.
#[unsafe(no_mangle)]
pub extern "C" fn ttwvan_main_code_label(
    localities: &[u8],
    thoroughfares: &[u8],
    descriptors: &[u8],
    buildings: &[u8],
    subs: &[u8],
    organisations: &[u8],
    addresses: &[u8],
    code: &[u8],
    k: u64,
    out: &mut [u8],
) -> u64
    ensures { said result out.new ≡ told (folding (code_label (main_of (set_of localities.now
        thoroughfares.now descriptors.now buildings.now subs.now
        organisations.now addresses.now)) code.now k) out.old) }
{
    let answer = van_label::main_label_in_code(
        localities,
        thoroughfares,
        descriptors,
        buildings,
        subs,
        organisations,
        addresses,
        code,
        k as usize,
        out,
    );
    van::packed_answer(answer) as u64
}
