// The outward codes of an address file, rising, each with how many addresses it has. The file is judged first. It rises
// by postcode, so that the addresses of a code stand together and the next code is found by halves: once to know how
// many bytes are needed, and once to write them.
#![tactic(auto)]

mod walk;

ghost use Rattle.std.specs.Prelude.{◌≡◌};
ghost use Rattle.file.specs.Mainfile.{addresses as format};
ghost use Rattle.file.specs.Accepted.{Accepted};
ghost use Rattle.refusal.specs.Outcome.{said};
ghost use Rattle.tally_bytes.specs.Entries.{entries_outcome};
ghost use Rattle.mainfile_codes.specs.Codes.{codes_in, codes_outcome};

use refusal::{Answer, Reason};
use tally_bytes::Entry;

// The codes of an accepted file.
fn list_codes(addresses: &[u8], out: &mut [u8]) -> Answer
    requires { Accepted format addresses.now }
    ensures { said result out.new ≡ entries_outcome (codes_in addresses.now) out.old }
{
    let n = walk::count_codes(addresses);
    let needed = Entry::WIDTH * n;
    if out.len() < needed {
        return Err(Reason::Room { needed }.into());
    }
    walk::write_codes(addresses, out);
    Ok(n)
}

// The outward codes of any bytes given as an address file.
pub fn codes_in(addresses: &[u8], out: &mut [u8]) -> Answer
    ensures { said result out.new ≡ codes_outcome addresses.now out.old }
{
    file_check::check_main(file::MainKind::Addresses, addresses)?;
    list_codes(addresses, out)
}
