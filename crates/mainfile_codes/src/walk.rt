// From code to code of an accepted address file.
ghost use Rattle.std.specs.Prelude.{◌≡◌, ◌/◌, ◌≤◌, ◌<◌, length};
ghost use Rattle.field.specs.Text.{part};
ghost use Rattle.file_record.specs.Parts.{record_at};
ghost use Rattle.file.specs.Mainfile.{addresses as format};
ghost use Rattle.file.specs.Accepted.{Accepted};
ghost use Rattle.label.specs.Put.{Wrote};
ghost use Rattle.mainfile_views.specs.Range.{end_in};
ghost use Rattle.tally_bytes.specs.Entries.{entry_bytes};
ghost use Rattle.mainfile_codes.specs.Codes.{code_in, codes_in};

use file_record::inner::whole_record;
use file_record::part_of;
use mainfile_record::Address;
use mainfile_views::{all_in, end_in};
use tally_bytes::inner::entry_at;

// The outward code of record `i`.
fn code_at(addresses: &[u8], i: usize) -> usize
    requires { i < length addresses.now / 88 }
    ensures { result ≡ code_in addresses.now i }
{
    let rec = whole_record(addresses, Address::WIDTH, i);
    pack_read::inner::number_within(rec, Address::OUTWARD, 4)
}

// The first record behind those that have the outward code of record `i`.
fn end_from(addresses: &[u8], i: usize) -> usize
    requires { i < length addresses.now / 88 }
    ensures { result ≡ end_in addresses.now (part (record_at 88 addresses.now i) 0 4) }
{
    let rec = whole_record(addresses, Address::WIDTH, i);
    let code = part_of(rec, Address::OUTWARD, Address::INWARD);
    end_in(addresses, code)
}

// How many codes there are.
pub fn count_codes(addresses: &[u8]) -> usize
    requires { Accepted format addresses.now }
    ensures { (result ≡ length (codes_in addresses.now)) × (result ≤ 1000000) }
{
    let all = all_in(addresses);
    let views = all.many;
    let mut n = 0;
    let mut i = 1;
    while i <= views {
        i = end_from(addresses, i);
        n += 1;
    }
    n
}

// Each code with how many addresses it has, at the front of a lent buffer that has room for them.
pub fn write_codes(addresses: &[u8], out: &mut [u8]) -> usize
    requires accepted { Accepted format addresses.now }
    requires addresses_in_bounds { length (entry_bytes (codes_in addresses.now)) ≤ length out.old }
    ensures { Wrote (entry_bytes (codes_in addresses.now)) out.old result out.new }
{
    let all = all_in(addresses);
    let views = all.many;
    let mut at = 0;
    let mut i = 1;
    while i <= views {
        let code = code_at(addresses, i);
        let end = end_from(addresses, i);
        at = entry_at(code, end - i, at, out);
        i = end;
    }
    at
}
