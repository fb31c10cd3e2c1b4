// The check of a whole file of fixed records: one pass, and the first refusal.
//
// A file is records end to end: a header, records, a trailer. An accepted file is answered with how many records it has,
// header and trailer counted; any other with the file to blame and the first reason, in this order:
//   1 Length     not 2 or more whole records, or more than its format allows
//   2 Header     record 1 is no header of its format
//   3 Trailer    the last record is no trailer of so many records
// then, record by record,
//   4 Malformed  the byte of the record's first fault
//   5 NotAbove   not above the record before it
//   6 Follower   a record that may not stand between its neighbours
// A refusal counts records and bytes from 1; the code counts records from 0. `file_formats` has what differs by kind.
#![tactic(auto)]

ghost use Rattle.std.specs.Prelude.{◌≡◌, ◌+◌, ◌-◌, ◌≤◌, ◌<◌};
ghost use Rattle.file.specs.Check.{records, judged, scan, verdict, answered, checked};
ghost use Rattle.file_check.specs.Scanning.{Scanning, Onward};
ghost use Rattle.file.specs.Formats.{format_of, table_format, point_format};
ghost use Rattle.file.specs.Mainfile.{main_format};

use file::{Kind, MainKind};
use file_formats::inner::{
    fault_in, is_above, is_between, is_header, is_standing, is_trailer, is_whole, numbers_of,
    record_in, records_in,
};
use file_record::Cursor;
use refusal::{Answer, Reason, Refusal, Verdict};

// Record `i`, counted from 0, between header and trailer: 4, then 5, then 6.
fn judge(kind: Kind, file: &[u8], i: usize) -> Verdict
    requires { (1 ≤ i) × (i + 1 < records (format_of kind) file.now) × (i ≤ 1000000) }
    ensures { result ≡ judged (format_of kind) file.now i }
{
    let rec = record_in(kind, file, i);
    let fault = fault_in(kind, rec);
    if fault != 0 {
        return Err(refusal::malformed(i + 1, fault));
    }
    let before = record_in(kind, file, i - 1);
    if !is_above(kind, i, before, rec) {
        return Err(Reason::NotAbove { record: i + 1 });
    }
    if is_between(kind, file, i) {
        Ok(())
    } else {
        Err(Reason::Follower { record: i + 1 })
    }
}

// The first record from `from` on that is not known to stand. Most records are, so that this loop is nearly all there is.
fn standing(kind: Kind, file: &[u8], n: usize, from: usize) -> usize
    requires { Scanning (format_of kind) file.now n from }
    ensures { Onward (format_of kind) file.now n from result }
{
    for i in from..n - 1 {
        if !is_standing(kind, file, i) {
            return i;
        }
    }
    n - 1
}

// The first refusal of the records between header and trailer.
fn scan_records(kind: Kind, file: &[u8], n: usize) -> Verdict
    requires { (2 ≤ n) × (n ≤ 1000000) × (n ≡ records (format_of kind) file.now) }
    ensures { result ≡ scan (judged (format_of kind) file.now) (n - 2) 1 }
{
    let start = Cursor::fresh();
    let mut i = standing(kind, file, n, start.at);
    while i < n - 1 {
        judge(kind, file, i)?;
        i = standing(kind, file, n, i + 1);
    }
    Ok(())
}

// The first refusal of a file: 1, 2, 3, then record by record.
fn verdict_of(kind: Kind, file: &[u8]) -> Verdict
    ensures { result ≡ verdict (format_of kind) file.now }
{
    if !is_whole(kind, file) {
        return Err(Reason::Length);
    }
    let n = records_in(kind, file);
    if !is_header(kind, record_in(kind, file, 0)) {
        return Err(Reason::Header);
    }
    if !is_trailer(kind, record_in(kind, file, n - 1), n) {
        return Err(Reason::Trailer { record: n });
    }
    scan_records(kind, file, n)
}

// How many records an accepted file has, or its first refusal.
fn check(kind: Kind, file: &[u8]) -> Answer
    ensures { result ≡ checked (format_of kind) file.now }
{
    match verdict_of(kind, file) {
        Ok(()) => Ok(records_in(kind, file)),
        Err(reason) => Err(Refusal {
            file: numbers_of(kind).file,
            reason,
        }),
    }
}

pub fn check_table(file: &[u8]) -> Answer
    ensures { result ≡ checked table_format file.now }
{
    check(Kind::Table, file)
}

pub fn check_points(file: &[u8]) -> Answer
    ensures { result ≡ checked point_format file.now }
{
    check(Kind::Points, file)
}

// A file of a Mainfile set.
pub fn check_main(kind: MainKind, file: &[u8]) -> Answer
    ensures { result ≡ checked (main_format kind) file.now }
{
    check(Kind::Main(kind), file)
}
