// Document 02's program, No. 9: reads `changes1` and `changes2` where it runs, and writes `changes1.new` and `changes2.new`, in
// which no identifier is spaces. One record is held at a time, so that a file of any length goes through. A new file is made
// under another name, which nothing may have yet, and renamed when it is whole. A line for each file tells how many of its
// identifiers were rewritten.
#![tactic(auto)]

ghost use Rattle.std.specs.Prelude.{◌≡◌, ◌≤◌, length, IfOk};

use file_record::{Point, Table};
use std::fs::{OpenFile, OpenOptions};
use std::io::{ErrorKind, Read, Seek, Write};
use std::rt::Files;
use std::{fs, io};
use unspace_file::inner::{rewrite_header, rewrite_trailer};

// More records than any file has: a proved loop has to end, and nothing says that a file does.
const MOST: usize = 1000000000000000000;

// As many bytes as are lent, passed on as they came.
fn pass(from: &mut impl Read, to: &mut impl Write, rec: &mut [u8]) -> io::Result<()> {
    from.read_exact(rec)?;
    to.write_all(rec)
}

// `n` records, passed on as they came.
fn pass_many(
    from: &mut impl Read,
    to: &mut impl Write,
    n: usize,
    rec: &mut [u8],
) -> io::Result<()> {
    for _ in 0..n {
        pass(from, to, rec)?;
    }
    Ok(())
}

// A record that was rewritten, or was not: how many identifiers that took.
fn pass_rewritten(to: &mut impl Write, rewritten: usize, rec: &mut [u8]) -> io::Result<usize>
    ensures { IfOk result (λ n. n ≡ rewritten) }
{
    to.write_all(rec)?;
    Ok(rewritten)
}

// The first record.
fn pass_header(
    from: &mut impl Read,
    to: &mut impl Write,
    identifier: u8,
    rec: &mut [u8],
) -> io::Result<usize>
    requires { identifier ≤ length rec.old }
    ensures { IfOk result (λ n. n ≤ 1) }
{
    from.read_exact(rec)?;
    let rewritten = rewrite_header(rec, identifier);
    pass_rewritten(to, rewritten, rec)
}

// The last record.
fn pass_trailer(
    from: &mut impl Read,
    to: &mut impl Write,
    identifier: u8,
    rec: &mut [u8],
) -> io::Result<usize>
    requires { identifier ≤ length rec.old }
    ensures { IfOk result (λ n. n ≤ 1) }
{
    from.read_exact(rec)?;
    let rewritten = rewrite_trailer(rec, identifier);
    pass_rewritten(to, rewritten, rec)
}

// A file of `n` whole records, two or more.
fn pass_whole(
    from: &mut impl Read,
    to: &mut impl Write,
    n: usize,
    identifier: u8,
    rec: &mut [u8],
) -> io::Result<usize>
    requires { (2 ≤ n) × (identifier ≤ length rec.old) }
    ensures { IfOk result (λ n. n ≤ 2) }
{
    let head = pass_header(from, to, identifier, rec)?;
    pass_many(from, to, n - 2, rec)?;
    Ok(head + pass_trailer(from, to, identifier, rec)?)
}

// A file that is not as it was counted.
fn changed() -> io::Error {
    io::Error::from(ErrorKind::InvalidData)
}

// What is left behind the records.
fn pass_rest(
    from: &mut impl Read,
    to: &mut impl Write,
    rest: usize,
    rec: &mut [u8],
) -> io::Result<()> {
    if rest <= rec.len() {
        return pass(from, to, &mut rec[..rest]);
    }
    Err(changed())
}

// How many bytes now stand in front: as many as are lent, or fewer where the file ends.
fn read_full(file: &mut impl Read, rec: &mut [u8]) -> io::Result<usize>
    ensures { IfOk result (λ n. n ≤ length rec.new) }
{
    let mut done = 0;
    while done < rec.len() {
        let n = file.read(&mut rec[done..])?;
        if n == 0 {
            break;
        }
        done += n;
    }
    Ok(done)
}

// How many records stand in a file, and how many bytes behind them.
#[derive(Clone, Copy)]
struct Counted {
    records: usize,
    rest: usize,
}

fn count_in(file: &mut impl Read, rec: &mut [u8]) -> io::Result<Counted> {
    for records in 0..MOST {
        let n = read_full(file, rec)?;
        if n < rec.len() {
            return Ok(Counted { records, rest: n });
        }
    }
    Ok(Counted {
        records: MOST,
        rest: 0,
    })
}

// A file that is not two or more whole records is passed on as it came.
fn pass_counted(
    from: &mut impl Read,
    to: &mut impl Write,
    counted: Counted,
    identifier: u8,
    rec: &mut [u8],
) -> io::Result<usize>
    requires { identifier ≤ length rec.old }
    ensures { IfOk result (λ n. n ≤ 2) }
{
    if (counted.rest == 0) & (2 <= counted.records) {
        return pass_whole(from, to, counted.records, identifier, rec);
    }
    pass_many(from, to, counted.records, rec)?;
    pass_rest(from, to, counted.rest, rec)?;
    Ok(0)
}

// Whether nothing stands behind what was read: a file that cannot be read on is not at its end.
fn is_at_end(file: &mut impl Read, rec: &mut [u8]) -> bool {
    matches!(file.read(rec), Ok(0))
}

// A file is read twice: to count its records, and to pass them on.
fn pass_file(
    from: &mut (impl Read + Seek),
    to: &mut impl Write,
    identifier: u8,
    rec: &mut [u8],
) -> io::Result<usize>
    requires { identifier ≤ length rec.old }
    ensures { IfOk result (λ n. n ≤ 2) }
{
    let counted = count_in(from, rec)?;
    if !is_at_end(from, rec) {
        return Err(changed());
    }
    from.rewind()?;
    let rewritten = pass_counted(from, to, counted, identifier, rec)?;
    if is_at_end(from, rec) {
        Ok(rewritten)
    } else {
        Err(changed())
    }
}

// Both files are closed behind this. A close tells nothing, so what was written is brought to the disk, which tells more.
fn pass_and_close<F: Read + Write + Seek + OpenFile + Drop>(
    mut from: F,
    mut to: F,
    identifier: u8,
    rec: &mut [u8],
) -> io::Result<usize>
    requires { identifier ≤ length rec.old }
    ensures { IfOk result (λ n. n ≤ 2) }
{
    let rewritten = pass_file(&mut from, &mut to, identifier, rec)?;
    to.sync_all()?;
    Ok(rewritten)
}

// What was made gets its name where it is whole, and is taken away where it is not.
fn is_kept(rt: &impl Files, whole: bool, made: &str, new: &str) -> bool {
    if whole {
        if fs::rename(rt, made, new).is_ok() {
            return true;
        }
    }
    let _ = fs::remove_file(rt, made);
    false
}

fn say_unread(rt: &impl Print, name: &str, why: io::Error) -> io::Result<()> {
    if why.kind() == ErrorKind::NotFound {
        println!(rt; "{name} absent")
    } else {
        println!(rt; "{name} failed")
    }
}

fn say_passed(rt: &impl Print, name: &str, kept: bool, rewritten: usize) -> io::Result<()> {
    if kept {
        println!(rt; "{name} rewritten {rewritten}")
    } else {
        println!(rt; "{name} failed")
    }
}

// One file, by its name, the name under which the new one is made, and the new one's own. What has the second name already is
// left alone, for it may be a link to anything.
fn unspace(
    rt: &(impl Files + Print),
    name: &str,
    made: &str,
    new: &str,
    identifier: u8,
    rec: &mut [u8],
) -> io::Result<()>
    requires { identifier ≤ length rec.old }
{
    let from = match fs::open(rt, name) {
        Ok(from) => from,
        Err(why) => return say_unread(rt, name, why),
    };
    let to = match OpenOptions::new()
        .write(true)
        .create_new(true)
        .open(rt, made)
    {
        Ok(to) => to,
        Err(_) => return say_passed(rt, name, false, 0),
    };
    let passed = pass_and_close(from, to, identifier, rec);
    let kept = is_kept(rt, passed.is_ok(), made, new);
    say_passed(rt, name, kept, passed.unwrap_or(0))
}

// The second file is rewritten even where nothing can be said of the first.
fn main(rt: HostRuntime) -> io::Result<()> {
    let mut table = [0u8; Table::WIDTH];
    let mut point = [0u8; Point::WIDTH];
    let said = unspace(
        &rt,
        "changes1",
        "changes1.part",
        "changes1.new",
        Table::IDENTIFIER,
        &mut table,
    );
    unspace(
        &rt,
        "changes2",
        "changes2.part",
        "changes2.new",
        Point::IDENTIFIER,
        &mut point,
    )?;
    said
}
