// Reads the files `changes1` and `changes2`, has their report written, and prints it.
#![tactic(auto)]

ghost use Rattle.std.specs.Prelude.{◌≤◌, length};

use std::io::Read;
use std::rt::Files;
use std::{fs, io};

// One byte more than 300 records of the wider file, to tell a longer one.
const ROOM: usize = 50701;

// More than any report of such files has.
const REPORT_ROOM: usize = 160000;

// How many bytes of an open file now stand in front: as many as the buffer holds, or fewer where the file ends or a read fails.
fn read_full(file: &mut impl Read, into: &mut [u8]) -> usize
    ensures { result ≤ length into.new }
{
    let mut done = 0;
    while done < into.len() {
        match file.read(&mut into[done..]) {
            Ok(n) if n > 0 => done += n,
            _ => return done,
        }
    }
    done
}

// What stands in a file, as far as the buffer goes; an absent file counts as empty.
fn read_file(rt: &impl Files, name: &str, into: &mut [u8]) -> usize
    ensures { result ≤ length into.new }
{
    match fs::open(rt, name) {
        Ok(mut file) => read_full(&mut file, into),
        Err(_) => 0,
    }
}

// The report of what was read of both files.
fn show_read<'a>(
    rt: &impl Print,
    table: &'a [u8],
    t: usize,
    points: &'a [u8],
    p: usize,
    out: &mut [u8],
) -> io::Result<()> {
    if t <= table.len() {
        if p <= points.len() {
            let n = report_write::write_report(&table[..t], &points[..p], out);
            return rt.write_all(&out[..n]);
        }
    }
    Ok(())
}

// Prints what the two files say in the folder that the program runs in.
pub fn show(rt: &(impl Files + Print)) -> io::Result<()> {
    let mut table = [0u8; ROOM];
    let mut points = [0u8; ROOM];
    let mut out = [0u8; REPORT_ROOM];
    let t = read_file(rt, "changes1", &mut table);
    let p = read_file(rt, "changes2", &mut points);
    show_read(rt, &table, t, &points, p, &mut out)
}
