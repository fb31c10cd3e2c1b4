// The guide's printed examples, as one pair of files, through the same path as any other.
#![tactic(auto)]

use std::io;

fn main(rt: HostRuntime) -> io::Result<()> {
    report_folder::show(&rt)
}
