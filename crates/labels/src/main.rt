// Document 01's program: the labels of `changes1` and `changes2` from the folder that it runs in.
#![tactic(auto)]

use std::io;

fn main(rt: HostRuntime) -> io::Result<()> {
    report_folder::show(&rt)
}
