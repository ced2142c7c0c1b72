//! A script on the wall: sockets fitted and pulled, telegrams put, the feeder switched. Its last line tells what it would end with.
#![tactic(auto)]

use std::io;

// A program of its own for each script, since the gate runs a program on one standard input.
fn main(rt: HostRuntime) -> io::Result<()> {
    script::run_and_tell(&rt)
}
