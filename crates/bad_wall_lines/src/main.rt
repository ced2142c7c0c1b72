//! Lines on the wall that are not read, among a few that are: the run goes on, and tells by its last line what it would end with.
#![tactic(auto)]

use std::io;

// A program of its own for each script, since the gate runs a program on one standard input.
fn main(rt: HostRuntime) -> io::Result<()> {
    script::run_and_tell(&rt)
}
