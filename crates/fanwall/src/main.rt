//! The program at the bench: it carries out a script, from the file that its only argument names or from standard input.
#![tactic(auto)]

use anyhow::{anyhow, bail, ensure};
use script::{run_input, run_script};
use std::process::ExitCode;
use std::{env, fs};

const HELP: &str = "\
fanwall FILE     carries out the script in the file and prints the result of each command
fanwall          the same from standard input
fanwall --help   prints this page

A script has one command to a line; '#' begins a comment. docs/SCRIPT.md says all of it.

  checksum BYTES                          the checksum of the bytes, low byte first
  read question BYTES                     a telegram taken apart as a question
  read answer BYTES                       or as an answer
  read answer BYTES to BYTES              an answer held against its question
  write question FIELDS                   a question put together from its fields
  write answer FIELDS                     or an answer
  station KIND SERIAL ADDRESS             a new station alone on the bench
  station KIND SERIAL ADDRESS defective   the same with a defect
  tell BYTES                              puts a telegram to it
  fit SOCKET SERIAL ADDRESS               a new station in a socket of the wall
  fit SOCKET SERIAL ADDRESS defective     the same with a defect
  pull SOCKET                             takes the station out
  switch on, switch off                   the feeder of the wall
  ask BYTES                               puts a telegram on the wall: silence, an answer or a clash
  show                                    the wall, with every taken socket

The wall is empty at the start, and on. Its sockets are 0, 2 .. 510 for fans, 1, 5 .. 253 for
older fans, 3, 7 .. 255 for controllers.

  BYTES    hexadecimal digits, an even number to a word: 01 03 or 0103
  SERIAL   twelve hexadecimal digits
  ADDRESS  a decimal number up to 255
  KIND     fan, older or controller
  SOCKET   a decimal number below 2^32
  FIELDS   words name=value: address and size in decimal, command, serial, subfunction,
           register, value, code and data in hexadecimal; what is not given is zero

A call that is turned down prints its number, as 'read question refused 2'. A line that is not
read prints 'line N: not read (WHY)', and the program then ends with status 1.
";

fn read_file(rt: &HostRuntime, path: &str) -> anyhow::Result<Vec<u8>> {
    fs::read(rt, path).map_err(|e| anyhow!("{path}: {e}"))
}

fn start(rt: &HostRuntime) -> anyhow::Result<()> {
    let mut words = env::args(rt)?.skip(1);
    let word = words.next();
    if words.next().is_some() {
        bail!("more than one argument; 'fanwall --help' says how it is called");
    }
    let bad = match word.as_deref() {
        None => run_input(rt)?,
        Some("--help") => return Ok(rt.print(HELP)?),
        Some(path) => run_script(rt, &read_file(rt, path)?)?,
    };
    ensure!(!bad, "there are lines that were not read");
    Ok(())
}

// What goes wrong is told by one line; where that cannot be written either, the status tells it.
fn main(rt: HostRuntime) -> ExitCode {
    let Err(e) = start(&rt) else {
        return ExitCode::SUCCESS;
    };
    let _written = eprintln!(rt; "fanwall: {e}");
    ExitCode::FAILURE
}
