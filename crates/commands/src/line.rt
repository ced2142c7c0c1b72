// The commands on a line, each over any line, with what it prints. What the line becomes holds even where nothing can be
// printed.
ghost use Rattle.std.specs.Prelude.{◌≡◌};
ghost use Rattle.serial.specs.Six.{number};
ghost use Rattle.wall.specs.Lines.{fit_fault, pull_fault, after_unless};
ghost use Rattle.lines.specs.Feeders.{feeder_state};

use crate::hex::front;
use lines::Feeder;
use std::io;
use telegram::Fault;
use wall::{Line, Newcomer, Outcome};

pub fn fit<L: Line>(
    rt: &HostRuntime,
    line: &mut L,
    socket: u32,
    newcomer: Newcomer,
) -> io::Result<()>
    ensures { L.Line.state line.new ≡ after_unless (fit_fault (L.Line.wall (L.Line.state line.old)) socket newcomer.serial newcomer.address) (L.Line.state line.old) (L.Line.fits (L.Line.state line.old) socket (number newcomer.serial) newcomer.address newcomer.defective) }
{
    print_done(rt, "fit", line.fit(socket, newcomer))
}

pub fn pull<L: Line>(rt: &HostRuntime, line: &mut L, socket: u32) -> io::Result<()>
    ensures { L.Line.state line.new ≡ after_unless (pull_fault (L.Line.wall (L.Line.state line.old)) socket) (L.Line.state line.old) (L.Line.pulls (L.Line.state line.old) socket) }
{
    print_done(rt, "pull", line.pull(socket))
}

// A call that is done or refused has nothing else to tell.
pub fn print_done<F: Fault>(rt: &HostRuntime, what: &str, done: Result<(), F>) -> io::Result<()> {
    match done {
        Ok(()) => println!(rt; "{what} done"),
        Err(fault) => println!(rt; "{what} refused {}", fault.number()),
    }
}

pub fn ask<L: Line>(rt: &HostRuntime, line: &mut L, telegram: &[u8]) -> io::Result<()>
    ensures { L.Line.state line.new ≡ L.Line.next (L.Line.state line.old) telegram.now }
{
    let mut buffer = [0; 23];
    match line.ask(telegram, &mut buffer) {
        Ok(Outcome::Silence) => println!(rt; "ask silence"),
        Ok(Outcome::Answer(n)) => println!(rt; "ask answer {}", front(&buffer, n)),
        Ok(Outcome::Clash) => println!(rt; "ask clash"),
        Err(short) => println!(rt; "ask refused {}", short.number()),
    }
}

pub fn switch<L: Line>(rt: &HostRuntime, feeder: &mut Feeder<L>, on: bool) -> io::Result<()>
    ensures { feeder_state L.Line feeder.new ≡ record { line = (feeder_state L.Line feeder.old).line; on = on; tally = (feeder_state L.Line feeder.old).tally } }
{
    feeder.switch(on);
    println!(rt; "switch {}", on_or_off(on))
}

// The calls of the feeder take and tell a bool, and an enum of two words would be turned into one and back.
pub fn on_or_off(on: bool) -> &'static str {
    if on { "on" } else { "off" }
}
