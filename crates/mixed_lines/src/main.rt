//! Lines over lines: a feeder over a joint of feeders over banks. Each line counts for itself, a part that is switched off is
//! not heard, and the rows hold what was fitted when the lines are gone.
#![tactic(auto)]

ghost use Rattle.std.specs.Prelude.{◌≡◌, min, false, length, take, drop, replicate, Some, None, slice_set};
ghost use Rattle.serial.specs.Six.{number};
ghost use Rattle.wall.specs.Lines.{after_unless, fit_fault};
ghost use Rattle.lines.specs.Bank.{bank_wall, states};

use lines::{Bank, Feeder, Joint};
use stations::{Fan, OlderFan};
use std::io;
use telegram::Fault;
use wall::{FitFault, Line, Newcomer, Outcome, Station};

// Asks every fan for its stored address. It is spelled out where it is asked, since a crate for one constant would be longer.
const FINDER: [u8; 14] = [
    0x00, 0x43, 0x00, 0x00, 0x00, 0x00, 0x00, 0x00, 0xD1, 0x00, 0x00, 0x01, 0xC6, 0x7B,
];

// asks the station at address 9 for its stored address
const PROBE: [u8; 8] = [0x09, 0x03, 0xD1, 0x00, 0x00, 0x01, 0xBC, 0x7E];

// A station that is to be made, without a defect.
fn sound(serial: [u8; 6], address: u8) -> Newcomer {
    Newcomer {
        serial,
        address,
        defective: false,
    }
}

// A station in the first place of a row, by a bank that is gone when this returns: the row is known all the same.
fn fit_row<S: Station + Drop>(row: &mut [Option<S>], newcomer: Newcomer) -> Result<(), FitFault>
    ensures row { states S.Station (take 64 row.new) ≡ after_unless (fit_fault (bank_wall S.Station.speaks S.Station.card (record { sockets = replicate (min (length row.old) 64) None; tally = 0 })) 0 newcomer.serial newcomer.address) (replicate (min (length row.old) 64) None) (slice_set (replicate (min (length row.old) 64) None) 0 (Some (S.Station.fresh (number newcomer.serial) newcomer.address newcomer.defective))) }
    ensures rest { drop 64 row.new ≡ drop 64 row.old }
{
    let mut bank = Bank::new(row);
    bank.fit(0, newcomer)
}

fn fit<L: Line>(
    rt: &HostRuntime,
    line: &mut L,
    socket: u32,
    serial: [u8; 6],
    address: u8,
) -> io::Result<()> {
    match line.fit(socket, sound(serial, address)) {
        Ok(()) => println!(rt; "fit {socket}: done"),
        Err(fault) => println!(rt; "fit {socket}: refused {}", fault.number()),
    }
}

fn ask<L: Line>(rt: &HostRuntime, line: &mut L, what: &str, telegram: &[u8]) -> io::Result<()> {
    let mut buffer = [0; 23];
    match line.ask(telegram, &mut buffer) {
        Ok(Outcome::Silence) => println!(rt; "{what}: silence"),
        Ok(Outcome::Answer(n)) => println!(rt; "{what}: {n} bytes from address {}", buffer[0]),
        Ok(Outcome::Clash) => println!(rt; "{what}: clash"),
        Err(short) => println!(rt; "{what}: refused {}", short.number()),
    }
}

fn show<L: Line>(rt: &HostRuntime, line: &L) -> io::Result<()> {
    for n in 0..7u32 {
        let Some(socket) = line.socket(n) else {
            println!(rt; "  {n} no such socket")?;
            continue;
        };
        let live = if socket.live { "live" } else { "not live" };
        match socket.station {
            Some(card) => println!(rt; "  {n} {live}, address {}", card.address)?,
            None => println!(rt; "  {n} {live}, empty")?,
        }
    }
    Ok(())
}

// A part of the wall that can be switched by itself.
type Part<'a, S> = Feeder<Bank<'a, S>>;

fn part<'a, S: Station + Drop>(row: &'a mut [Option<S>]) -> Part<'a, S> {
    Feeder::new(Bank::new(row))
}

// Hands both parts back, with the telegrams that each line counted.
fn taken_apart<P: Line, Q: Line>(
    rt: &HostRuntime,
    line: Feeder<Joint<P, Q>>,
) -> (io::Result<()>, P, Q) {
    let outer = line.tally();
    let joint = line.into_line();
    let between = joint.tally();
    let (left, right) = joint.into_lines();
    let printed = println!(rt;
        "tallies: feeder {outer}, joint {between}, left {}, right {}",
        left.tally(),
        right.tally()
    );
    (printed, left, right)
}

fn last_tally<L: Line + Drop>(rt: &HostRuntime, what: &str, part: Feeder<L>) -> io::Result<()> {
    let counted = part.tally();
    let line = part.into_line();
    println!(rt; "{what}: feeder {counted}, bank {}", line.tally())
}

fn run(
    rt: &HostRuntime,
    fans: &mut [Option<Fan>],
    older: &mut [Option<OlderFan>],
) -> io::Result<()> {
    let mut line = Feeder::new(Joint::new(part(fans), part(older)));
    fit(rt, &mut line, 0, [1, 1, 1, 1, 1, 1], 5)?;
    fit(rt, &mut line, 4, [1, 1, 1, 1, 1, 2], 5)?;
    fit(rt, &mut line, 1, [1, 1, 1, 1, 1, 3], 9)?;
    fit(rt, &mut line, 3, [1, 1, 1, 1, 1, 4], 9)?;
    fit(rt, &mut line, 6, [1, 1, 1, 1, 1, 4], 9)?;
    show(rt, &line)?;
    ask(rt, &mut line, "finder", &FINDER)?;
    ask(rt, &mut line, "probe", &PROBE)?;
    line.switch(false);
    ask(rt, &mut line, "probe while off", &PROBE)?;
    show(rt, &line)?;
    let (printed, mut left, right) = taken_apart(rt, line);
    printed?;
    left.switch(false);
    let mut line = Feeder::new(Joint::new(left, right));
    show(rt, &line)?;
    ask(rt, &mut line, "finder while the left is off", &FINDER)?;
    ask(rt, &mut line, "probe while the left is off", &PROBE)?;
    let (printed, left, right) = taken_apart(rt, line);
    printed?;
    last_tally(rt, "left", left)?;
    last_tally(rt, "right", right)
}

fn main(rt: HostRuntime) -> io::Result<()> {
    let mut fans = [None; 3];
    let mut older = [None; 1];
    run(&rt, &mut fans, &mut older)?;
    for (i, place) in fans.iter().enumerate() {
        match place {
            Some(fan) => println!(rt; "row of fans, {i}: address {}", fan.address().value())?,
            None => println!(rt; "row of fans, {i}: empty")?,
        }
    }
    let emptied = fit_row(&mut fans, sound([1, 1, 1, 1, 1, 0], 5)).is_err();
    println!(rt; "a new bank, serial refused: {emptied}")?;
    for (i, place) in fans.iter().enumerate() {
        println!(rt; "row of fans, {i}: empty {}", place.is_none())?;
    }
    Ok(())
}
