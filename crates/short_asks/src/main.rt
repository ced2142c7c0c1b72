//! Lines asked with buffers of 22, 23 and 25 bytes, each full of EE before.
#![tactic(auto)]

use lines::{Bank, Feeder, Joint};
use stations::Fan;
use std::io;
use telegram::Fault;
use wall::{Line, Newcomer, Outcome, Station};

// Asks every fan for its stored address. It is spelled out where it is asked, since a crate for one constant would be longer.
const FINDER: [u8; 14] = [
    0x00, 0x43, 0x00, 0x00, 0x00, 0x00, 0x00, 0x00, 0xD1, 0x00, 0x00, 0x01, 0xC6, 0x7B,
];

// The outcome, the tally then, and what the buffer holds.
fn ask<L: Line>(rt: &HostRuntime, line: &mut L, buffer: &mut [u8]) -> io::Result<()> {
    let asked = line.ask(&FINDER, buffer);
    print!(rt; "  {} bytes: ", buffer.len())?;
    match asked {
        Ok(Outcome::Silence) => print!(rt; "silence")?,
        Ok(Outcome::Answer(n)) => print!(rt; "answer of {n}")?,
        Ok(Outcome::Clash) => print!(rt; "clash")?,
        Err(short) => print!(rt; "refused {}", short.number())?,
    }
    print!(rt; ", tally {}, buffer", line.tally())?;
    for byte in buffer.iter() {
        print!(rt; " {byte:02X}")?;
    }
    println!(rt; "")
}

fn ask_thrice<L: Line>(rt: &HostRuntime, line: &mut L, what: &str) -> io::Result<()> {
    println!(rt; "{what}")?;
    let mut short = [0xEE; 22];
    ask(rt, line, &mut short)?;
    let mut enough = [0xEE; 23];
    ask(rt, line, &mut enough)?;
    let mut long = [0xEE; 25];
    ask(rt, line, &mut long)
}

fn fit<L: Line>(rt: &HostRuntime, line: &mut L, socket: u32) -> io::Result<()> {
    let newcomer = Newcomer {
        serial: [0x09, 0x01, 0x31, 0x32, 0x47, 0x59],
        address: 9,
        defective: false,
    };
    match line.fit(socket, newcomer) {
        Ok(()) => println!(rt; "fan in socket {socket}"),
        Err(fault) => println!(rt; "socket {socket} refused {}", fault.number()),
    }
}

// With nobody, with one fan, and with two in sockets that may lie on two sides of a joint.
fn fill_and_ask<L: Line>(rt: &HostRuntime, line: &mut L, what: &str) -> io::Result<()> {
    ask_thrice(rt, line, what)?;
    fit(rt, line, 0)?;
    ask_thrice(rt, line, what)?;
    fit(rt, line, 1)?;
    ask_thrice(rt, line, what)
}

fn ask_bank(rt: &HostRuntime) -> io::Result<()> {
    let mut row = [None; 2];
    let mut bank = Bank::<Fan>::new(&mut row);
    fill_and_ask(rt, &mut bank, "bank")
}

fn ask_joint(rt: &HostRuntime) -> io::Result<()> {
    let mut left = [None; 1];
    let mut right = [None; 1];
    let mut joint = Joint::new(Bank::<Fan>::new(&mut left), Bank::<Fan>::new(&mut right));
    fill_and_ask(rt, &mut joint, "joint")
}

fn ask_feeder(rt: &HostRuntime) -> io::Result<()> {
    let mut row = [None; 2];
    let mut feeder = Feeder::new(Bank::<Fan>::new(&mut row));
    fill_and_ask(rt, &mut feeder, "feeder")?;
    feeder.switch(false);
    ask_thrice(rt, &mut feeder, "feeder switched off")
}

fn main(rt: HostRuntime) -> io::Result<()> {
    ask_bank(&rt)?;
    ask_joint(&rt)?;
    ask_feeder(&rt)
}
