//! Buffers at their edge: 22 bytes are refused with 15 and stay as they were, 23 are enough.
#![tactic(auto)]

use stations::Fan;
use std::io;
use telegram::{Fault, Telegram, TelegramFault, write_answer, write_exception, write_question};
use wall::{Newcomer, Station};

// Asks every fan for its stored address. It is spelled out where it is asked, since a crate for one constant would be longer.
const FINDER: [u8; 14] = [
    0x00, 0x43, 0x00, 0x00, 0x00, 0x00, 0x00, 0x00, 0xD1, 0x00, 0x00, 0x01, 0xC6, 0x7B,
];

// What came of a call, and whether it wrote into the buffer.
fn report<F: Fault>(
    rt: &HostRuntime,
    what: &str,
    came: Result<Option<usize>, F>,
    buffer: &[u8],
) -> io::Result<()> {
    let room = buffer.len();
    let state = if buffer.iter().all(|b| *b == 0xEE) {
        "as it was"
    } else {
        "written"
    };
    match came {
        Ok(Some(n)) => println!(rt; "{what} {room} bytes: {n} bytes, buffer {state}"),
        Ok(None) => println!(rt; "{what} {room} bytes: silence, buffer {state}"),
        Err(fault) => {
            let number = fault.number();
            println!(rt; "{what} {room} bytes: refused {number}, buffer {state}")
        }
    }
}

fn report_written(
    rt: &HostRuntime,
    what: &str,
    written: Result<usize, TelegramFault>,
    buffer: &[u8],
) -> io::Result<()> {
    report(rt, what, written.map(Some), buffer)
}

fn write_all(rt: &HostRuntime, buffer: &mut [u8]) -> io::Result<()> {
    let q = Telegram {
        address: 9,
        command: 0x03,
        register: 0xD100,
        value: 1,
        ..Telegram::default()
    };
    let written = write_question(&q, buffer);
    report_written(rt, "question into", written, buffer)?;
    buffer.fill(0xEE);
    let a = Telegram {
        size: 2,
        data: &[0, 9],
        ..q
    };
    let written = write_answer(&a, buffer);
    report_written(rt, "answer into", written, buffer)?;
    buffer.fill(0xEE);
    let written = write_exception(9, 0x03, [0; 6], 2, buffer);
    report_written(rt, "exception into", written, buffer)?;
    buffer.fill(0xEE);
    Ok(())
}

fn tell(rt: &HostRuntime, fan: &mut Fan, buffer: &mut [u8]) -> io::Result<()> {
    let said = fan.tell(&FINDER, buffer);
    report(rt, "fan told with", said, buffer)
}

fn main(rt: HostRuntime) -> io::Result<()> {
    let mut short = [0xEE; 22];
    write_all(&rt, &mut short)?;
    let mut enough = [0xEE; 23];
    write_all(&rt, &mut enough)?;
    let newcomer = Newcomer {
        serial: [0x09, 0x01, 0x31, 0x32, 0x47, 0x59],
        address: 9,
        defective: false,
    };
    let admitted = match newcomer.check() {
        Ok(admitted) => admitted,
        Err(fault) => return println!(rt; "fan refused {}", fault.number()),
    };
    let mut fan = Fan::new(admitted);
    tell(&rt, &mut fan, &mut short)?;
    tell(&rt, &mut fan, &mut enough)
}
