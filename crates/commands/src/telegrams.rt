// The commands on telegrams, which need no station, with what they print.
use crate::fields::Printed;
use crate::hex::{Hex, front};
use std::io;
use telegram::{AnswerFault, Fault, Telegram, TelegramFault};

pub fn sum(rt: &HostRuntime, bytes: &[u8]) -> io::Result<()> {
    let sum = checksum::checksum(bytes).to_le_bytes();
    println!(rt; "checksum {}", Hex::spaced(&sum))
}

pub fn read_question(rt: &HostRuntime, bytes: &[u8]) -> io::Result<()> {
    print_read(rt, "question", telegram::read_question(bytes))
}

pub fn read_answer(rt: &HostRuntime, bytes: &[u8]) -> io::Result<()> {
    print_read(rt, "answer", telegram::read_answer(bytes))
}

// What was read is a question or an answer. The word for it is said in two places, where an enum of both would be longer.
fn print_read(
    rt: &HostRuntime,
    what: &str,
    read: Result<Telegram<'_>, TelegramFault>,
) -> io::Result<()> {
    match read {
        Ok(telegram) => println!(rt; "read {what} {}", Printed(telegram)),
        Err(fault) => println!(rt; "read {what} refused {}", fault.number()),
    }
}

pub fn read_answer_to(rt: &HostRuntime, answer: &[u8], question: &[u8]) -> io::Result<()> {
    let question = match telegram::read_question(question) {
        Ok(question) => question,
        Err(fault) => return println!(rt; "read answer refused {} in the question", fault.number()),
    };
    match telegram::read_answer_to(answer, &question) {
        Ok(telegram) => println!(rt; "read answer {}", Printed(telegram)),
        Err(fault) => print_answer_fault(rt, fault),
    }
}

// An exception tells its code too.
fn print_answer_fault(rt: &HostRuntime, fault: AnswerFault) -> io::Result<()> {
    let number = fault.number();
    match fault.code() {
        Some(code) => println!(rt; "read answer refused {number} code={code:02X}"),
        None => println!(rt; "read answer refused {number}"),
    }
}

// For a question and an answer, as in reading: with the writer as a parameter there would be no less to say.
pub fn write_question(rt: &HostRuntime, telegram: &Telegram<'_>) -> io::Result<()> {
    let mut buffer = [0; 23];
    let written = telegram::write_question(telegram, &mut buffer);
    print_written(rt, "question", &buffer, written)
}

pub fn write_answer(rt: &HostRuntime, telegram: &Telegram<'_>) -> io::Result<()> {
    let mut buffer = [0; 23];
    let written = telegram::write_answer(telegram, &mut buffer);
    print_written(rt, "answer", &buffer, written)
}

fn print_written(
    rt: &HostRuntime,
    what: &str,
    buffer: &[u8],
    written: Result<usize, TelegramFault>,
) -> io::Result<()> {
    match written {
        Ok(n) => println!(rt; "write {what} {}", front(buffer, n)),
        Err(fault) => println!(rt; "write {what} refused {}", fault.number()),
    }
}
