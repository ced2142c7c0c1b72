// What a line says is to be done.
use crate::bench::Fitting;
use crate::fields::Fields;
use stations::Kind;
use std::alloc::Global;
use wall::Newcomer;
use words::{Unread, bytes_of, cut_at, decimal_byte, decimal_number, serial_of, text_of};

#[derive(Drop)]
pub enum Command {
    Checksum(Vec<u8>),
    ReadQuestion(Vec<u8>),
    ReadAnswer(Vec<u8>),
    ReadAnswerTo { answer: Vec<u8>, question: Vec<u8> },
    WriteQuestion(Fields),
    WriteAnswer(Fields),
    Station(Fitting),
    Tell(Vec<u8>),
    Fit { socket: u32, newcomer: Newcomer },
    Pull { socket: u32 },
    Switch { on: bool },
    Ask(Vec<u8>),
    Show,
}

impl Command {
    pub fn parse(heap: Global, words: &[&[u8]]) -> Result<Command, Unread> {
        match words {
            [] => Err(Unread::MissingWord),
            [b"checksum", bytes @ ..] => Ok(Command::Checksum(bytes_of(heap, bytes)?)),
            [b"read", what @ ..] => parse_read(heap, what),
            [b"write", what @ ..] => parse_write(heap, what),
            [b"station", what @ ..] => parse_station(what),
            [b"tell", bytes @ ..] => Ok(Command::Tell(bytes_of(heap, bytes)?)),
            [b"fit", what @ ..] => parse_fit(what),
            [b"pull", what @ ..] => parse_pull(what),
            [b"switch", what @ ..] => parse_switch(what),
            [b"ask", bytes @ ..] => Ok(Command::Ask(bytes_of(heap, bytes)?)),
            [b"show", what @ ..] => parse_show(what),
            _ => Err(Unread::UnknownCommand),
        }
    }
}

fn parse_read(heap: Global, words: &[&[u8]]) -> Result<Command, Unread> {
    match words {
        [] => Err(Unread::MissingWord),
        [b"question", bytes @ ..] => Ok(Command::ReadQuestion(bytes_of(heap, bytes)?)),
        [b"answer", bytes @ ..] => parse_read_answer(heap, bytes),
        _ => Err(Unread::UnknownWord),
    }
}

// An answer alone, or an answer, the word 'to' and its question.
fn parse_read_answer(heap: Global, words: &[&[u8]]) -> Result<Command, Unread> {
    let Some((answer, question)) = cut_at(words, &b"to".as_slice()) else {
        return Ok(Command::ReadAnswer(bytes_of(heap, words)?));
    };
    let answer = bytes_of(heap, answer)?;
    let question = bytes_of(heap, question)?;
    Ok(Command::ReadAnswerTo { answer, question })
}

fn parse_write(heap: Global, words: &[&[u8]]) -> Result<Command, Unread> {
    match words {
        [] => Err(Unread::MissingWord),
        [b"question", fields @ ..] => Ok(Command::WriteQuestion(Fields::parse(heap, fields)?)),
        [b"answer", fields @ ..] => Ok(Command::WriteAnswer(Fields::parse(heap, fields)?)),
        _ => Err(Unread::UnknownWord),
    }
}

fn parse_station(words: &[&[u8]]) -> Result<Command, Unread> {
    let [kind, serial, address, state @ ..] = words else {
        return Err(Unread::MissingWord);
    };
    let kind = text_of(kind)
        .parse::<Kind>()
        .map_err(|_| Unread::UnknownWord)?;
    let newcomer = parse_newcomer(serial, address, state)?;
    Ok(Command::Station(Fitting { kind, newcomer }))
}

fn parse_fit(words: &[&[u8]]) -> Result<Command, Unread> {
    let [socket, what @ ..] = words else {
        return Err(Unread::MissingWord);
    };
    let socket = decimal_number(socket)?;
    let [serial, address, state @ ..] = what else {
        return Err(Unread::MissingWord);
    };
    let newcomer = parse_newcomer(serial, address, state)?;
    Ok(Command::Fit { socket, newcomer })
}

fn parse_newcomer(serial: &[u8], address: &[u8], state: &[&[u8]]) -> Result<Newcomer, Unread> {
    Ok(Newcomer {
        serial: serial_of(serial)?,
        address: decimal_byte(address)?,
        defective: parse_state(state)?,
    })
}

// Whether the station is defective: nothing, or the one word that says so.
fn parse_state(words: &[&[u8]]) -> Result<bool, Unread> {
    match words {
        [] => Ok(false),
        [b"defective"] => Ok(true),
        [b"defective", ..] => Err(Unread::ExtraWord),
        _ => Err(Unread::UnknownWord),
    }
}

fn parse_pull(words: &[&[u8]]) -> Result<Command, Unread> {
    let socket = decimal_number(only(words)?)?;
    Ok(Command::Pull { socket })
}

fn parse_switch(words: &[&[u8]]) -> Result<Command, Unread> {
    match only(words)? {
        b"on" => Ok(Command::Switch { on: true }),
        b"off" => Ok(Command::Switch { on: false }),
        _ => Err(Unread::UnknownWord),
    }
}

fn parse_show(words: &[&[u8]]) -> Result<Command, Unread> {
    if words.is_empty() {
        Ok(Command::Show)
    } else {
        Err(Unread::ExtraWord)
    }
}

// The one word that there is to be.
fn only<'a>(words: &[&'a [u8]]) -> Result<&'a [u8], Unread> {
    match words {
        [] => Err(Unread::MissingWord),
        [word] => Ok(word),
        _ => Err(Unread::ExtraWord),
    }
}
