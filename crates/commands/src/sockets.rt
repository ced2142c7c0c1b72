// A wall shown socket by socket.
use crate::line::on_or_off;
use lines::Feeder;
use stations::Kind;
use std::alloc::{AllocError, Global};
use std::{fmt, io};
use wall::{Card, Line};

// What a line does not tell of its sockets: how many numbers to look at, and the kinds, which come again every four numbers.
#[derive(Clone, Copy)]
pub struct Plan {
    pub numbers: u32,
    pub kinds: [Kind; 4],
}

// A taken socket.
#[derive(Clone, Copy)]
struct Taken {
    socket: u32,
    kind: Kind,
    card: Card,
}

pub fn show<L: Line>(rt: &HostRuntime, feeder: &Feeder<L>, plan: &Plan) -> io::Result<()> {
    let taken = taken_sockets(rt.alloc(), feeder, plan)?;
    println!(rt;
        "show {} tally={} taken={}",
        on_or_off(feeder.is_on()),
        feeder.tally(),
        taken.len()
    )?;
    for socket in taken.iter() {
        println!(rt; "  {socket}")?;
    }
    Ok(())
}

fn taken_sockets<L: Line>(heap: Global, line: &L, plan: &Plan) -> Result<Vec<Taken>, AllocError> {
    (0..plan.numbers)
        .filter_map(|socket| plan.taken_at(line, socket))
        .collect(heap)
}

impl Plan {
    fn taken_at<L: Line>(&self, line: &L, socket: u32) -> Option<Taken> {
        let card = line.socket(socket)?.station?;
        let kind = self.kinds[socket as usize % 4];
        Some(Taken { socket, kind, card })
    }
}

impl fmt::Display for Taken {
    fn fmt<W: fmt::Write>(&self, f: &mut fmt::Formatter<W>) -> fmt::Result {
        let Taken { socket, kind, card } = *self;
        let Card {
            serial,
            address,
            stored,
            defective,
        } = card;
        write!(f, "socket={socket} kind={kind} serial=")?;
        match serial {
            Some(serial) => write!(f, "{serial:012X}")?,
            None => write!(f, "none")?,
        }
        let state = if defective { "defective" } else { "sound" };
        write!(f, " address={address} stored={stored} {state}")
    }
}
