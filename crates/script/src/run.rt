// A script carried out, line by line.
use crate::bench::{Bench, Untold};
use crate::command::Command;
use commands::{
    Plan, ask, fit, front, print_done, pull, read_answer, read_answer_to, read_question, show, sum,
    switch, write_answer, write_question,
};
use lines::{Bank, Feeder, Joint};
use stations::{Controller, Fan, Kind, OlderFan};
use std::io;
use std::io::Read;
use telegram::Fault;
use thiserror::Error;
use wall::{Line, Station};
use words::{Unread, lines_of, words_of};

// Why a line came to no result.
#[derive(Debug, Drop, Error)]
enum Trouble {
    #[error(transparent)]
    Line(#[from] Unread),
    #[error(transparent)]
    Output(#[from] io::Error),
}

// What a script keeps from line to line: the bench with the station alone, and the wall.
#[derive(Drop)]
struct Desk<L> {
    bench: Bench,
    wall: Feeder<L>,
    plan: Plan,
}

// What stands in the sockets of the wall that a script works on.
const PLAN: Plan = Plan {
    numbers: 512,
    kinds: [Kind::Fan, Kind::OlderFan, Kind::Fan, Kind::Controller],
};

// Carries out every line, and answers whether there was one that is not read. The wall is empty and on: its even numbers are
// four banks of fans, its odd ones a bank of older fans and a bank of controllers. Their rows are fixed memory, which is lent
// to them.
pub fn run_script(rt: &HostRuntime, text: &[u8]) -> io::Result<bool> {
    // row by row, since of an array of rows it is not proved that each is lent once
    let mut fans_1 = [None; 64];
    let mut fans_2 = [None; 64];
    let mut fans_3 = [None; 64];
    let mut fans_4 = [None; 64];
    let mut older_fans = [None; 64];
    let mut controllers = [None; 64];
    let fans = Joint::new(
        Joint::new(Bank::<Fan>::new(&mut fans_1), Bank::<Fan>::new(&mut fans_2)),
        Joint::new(Bank::<Fan>::new(&mut fans_3), Bank::<Fan>::new(&mut fans_4)),
    );
    let others = Joint::new(
        Bank::<OlderFan>::new(&mut older_fans),
        Bank::<Controller>::new(&mut controllers),
    );
    let mut desk = Desk {
        bench: Bench::default(),
        wall: Feeder::new(Joint::new(fans, others)),
        plan: PLAN,
    };
    run_lines(rt, &mut desk, text)
}

// The same for the script that stands on standard input.
pub fn run_input(rt: &HostRuntime) -> io::Result<bool> {
    let mut text = Vec::new(rt.alloc());
    rt.stdin().read_to_end(&mut text)?;
    run_script(rt, &text)
}

// The same, and the last line tells the status that the program of the bench would end with.
pub fn run_and_tell(rt: &HostRuntime) -> io::Result<()> {
    let status = u8::from(run_input(rt)?);
    println!(rt; "status {status}")
}

fn run_lines<L: Line>(rt: &HostRuntime, desk: &mut Desk<L>, text: &[u8]) -> io::Result<bool> {
    let mut bad = false;
    let lines = lines_of(rt.alloc(), text)?;
    for (i, line) in lines.iter().enumerate() {
        match run_line(rt, desk, line) {
            Ok(()) => {}
            Err(Trouble::Line(why)) => {
                println!(rt; "line {}: not read ({why})", i + 1)?;
                bad = true;
            }
            Err(Trouble::Output(e)) => return Err(e),
        }
    }
    Ok(bad)
}

fn run_line<L: Line>(rt: &HostRuntime, desk: &mut Desk<L>, line: &[u8]) -> Result<(), Trouble> {
    let words = words_of(rt.alloc(), line)?;
    if words.is_empty() {
        return Ok(());
    }
    let command = Command::parse(rt.alloc(), &words)?;
    carry_out(rt, desk, &command)
}

fn carry_out<L: Line>(
    rt: &HostRuntime,
    desk: &mut Desk<L>,
    command: &Command,
) -> Result<(), Trouble> {
    let printed = match command {
        Command::Checksum(bytes) => sum(rt, bytes),
        Command::ReadQuestion(bytes) => read_question(rt, bytes),
        Command::ReadAnswer(bytes) => read_answer(rt, bytes),
        Command::ReadAnswerTo { answer, question } => read_answer_to(rt, answer, question),
        Command::WriteQuestion(fields) => write_question(rt, &fields.telegram()),
        Command::WriteAnswer(fields) => write_answer(rt, &fields.telegram()),
        Command::Station(fitting) => print_done(rt, "station", desk.bench.put_station(*fitting)),
        Command::Tell(bytes) => return tell(rt, &mut desk.bench, bytes),
        Command::Fit { socket, newcomer } => fit(rt, &mut desk.wall, *socket, *newcomer),
        Command::Pull { socket } => pull(rt, &mut desk.wall, *socket),
        Command::Switch { on } => switch(rt, &mut desk.wall, *on),
        Command::Ask(bytes) => ask(rt, &mut desk.wall, bytes),
        Command::Show => show(rt, &desk.wall, &desk.plan),
    };
    Ok(printed?)
}

fn tell(rt: &HostRuntime, bench: &mut Bench, telegram: &[u8]) -> Result<(), Trouble> {
    let mut buffer = [0; 23];
    match bench.tell(telegram, &mut buffer) {
        Ok(Some(n)) => println!(rt; "tell answer {}", front(&buffer, n))?,
        Ok(None) => println!(rt; "tell silence")?,
        Err(Untold::Short(short)) => println!(rt; "tell refused {}", short.number())?,
        Err(Untold::NoStation) => return Err(Unread::NoStation.into()),
    }
    Ok(())
}
