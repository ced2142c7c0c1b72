// What tells the kinds of station apart.
ghost use Rattle.std.specs.Prelude.{◌≡◌, true, false, MatchOption};
ghost use Rattle.telegram.specs.Commands.{byte_of};
ghost use Rattle.stations.specs.declared.kind.Kind.{Kind};
ghost use Rattle.stations.specs.Kinds.{knows, longest, most_read, speaks, range_of};

use crate::range::Registers;
use std::fmt;
use std::str::FromStr;
use telegram::Command;

#[derive(Clone, Copy, PartialEq, Eq, Debug)]
pub enum Kind {
    Fan,
    OlderFan,
    Controller,
}

impl fmt::Display for Kind {
    ghost use Rattle.std.specs.Prelude.{Some};
    ghost use Rattle.stations.specs.Names.{word_of};

    ghost output = { λ kind. Some (word_of kind) };

    fn fmt<W: fmt::Write>(&self, f: &mut fmt::Formatter<W>) -> fmt::Result {
        match self {
            Kind::Fan => f.write_str("fan"),
            Kind::OlderFan => f.write_str("older"),
            Kind::Controller => f.write_str("controller"),
        }
    }
}

// A kind that a type stands for: a const parameter of a struct can be a number, and no enum. A station of the type keeps the
// laws of a station with what is defined for the kind.
pub trait FixedKind {
    ghost use Rattle.wall.specs.Laws.{StationLaws};
    ghost use Rattle.stations.specs.Calls.{card, says, becomes};
    ghost use Rattle.stations.specs.Device.{fresh};
    ghost use Rattle.stations.specs.Shows.{shown_state};

    ghost KIND: { Kind };

    ghost laws: { StationLaws (shown_state {T = Self}) (speaks KIND) (card KIND) (says KIND) (becomes KIND) fresh };

    const KIND: Kind;
}

#[derive(Clone, Copy)]
pub struct FanKind;

#[derive(Clone, Copy)]
pub struct OlderFanKind;

#[derive(Clone, Copy)]
pub struct ControllerKind;

impl FixedKind for FanKind {
    ghost use Rattle.stations.specs.declared.kind.Kind.TheVariants.{Fan};
    ghost use Rattle.stations.specs.Shows.{fan_laws};

    ghost KIND = { Fan };

    ghost laws = { fan_laws };

    const KIND: Kind = Kind::Fan;
}

impl FixedKind for OlderFanKind {
    ghost use Rattle.stations.specs.declared.kind.Kind.TheVariants.{OlderFan};
    ghost use Rattle.stations.specs.Shows.{older_laws};

    ghost KIND = { OlderFan };

    ghost laws = { older_laws };

    const KIND: Kind = Kind::OlderFan;
}

impl FixedKind for ControllerKind {
    ghost use Rattle.stations.specs.declared.kind.Kind.TheVariants.{Controller};
    ghost use Rattle.stations.specs.Shows.{controller_laws};

    ghost KIND = { Controller };

    ghost laws = { controller_laws };

    const KIND: Kind = Kind::Controller;
}

// A word that names no kind of station.
#[derive(Clone, Copy, PartialEq, Eq, Debug)]
pub struct UnknownKind;

impl FromStr for Kind {
    ghost use Rattle.stations.specs.Names.{Names};

    type Err = UnknownKind;

    ghost from_str_gives = { Names };

    fn from_str(word: &str) -> Result<Kind, UnknownKind> {
        match word {
            "fan" => Ok(Kind::Fan),
            "older" => Ok(Kind::OlderFan),
            "controller" => Ok(Kind::Controller),
            _ => Err(UnknownKind),
        }
    }
}

// What a command asks for.
#[derive(Clone, Copy)]
pub enum Action {
    Echo,
    ReadHolding,
    ReadInput,
    WriteOne,
    WriteSeveral,
}

// Why a command is not carried out.
#[derive(Clone, Copy)]
pub enum Refusal {
    // command or subfunction not known
    Function = 1,
    // a register outside the range
    Register = 2,
    // a wrong count
    Count = 3,
    // a write without right, or by a defective fan
    Write = 4,
}

// The code of the exception.
impl From<Refusal> for u8 {
    ghost use Rattle.std.specs.Prelude.{◌≡◌};
    ghost use Rattle.stations.specs.Kinds.{code_of};

    ghost from_gives = { λ refusal code. code ≡ code_of refusal };

    fn from(refusal: Refusal) -> u8 {
        refusal as u8
    }
}

impl From<Command> for Action {
    ghost use Rattle.std.specs.Prelude.{◌≡◌};
    ghost use Rattle.telegram.specs.Commands.{byte_of};
    ghost use Rattle.stations.specs.Kinds.{action};

    ghost from_gives = { λ command r. r ≡ action (byte_of command) };

    fn from(command: Command) -> Action {
        match command {
            Command::ReadHolding | Command::ReadHoldingBySerial => Action::ReadHolding,
            Command::ReadInput | Command::ReadInputBySerial => Action::ReadInput,
            Command::WriteOne | Command::WriteOneBySerial => Action::WriteOne,
            Command::WriteSeveral | Command::WriteSeveralBySerial => Action::WriteSeveral,
            Command::Diagnostics => Action::Echo,
        }
    }
}

impl Kind {
    // Whether a socket of this kind speaks serials.
    pub(crate) fn speaks(self) -> bool
        ensures { result ≡ speaks self }
    {
        match self {
            Kind::Fan => true,
            Kind::OlderFan | Kind::Controller => false,
        }
    }

    // The longest telegram that it reads.
    pub(crate) fn longest(self) -> usize
        ensures { result ≡ longest self }
    {
        match self {
            Kind::Fan => 23,
            Kind::OlderFan | Kind::Controller => 17,
        }
    }

    pub(crate) fn knows(self, command: Command) -> bool
        ensures { result ≡ knows self (byte_of command) }
    {
        match command {
            Command::ReadHolding | Command::ReadInput | Command::WriteOne | Command::WriteSeveral =>
                true,
            Command::Diagnostics | Command::WriteOneBySerial => self != Kind::Controller,
            Command::ReadHoldingBySerial
            | Command::ReadInputBySerial
            | Command::WriteSeveralBySerial => self == Kind::Fan,
        }
    }

    // The command of a byte, if it is one that this kind knows.
    pub(crate) fn known(self, byte: u8) -> Option<Command>
        ensures { MatchOption result (knows self byte ≡ false) (λ c. (byte_of c ≡ byte) × (knows self byte ≡ true)) }
    {
        let Ok(command) = Command::try_from(byte) else {
            return None;
        };
        self.knows(command).then_some(command)
    }

    // The most registers that one question may read.
    pub(crate) fn most_read(self, command: Command) -> u16
        ensures { result ≡ most_read self (byte_of command) }
    {
        match self {
            Kind::Fan => { if command.is_by_serial() { 6 } else { 9 } }
            Kind::OlderFan | Kind::Controller => 6,
        }
    }

    // The registers that there are for what is asked.
    pub(crate) fn range(self, action: Action) -> Option<Registers>
        ensures { result ≡ range_of self action }
    {
        match (self, action) {
            (Kind::Fan, Action::ReadInput) => Some(Registers {
                first: 0xD000,
                last: 0xD024,
            }),
            (Kind::OlderFan, Action::ReadInput) => Some(Registers {
                first: 0xD000,
                last: 0xD01F,
            }),
            (Kind::Controller, Action::ReadInput) => Some(Registers {
                first: 100,
                last: 131,
            }),
            (Kind::Controller, _) => None,
            _ => Some(Registers {
                first: 0xD000,
                last: 0xD37F,
            }),
        }
    }
}
