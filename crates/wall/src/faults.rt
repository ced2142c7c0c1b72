// Why a line refuses to fit or to pull a station.
ghost use Rattle.wall.specs.Numbers.{fit_number, pull_number};

use telegram::Fault;

#[derive(Clone, Copy, PartialEq, Eq, Debug)]
pub enum FitFault {
    // there is no such socket
    NoSocket = 10,
    // the socket is not empty
    Taken = 11,
    // a byte of the serial is zero
    NoSerial = 12,
    // the address is not 1 to 247
    NoAddress = 13,
}

impl Fault for FitFault {
    ghost number_of = { fit_number };

    fn number(self) -> u8 {
        self as u8
    }
}

#[derive(Clone, Copy, PartialEq, Eq, Debug)]
pub enum PullFault {
    // there is no such socket
    NoSocket = 10,
    // the socket is not taken
    Empty = 14,
}

impl Fault for PullFault {
    ghost number_of = { pull_number };

    fn number(self) -> u8 {
        self as u8
    }
}
