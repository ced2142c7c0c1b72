// What a wall shows of its sockets and stations.
ghost use Rattle.wall.specs.Numbers.{short_number};

use telegram::Fault;

// A station as the wall shows it: its serial, if it has one, the address in force, the stored address, and whether it is
// defective (a station that is not is sound).
#[derive(Clone, Copy, PartialEq, Eq, Debug)]
pub struct Card {
    pub serial: Option<u64>,
    pub address: u8,
    pub stored: u8,
    pub defective: bool,
}

// A place for a station. Only stations in live sockets are heard; a socket that does not speak serials hides the serial.
#[derive(Clone, Copy, PartialEq, Eq, Debug)]
pub struct Socket {
    pub live: bool,
    pub speaks: bool,
    pub station: Option<Card>,
}

// The buffer for an answer has not 23 bytes.
#[derive(Clone, Copy, PartialEq, Eq, Debug)]
pub struct ShortBuffer;

impl Fault for ShortBuffer {
    ghost number_of = { λ _. short_number };

    fn number(self) -> u8 {
        15
    }
}
