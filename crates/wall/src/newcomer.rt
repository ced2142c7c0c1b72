// A station that is to be made, as plain numbers.
ghost use Rattle.std.specs.Prelude.{◌≡◌};
ghost use Rattle.std.specs.Result.{MatchResult};
ghost use Rattle.wall.specs.Lines.{Accepted, RefusedFor};

use crate::address::Address;
use crate::faults::FitFault;
use serial::Serial;

// What a new station is to have. It may be refused.
#[derive(Clone, Copy, PartialEq, Eq, Debug)]
pub struct Newcomer {
    pub serial: [u8; 6],
    pub address: u8,
    pub defective: bool,
}

// What a new station has, once its serial and its address are known to be such.
#[derive(Clone, Copy, PartialEq, Eq, Debug)]
pub struct Admitted {
    pub serial: Serial,
    pub address: Address,
    pub defective: bool,
}

impl Newcomer {
    // First it is asked whether no byte of the serial is zero, then whether the address is 1 to 247.
    pub fn check(self) -> Result<Admitted, FitFault>
        ensures { MatchResult result (λ a. Accepted self.serial self.address a.serial.value a.address.value × (a.defective ≡ self.defective)) (RefusedFor self.serial self.address) }
    {
        Ok(Admitted {
            serial: Serial::from_bytes(self.serial).ok_or(FitFault::NoSerial)?,
            address: Address::new(self.address).ok_or(FitFault::NoAddress)?,
            defective: self.defective,
        })
    }
}
