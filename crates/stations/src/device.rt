// A station of any kind, as it stands in memory.
ghost use Rattle.std.specs.Prelude.{◌<◌};

use crate::rights::Level;
use serial::Serial;
use wall::Address;

// What a kind has no use for stays as it was made.
#[derive(Clone, Copy)]
pub struct Device {
    pub serial: Serial,
    pub address: Address,
    pub stored: u8,
    pub defective: bool,
    pub level: Level,
    // the registers from D000 to D14A that are kept as written
    pub page: [u16; 331],
    ghost byte: { stored < 256 },
}
