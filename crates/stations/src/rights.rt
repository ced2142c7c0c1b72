// Who may write which register.
ghost use Rattle.std.specs.Prelude.{◌≡◌};
ghost use Rattle.stations.specs.Rights.{level_in_table, level_needed, level_set};

use crate::range::Registers;

// The levels, each with the rights of those before it.
#[derive(Clone, Copy, PartialEq, Eq, PartialOrd, Ord)]
pub enum Level {
    EndCustomer,
    Customer,
    Factory,
}

// From which level on some registers may be written.
#[derive(Clone, Copy)]
pub struct Right {
    pub registers: Registers,
    pub level: Level,
}

const RIGHTS: [Right; 8] = [
    Right {
        registers: Registers {
            first: 0xD000,
            last: 0xD002,
        },
        level: Level::EndCustomer,
    },
    Right {
        registers: Registers {
            first: 0xD100,
            last: 0xD10D,
        },
        level: Level::EndCustomer,
    },
    Right {
        registers: Registers {
            first: 0xD147,
            last: 0xD147,
        },
        level: Level::EndCustomer,
    },
    Right {
        registers: Registers {
            first: 0xD10E,
            last: 0xD10E,
        },
        level: Level::Customer,
    },
    Right {
        registers: Registers {
            first: 0xD145,
            last: 0xD145,
        },
        level: Level::Customer,
    },
    Right {
        registers: Registers {
            first: 0xD149,
            last: 0xD14A,
        },
        level: Level::Customer,
    },
    Right {
        registers: Registers {
            first: 0xD009,
            last: 0xD00A,
        },
        level: Level::Factory,
    },
    Right {
        registers: Registers {
            first: 0xD13B,
            last: 0xD13B,
        },
        level: Level::Factory,
    },
];

// The level that a table asks for a register, if anyone may write it.
fn level_in(table: &[Right], register: u16) -> Option<Level>
    ensures { result ≡ level_in_table table.now register }
{
    table
        .iter()
        .find(|right| right.registers.contains(register))
        .map(|right| right.level)
}

pub fn level_for(register: u16) -> Option<Level>
    ensures { result ≡ level_needed register }
{
    level_in(&RIGHTS, register)
}

impl Level {
    // The level that a password sets. By this name, since `Level::from(value)` would not say that it is a password.
    pub fn by_password(password: u16) -> Level
        ensures { result ≡ level_set password }
    {
        match password {
            0x4321 => Level::Customer,
            0x8765 => Level::Factory,
            _ => Level::EndCustomer,
        }
    }
}
