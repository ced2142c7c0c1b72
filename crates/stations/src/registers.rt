// A station's registers, and what writing them does.
ghost use Rattle.std.specs.Prelude.{◌≡◌, ◌+◌, ◌-◌, ◌*◌, ◌/◌, ◌<◌, ◌≤◌, length, slice_index};
ghost use Rattle.stations.specs.Device.{fresh, holding_at, allowed, all_allowed, keeping, written, all_written};
ghost use Rattle.stations.specs.Parts.{state};
ghost use Rattle.stations.specs.Spans.{count};

use crate::device::Device;
use crate::range::Registers;
use crate::rights::{Level, level_for};
use wall::{Address, Admitted};

// The first of the registers that are kept as written.
const FIRST: u16 = 0xD000;

// Registers with a meaning of their own.
const ACT: u16 = 0xD000;

pub const SET_VALUE: u16 = 0xD001;

const PASSWORD: u16 = 0xD002;

const STORED_ADDRESS: u16 = 0xD100;

const RATE: u16 = 0xD149;

const SERIAL_HIGH: u16 = 0xD1A2;

const SERIAL_MIDDLE: u16 = 0xD1A3;

const SERIAL_LOW: u16 = 0xD1A4;

// Where a register stands on the page. One before the page has the first one's place.
fn place_of(register: u16) -> usize
    ensures { result ≡ register - 0xD000 }
{
    usize::from(register.saturating_sub(FIRST))
}

impl Device {
    pub fn new(admitted: Admitted) -> Device
        ensures { state result ≡ fresh admitted.serial.value admitted.address.value admitted.defective }
    {
        let Admitted {
            serial,
            address,
            defective,
        } = admitted;
        let mut page = [0; 331];
        page[place_of(RATE)] = 4;
        Device {
            serial,
            address,
            stored: address.value(),
            defective,
            level: Level::EndCustomer,
            page,
        }
    }

    // A register of the page, 0 past its end.
    pub fn paged(&self, register: u16) -> u16
        ensures { result ≡ slice_index self.now.page (register - 0xD000) }
    {
        self.page.get(place_of(register)).copied().unwrap_or(0)
    }

    pub fn holding(&self, register: u16) -> u16
        ensures { result ≡ holding_at (state self.now) register }
    {
        let [a, b, c, d, e, f] = self.serial.to_bytes();
        match register {
            ACT | PASSWORD => 0,
            STORED_ADDRESS => u16::from(self.stored),
            SERIAL_HIGH => u16::from_be_bytes([a, b]),
            SERIAL_MIDDLE => u16::from_be_bytes([c, d]),
            SERIAL_LOW => u16::from_be_bytes([e, f]),
            _ => {
                if level_for(register).is_some() {
                    self.paged(register)
                } else {
                    0
                }
            }
        }
    }

    // Whether one register may be written: by the level held, and not from D100 on where it is defective.
    fn may_write(&self, register: u16) -> bool
        ensures { result ≡ allowed (state self.now) register }
    {
        if self.defective && register >= STORED_ADDRESS {
            return false;
        }
        level_for(register).is_some_and(|level| self.level >= level)
    }

    // What writing D000 does: 2 brings a stored address that can be one into force.
    fn act(&mut self, value: u16)
        ensures { state self.new ≡ written (state self.old) 0xD000 value }
    {
        if value != 2 {
            return;
        }
        if let Some(address) = Address::new(self.stored) {
            self.address = address;
        }
    }

    // Keeps a value on the page.
    fn keep(&mut self, register: u16, value: u16)
        ensures { state self.new ≡ keeping (state self.old) register value }
    {
        let place = place_of(register);
        // by its place, since the check does not follow what is written through `get_mut` of an array
        if place < self.page.len() {
            self.page[place] = value;
        }
    }

    pub fn write_register(&mut self, register: u16, value: u16)
        ensures { state self.new ≡ written (state self.old) register value }
    {
        match register {
            ACT => self.act(value),
            PASSWORD => self.level = Level::by_password(value),
            STORED_ADDRESS => {
                let [_, low] = value.to_be_bytes();
                self.stored = low;
            }
            _ => self.keep(register, value),
        }
    }

    // Whether all of some registers may be written.
    pub fn may_write_all(&self, registers: Registers) -> bool
        ensures { result ≡ all_allowed (state self.now) registers.first (count registers) }
    {
        (registers.first..=registers.last).all(|register| self.may_write(register))
    }

    // Writes values of two bytes each into the registers from one on, in ascending order.
    pub fn write_all(&mut self, first: u16, bytes: &[u8])
        ensures { state self.new ≡ all_written (state self.old) first bytes.now }
    {
        for (register, value) in (first..=u16::MAX).zip(bytes.as_chunks::<2>().0) {
            self.write_register(register, u16::from_be_bytes(*value));
        }
    }
}
