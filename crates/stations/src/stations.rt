// The three kinds of station.
ghost use Rattle.std.specs.Prelude.{◌≡◌, ◌+◌, ◌<◌, min, length};
ghost use Rattle.std.specs.Option.{option_map};
ghost use Rattle.telegram.specs.Layout.{word};
ghost use Rattle.wall.specs.Tells.{laid};
ghost use Rattle.stations.specs.Kinds.{speaks};
ghost use Rattle.stations.specs.Device.{State, fresh, input_at, register_at, ReadsOut};
ghost use Rattle.stations.specs.Parts.{state};
ghost use Rattle.stations.specs.Calls.{card, says, becomes};
ghost use Rattle.stations.specs.Shows.{shown_state};

use crate::calls::Call;
use crate::device::Device;
use crate::kind::{Action, ControllerKind, FanKind, FixedKind, Kind, OlderFanKind, Refusal};
use crate::registers::SET_VALUE;
use serial::Serial;
use std::array;
use std::marker::PhantomData;
use wall::{Address, Admitted, Card, ShortBuffer, Station};

// Input registers with a meaning of their own: of a fan, and of a controller.
const VALUE: u16 = 0xD010;

const MOTOR_STATUS: u16 = 0xD011;

const OWN_ADDRESS: u16 = 111;

// A station of a kind that its type names.
#[derive(Clone, Copy)]
pub struct StationOf<K> {
    pub(crate) device: Device,
    kind: PhantomData<K>,
}

// A V5.00 fan.
pub type Fan = StationOf<FanKind>;

// A fan of an earlier version: it knows no questions by serial but a write under its own address.
pub type OlderFan = StationOf<OlderFanKind>;

// A controller of the cold store, on the same wire.
pub type Controller = StationOf<ControllerKind>;

impl<K: FixedKind> Station for StationOf<K> {
    ghost State = { State };

    ghost state = { shown_state };

    ghost card = { card K.KIND };

    ghost speaks = { speaks K.KIND };

    ghost says = { says K.KIND };

    ghost becomes = { becomes K.KIND };

    ghost fresh = { fresh };

    ghost laws = { K.laws };

    fn new(admitted: Admitted) -> StationOf<K> {
        StationOf {
            device: Device::new(admitted),
            kind: PhantomData,
        }
    }

    fn speaks_serials() -> bool {
        K::KIND.speaks()
    }

    fn serial(&self) -> Option<Serial> {
        Self::speaks_serials().then_some(self.device.serial)
    }

    fn shown(&self) -> Card {
        Card {
            serial: self.serial().map(|serial| serial.value()),
            address: self.device.address.value(),
            stored: self.device.stored,
            defective: self.device.defective,
        }
    }

    fn address(&self) -> Address {
        self.device.address
    }

    fn stored_address(&self) -> u8 {
        self.device.stored
    }

    fn is_defective(&self) -> bool {
        self.device.defective
    }

    fn tell(&mut self, telegram: &[u8], buffer: &mut [u8]) -> Result<Option<usize>, ShortBuffer> {
        let room = buffer.first_chunk_mut::<23>().ok_or(ShortBuffer)?;
        let said = self.answer(telegram, room);
        Ok(said)
    }
}

impl<K: FixedKind> StationOf<K> {
    // How many bytes in front of the buffer it answers, or none where it is silent.
    fn answer(&mut self, telegram: &[u8], room: &mut [u8; 23]) -> Option<usize>
        ensures size { result ≡ option_map length (says K.KIND (state self.old.device) telegram.now) }
        ensures bytes { room.new ≡ laid (says K.KIND (state self.old.device) telegram.now) room.old }
        ensures after { state self.new.device ≡ becomes K.KIND (state self.old.device) telegram.now }
    {
        match self.call(telegram) {
            Call::Nothing => None,
            Call::Unknown(command) => {
                Some(self.device.put_exception(command, Refusal::Function, room))
            }
            Call::Asked(q) => self.obey(&q, room),
        }
    }

    fn input(&self, register: u16) -> u16
        ensures { result ≡ input_at K.KIND (state self.now.device) register }
    {
        match (K::KIND, register) {
            (Kind::Controller, OWN_ADDRESS) => u16::from(self.device.address.value()),
            (Kind::Controller, _) => 0,
            (_, VALUE) => self.device.paged(SET_VALUE).min(0xFF00),
            (_, MOTOR_STATUS) => { if self.device.defective { 0x18 } else { 0 } }
            _ => 0,
        }
    }

    // The register that an action reads.
    fn register(&self, action: Action, register: u16) -> u16
        ensures { result ≡ register_at K.KIND (state self.now.device) action register }
    {
        match action {
            Action::ReadInput => self.input(register),
            _ => self.device.holding(register),
        }
    }

    // The bytes of the register that stands so many places after another, or of the last that there can be.
    fn bytes_after(&self, action: Action, first: u16, place: usize) -> [u8; 2]
        requires { place < 9 }
        ensures { result ≡ word (register_at K.KIND (state self.now.device) action (min (first + place) 65535)) }
    {
        let register = first.saturating_add(place as u16);
        self.register(action, register).to_be_bytes()
    }

    // The bytes of so many registers from one on, of nine at most; those after them are not read, and stand as zeros.
    pub(crate) fn read_out(&self, action: Action, first: u16, count: u16) -> [[u8; 2]; 9]
        ensures { ReadsOut (register_at K.KIND (state self.now.device) action) first count result }
    {
        array::from_fn(
            |place: usize| -> [u8; 2]
                requires { place < 9 }
                ensures { place < count → result ≡ word (register_at K.KIND (state self.entry.now.device) action (min (first + place) 65535)) }
            {
                if place < usize::from(count) {
                    self.bytes_after(action, first, place)
                } else {
                    [0; 2]
                }
            },
        )
    }
}
