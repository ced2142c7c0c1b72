// A station: whatever answers telegrams.
ghost use Rattle.std.specs.Prelude.{◌≡◌, ℕ, Bool, List, length, Option};
ghost use Rattle.std.specs.Option.{option_map};
ghost use Rattle.wall.specs.declared.card.Card.{Card};
ghost use Rattle.wall.specs.Tells.{told_result, told_buffer, told_state, number_of};
ghost use Rattle.wall.specs.Laws.{StationLaws};

use crate::address::Address;
use crate::card::{Card, ShortBuffer};
use crate::newcomer::Admitted;
use serial::Serial;

// The ghost members are the station as a small machine: its states, what each state shows, what it answers to a list of
// bytes and what it becomes, the state of a new one, and whether its socket speaks serials. The laws say that a wall with
// this one station keeps the rules of a wall.
pub trait Station: Sized {
    ghost State: { Type 0 };

    ghost state: { Self → State };

    ghost card: { State → Card };

    ghost speaks: { Bool };

    ghost says: { State → List ℕ → Option (List ℕ) };

    ghost becomes: { State → List ℕ → State };

    ghost fresh: { ℕ → ℕ → Bool → State };

    ghost laws: { StationLaws state speaks card says becomes fresh };

    fn new(admitted: Admitted) -> Self
        ensures { state result ≡ fresh admitted.serial.value admitted.address.value admitted.defective };

    // Whether a socket of this kind of station speaks serials.
    fn speaks_serials() -> bool
        ensures { result ≡ speaks };

    // The serial that the wall shows of the station.
    fn serial(&self) -> Option<Serial>
        ensures { option_map number_of result ≡ (card (state self.now)).serial };

    // What the wall shows of the station.
    fn shown(&self) -> Card
        ensures { result ≡ card (state self.now) };

    // The address in force.
    fn address(&self) -> Address
        ensures { result.value ≡ (card (state self.now)).address };

    fn stored_address(&self) -> u8
        ensures { result ≡ (card (state self.now)).stored };

    fn is_defective(&self) -> bool
        ensures { result ≡ (card (state self.now)).defective };

    // Puts a telegram to the station. It writes its answer into the front of the buffer, whose memory the caller lends, and
    // says its length, or is silent and leaves the buffer as it was. A buffer of under 23 bytes is refused, and nothing happens.
    fn tell(&mut self, telegram: &[u8], buffer: &mut [u8]) -> Result<Option<usize>, ShortBuffer>
        ensures value { result ≡ told_result (says (state self.old) telegram.now) buffer.old }
        ensures bytes { buffer.new ≡ told_buffer (says (state self.old) telegram.now) buffer.old }
        ensures after { state self.new ≡ told_state buffer.old (state self.old) (becomes (state self.old) telegram.now) };
}
