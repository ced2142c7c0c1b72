//! A serial: the number that tells a fan from all others. It has six bytes, none of them zero, the most significant first.
//! A mask, with zeros at the places that are left open, asks for several serials at once; a serial has no zero, so that no
//! byte of it can be taken for a place left open.
#![tactic(auto)]

ghost use Rattle.std.specs.Prelude.{◌≡◌, ◌^◌, ◌<◌, true, false, Some, MatchOption, nat_lt};
ghost use Rattle.serial.specs.Six.{six, number, no_zero, fair, fitting, before};

// The order is that of the numbers, which is that of the bytes too (`precedes`).
#[derive(Clone, Copy, PartialEq, Eq, PartialOrd, Ord, Debug)]
pub struct Serial {
    value: u64,
    ghost ok: { fair value ≡ true },
}

impl Serial {
    // The serial with this number, or none where the number has more than six bytes or a zero among them.
    pub fn new(value: u64) -> Option<Serial>
        ensures { MatchOption result (fair value ≡ false) (λ s. s.value ≡ value) }
    {
        if value < 0x1_0000_0000_0000 && has_no_zero(six_bytes(value)) {
            Some(Serial { value })
        } else {
            None
        }
    }

    // The serial with these bytes, or none where one of them is zero. Its number is the one that the bytes make. It undoes
    // `to_bytes`: from the bytes of a serial comes that serial.
    pub fn from_bytes(bytes: [u8; 6]) -> Option<Serial>
        ensures made { MatchOption result (no_zero bytes ≡ false) (λ s. six s.value ≡ bytes) }
        ensures value { (s : Serial) → result ≡ Some s → s.value ≡ number bytes }
        ensures back { (s : Serial) → six s.value ≡ bytes → result ≡ Some s }
    {
        let [a, b, c, d, e, f] = bytes;
        Serial::new(u64::from_be_bytes([0, 0, a, b, c, d, e, f]))
    }

    // The serial as a number.
    pub fn value(self) -> u64
        ensures same { result ≡ self.value }
        ensures below { result < 2 ^ 48 }
    {
        self.value
    }

    // The six bytes of the serial, the most significant first.
    pub fn to_bytes(self) -> [u8; 6]
        ensures same { result ≡ six self.value }
        ensures whole { no_zero result ≡ true }
    {
        six_bytes(self.value)
    }

    // Whether the mask fits the serial.
    pub fn fits(self, mask: [u8; 6]) -> bool
        ensures { result ≡ fitting mask (six self.value) }
    {
        fits_bytes(mask, self.to_bytes())
    }

    // Whether this serial comes before the other. The order of the numbers is the order of the bytes, by the first that differs:
    // `<` alone does not say the second.
    pub fn precedes(self, other: Serial) -> bool
        ensures number { result ≡ nat_lt self.value other.value }
        ensures bytes { result ≡ before (six self.value) (six other.value) }
    {
        self < other
    }
}

// The six low bytes of a number, the most significant first.
fn six_bytes(value: u64) -> [u8; 6]
    ensures { result ≡ six value }
{
    let [_, _, a, b, c, d, e, f] = value.to_be_bytes();
    [a, b, c, d, e, f]
}

// Whether none of the bytes is zero, so that they are those of a serial.
#[tactic(auto, using(crate::proofs::Bytes::no_zero_from_list_any))]
pub fn has_no_zero(bytes: [u8; 6]) -> bool
    ensures { result ≡ no_zero bytes }
{
    !bytes.contains(&0)
}

// Whether the mask fits the bytes, a serial's or not: each byte of the mask is zero or the byte at its place.
pub fn fits_bytes(mask: [u8; 6], bytes: [u8; 6]) -> bool
    ensures { result ≡ fitting mask bytes }
{
    mask.iter()
        .zip(bytes.iter())
        .all(|(m, b)| *m == 0 || m == b)
}

#[cfg(test)]
mod tests {
    use super::*;

    #[test]
    fn mask_with_open_places(rt: HostRuntime) {
        let mask = [0x41, 0, 0, 0, 0, 0x43];
        assert!(rt; fits_bytes(mask, [0x41, 0x42, 0x42, 0x42, 0x42, 0x43]));
        assert!(rt; !fits_bytes(mask, [0x41, 0x42, 0x42, 0x42, 0x42, 0x44]));
    }

    #[test]
    fn no_serials(rt: HostRuntime) {
        assert!(rt; Serial::new(0x1_0000_0000_0000).is_none());
        assert!(rt; Serial::new(0x4142_0042_4243).is_none());
        assert!(rt; Serial::from_bytes([0x41, 0x42, 0, 0x42, 0x42, 0x43]).is_none());
    }
}
