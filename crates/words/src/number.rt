// Numbers, as the digits of a word say them.
ghost use Rattle.std.specs.Prelude.{◌≡◌, ◌+◌, ◌*◌, ◌<◌, ◌≤◌, drop, IfOk, IfSome};
ghost use Rattle.std.specs.Int.{to_be_bytes, w64};
ghost use Rattle.words.specs.Digits.{digit_value, radix_of, value_of};

use crate::unread::Unread;

// What the digits of a number count by.
#[derive(Clone, Copy)]
enum Base {
    Decimal,
    Hexadecimal,
}

// A number of one or two hexadecimal digits. Each of these readers is one call of `number` with the limits of its type, and a
// type parameter would need a trait for them.
pub fn hex_byte(word: &[u8]) -> Result<u8, Unread>
    ensures { IfOk result (λ n. n ≡ value_of 16 word.now) }
{
    Ok(u8::try_from(hex_number(word, 2)?)?)
}

// A number of one to four hexadecimal digits.
pub fn hex_word(word: &[u8]) -> Result<u16, Unread>
    ensures { IfOk result (λ n. n ≡ value_of 16 word.now) }
{
    Ok(u16::try_from(hex_number(word, 4)?)?)
}

// A word of too many digits is too large, zeros in front too.
fn hex_number(word: &[u8], digits: usize) -> Result<u64, Unread>
    ensures { IfOk result (λ n. n ≡ value_of 16 word.now) }
{
    if word.len() > digits {
        return Err(Unread::TooLarge);
    }
    number(word, Base::Hexadecimal, u64::MAX)
}

// A decimal number of at most 255. Its digits are read up to 65535: of 300x it is told that x is no digit, of 99999x that the
// number is too large.
pub fn decimal_byte(word: &[u8]) -> Result<u8, Unread>
    ensures { IfOk result (λ n. n ≡ value_of 10 word.now) }
{
    Ok(u8::try_from(number(word, Base::Decimal, 65535)?)?)
}

// A decimal number below 2^32.
pub fn decimal_number(word: &[u8]) -> Result<u32, Unread>
    ensures { IfOk result (λ n. n ≡ value_of 10 word.now) }
{
    Ok(u32::try_from(number(word, Base::Decimal, u64::from(u32::MAX))?)?)
}

// The twelve hexadecimal digits of a serial.
pub fn serial_of(word: &[u8]) -> Result<[u8; 6], Unread>
    ensures { IfOk result (λ serial. serial ≡ drop 2 (to_be_bytes w64 (value_of 16 word.now))) }
{
    if word.len() != 12 {
        return Err(Unread::NoSerial);
    }
    let [_, _, a, b, c, d, e, f] = number(word, Base::Hexadecimal, u64::MAX)?.to_be_bytes();
    Ok([a, b, c, d, e, f])
}

// The number that the word says. Of its bytes the first that is no digit, or makes the number too large, is told.
fn number(word: &[u8], base: Base, greatest: u64) -> Result<u64, Unread>
    ensures range { IfOk result (λ n. n ≤ greatest) }
    ensures value { IfOk result (λ n. n ≡ value_of (radix_of base) word.now) }
{
    if word.is_empty() {
        return Err(Unread::NoDigits);
    }
    let mut value = 0;
    for byte in word {
        let digit = base.digit(*byte)?;
        value = base
            .with_digit(value, digit)
            .filter(|n| *n <= greatest)
            .ok_or(Unread::TooLarge)?;
    }
    Ok(value)
}

impl Base {
    fn radix(self) -> u32
        ensures { result ≡ radix_of self }
    {
        match self {
            Base::Decimal => 10,
            Base::Hexadecimal => 16,
        }
    }

    fn digit(self, byte: u8) -> Result<u32, Unread>
        ensures range { IfOk result (λ d. d < radix_of self) }
        ensures value { IfOk result (λ d. d ≡ digit_value byte) }
    {
        let no_digit = match self {
            Base::Decimal => Unread::NoDecimalDigit,
            Base::Hexadecimal => Unread::NoHexadecimalDigit,
        };
        char::from(byte).to_digit(self.radix()).ok_or(no_digit)
    }

    // The number with one digit more behind it.
    fn with_digit(self, value: u64, digit: u32) -> Option<u64>
        ensures { IfSome result (λ n. n ≡ radix_of self * value + digit) }
    {
        value
            .checked_mul(u64::from(self.radix()))?
            .checked_add(u64::from(digit))
    }
}
