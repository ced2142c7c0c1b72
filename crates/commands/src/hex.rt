// Bytes as they are printed: two upper-case hexadecimal digits each.
ghost use Rattle.std.specs.Prelude.{◌≡◌, ◌≤◌, codes, length, take};

use std::fmt;

#[derive(Clone, Copy)]
pub struct Hex<'a> {
    pub bytes: &'a [u8],
    // what stands between two bytes
    pub between: &'static str,
}

impl fmt::Display for Hex<'_> {
    fn fmt<W: fmt::Write>(&self, f: &mut fmt::Formatter<W>) -> fmt::Result {
        let between = self.between;
        let [first, rest @ ..] = self.bytes else {
            return Ok(());
        };
        write!(f, "{first:02X}")?;
        for byte in rest {
            write!(f, "{between}{byte:02X}")?;
        }
        Ok(())
    }
}

impl<'a> Hex<'a> {
    pub fn spaced(bytes: &'a [u8]) -> Hex<'a>
        ensures bytes { result.bytes.now ≡ bytes.now }
        ensures between { result.between.now ≡ codes " " }
    {
        Hex {
            bytes,
            between: " ",
        }
    }

    pub fn joined(bytes: &'a [u8]) -> Hex<'a>
        ensures bytes { result.bytes.now ≡ bytes.now }
        ensures between { result.between.now ≡ codes "" }
    {
        Hex { bytes, between: "" }
    }
}

// What was written into the front of a buffer: its first n bytes, spaced. The writers have no heap, and tell a length.
pub fn front(buffer: &[u8], n: usize) -> Hex<'_>
    ensures bytes { n ≤ length buffer.now → result.bytes.now ≡ take n buffer.now }
    ensures between { result.between.now ≡ codes " " }
{
    Hex::spaced(buffer.get(..n).unwrap_or(&[]))
}
