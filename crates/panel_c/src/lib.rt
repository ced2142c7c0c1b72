//! The interface for C, as include/fanwall.h declares it: checksums, and questions read and written. Nothing allocates, and
//! no function asks anything of its caller beyond the types. C has no Result: a refusal is a number.
#![tactic(auto)]

ghost use Rattle.std.specs.Prelude.{◌≡◌, Ok};
ghost use Rattle.checksum.specs.Crc.{crc};
ghost use Rattle.telegram.specs.Reads.{read_question_result};
ghost use Rattle.panel_c.specs.Panel.{data_of, fields_with, question_read, question_written};

mod fields;

use checksum::checksum;
pub use fields::PanelFields;
use telegram::{Fault, read_question, write_question};

#[unsafe(no_mangle)]
pub extern "C" fn fanwall_checksum(bytes: &[u8]) -> u16
    ensures { result ≡ crc bytes.now }
{
    checksum(bytes)
}

// Reads a question: 0, or the number of the refusal, and then the fields stay as they were.
#[unsafe(no_mangle)]
pub extern "C" fn fanwall_read_question(bytes: &[u8], fields: &mut PanelFields) -> u8
    ensures number { result ≡ (question_read bytes.now fields.old).number }
    ensures panel { fields.new ≡ (question_read bytes.now fields.old).panel }
    ensures place { result ≡ 0 → read_question_result bytes.now ≡ Ok (fields_with fields.new (data_of fields.new bytes.now)) }
{
    match read_question(bytes) {
        Ok(q) => {
            *fields = PanelFields::of(&q, bytes.len());
            0
        }
        Err(fault) => fault.number(),
    }
}

// Writes a question from the fields and its data: 0, or the number of the refusal, and then buffer and count stay as they
// were.
#[unsafe(no_mangle)]
pub extern "C" fn fanwall_write_question(
    fields: &PanelFields,
    data: &[u8],
    buffer: &mut [u8],
    written: &mut usize,
) -> u8
    ensures number { result ≡ (question_written (fields_with fields.now «data».now) buffer.old written.old).number }
    ensures bytes { buffer.new ≡ (question_written (fields_with fields.now «data».now) buffer.old written.old).bytes }
    ensures count { written.new ≡ (question_written (fields_with fields.now «data».now) buffer.old written.old).count }
{
    let q = fields.telegram(data);
    match write_question(&q, buffer) {
        Ok(n) => {
            *written = n;
            0
        }
        Err(fault) => fault.number(),
    }
}
