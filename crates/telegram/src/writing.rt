// A telegram written from its fields.
ghost use Rattle.std.specs.Prelude.{◌≡◌, ◌+◌, ◌≤◌, true, ◌++◌, length, take, drop, IfOk, Some, Ok};
ghost use Rattle.telegram.specs.Forms.{question_form, answer_form, span};
ghost use Rattle.telegram.specs.Layout.{word, part, sealed, encode, plain};
ghost use Rattle.telegram.specs.Parts.{fields};
ghost use Rattle.telegram.specs.Reads.{read_question_result, read_answer_result};
ghost use Rattle.telegram.specs.Writes.{or_none, question, answer, extent, write_as_result, write_question_result, write_answer_result, filled, raised, exception_to, write_exception_result};

use crate::command::{Command, EXCEPTION};
use crate::fault::TelegramFault;
use crate::forms::{Form, part, tells_serial};
use crate::message::Telegram;
use checksum::checksum;

// Copies a field, if the form has it, into the buffer at a place, and returns the place after it. A telegram is put straight into
// the buffer that is lent: through 23 bytes of its own it took up to 1.6 times as long, or the library for C needed memcpy.
fn put(buffer: &mut [u8], at: usize, has: bool, bytes: &[u8]) -> usize
    requires { at + span has (length bytes.now) ≤ length buffer.old }
    ensures end { result ≡ at + span has (length bytes.now) }
    ensures before { take result buffer.new ≡ take at buffer.old ++ part has bytes.now }
    ensures after { drop result buffer.new ≡ drop result buffer.old }
{
    if !has {
        return at;
    }
    let end = at + bytes.len();
    buffer[at..end].copy_from_slice(bytes);
    end
}

// A field of two bytes, the high byte first.
fn put_word(buffer: &mut [u8], at: usize, has: bool, value: u16) -> usize
    requires { at + span has 2 ≤ length buffer.old }
    ensures end { result ≡ at + span has 2 }
    ensures before { take result buffer.new ≡ take at buffer.old ++ part has (word value) }
    ensures after { drop result buffer.new ≡ drop result buffer.old }
{
    put(buffer, at, has, &value.to_be_bytes())
}

// Adds the checksum of the first bytes behind them.
fn put_seal(buffer: &mut [u8], n: usize) -> usize
    requires { n + 2 ≤ length buffer.old }
    ensures end { result ≡ n + 2 }
    ensures bytes { buffer.new ≡ sealed (take n buffer.old) ++ drop result buffer.old }
{
    let sum = checksum(&buffer[0..n]);
    put(buffer, n, true, &sum.to_le_bytes())
}

// Writes the telegram into a buffer that has room for it.
fn put_telegram(form: Form, q: &Telegram, buffer: &mut [u8]) -> usize
    requires { 4 + extent form (fields q.now) ≤ length buffer.old }
    ensures end { result ≡ 4 + extent form (fields q.now) }
    ensures bytes { buffer.new ≡ encode form (fields q.now) ++ drop result buffer.old }
{
    let n = put(buffer, 0, true, &[q.address, q.command]);
    let n = put(buffer, n, form.serial, &q.serial);
    let n = put_word(buffer, n, form.subfunction, q.subfunction);
    let n = put_word(buffer, n, form.register, q.register);
    let n = put_word(buffer, n, form.value, q.value);
    let n = put(buffer, n, form.size, &[q.size]);
    let n = put(buffer, n, form.code, &[q.code]);
    let n = put(buffer, n, form.data, q.data);
    put_seal(buffer, n)
}

fn write_as(form: Form, q: &Telegram, buffer: &mut [u8]) -> Result<usize, TelegramFault>
    ensures value { result ≡ write_as_result (Some form) (fields q.now) (length buffer.old) }
    ensures bytes { buffer.new ≡ filled result (encode form (fields q.now)) buffer.old }
{
    let extent = form.fixed() + part(form.data, q.data).len();
    if extent > 19 {
        return Err(TelegramFault::Length);
    }
    if !form.fits(extent) {
        return Err(TelegramFault::FormLength);
    }
    if buffer.len() < 23 {
        return Err(TelegramFault::Buffer);
    }
    Ok(put_telegram(form, q, buffer))
}

// Questions and answers are written by one text, `write_as`, under two names, as they are read. The caller lends the memory,
// so what is told of it is a length.
#[tactic(auto, using(crate::proofs::Commands::question_form_unknown))]
pub fn write_question(q: &Telegram, buffer: &mut [u8]) -> Result<usize, TelegramFault>
    ensures value { result ≡ write_question_result (fields q.now) (length buffer.old) }
    ensures bytes { buffer.new ≡ filled result (question (fields q.now)) buffer.old }
    ensures back { IfOk result (λ n. read_question_result (take n buffer.new) ≡ Ok (plain (or_none (question_form q.now.command)) (fields q.now))) }
{
    let command = Command::try_from(q.command)?;
    write_as(Form::of_question(command), q, buffer)
}

pub fn write_answer(q: &Telegram, buffer: &mut [u8]) -> Result<usize, TelegramFault>
    ensures value { result ≡ write_answer_result (fields q.now) (length buffer.old) }
    ensures bytes { buffer.new ≡ filled result (answer (fields q.now)) buffer.old }
    ensures back { IfOk result (λ n. read_answer_result (take n buffer.new) ≡ Ok (plain (or_none (answer_form q.now.command q.now.code)) (fields q.now))) }
{
    write_as(Form::of_answer(q.command, q.code)?, q, buffer)
}

// Writes the exception to a command, known or not.
pub fn write_exception(
    address: u8,
    command: u8,
    serial: [u8; 6],
    code: u8,
    buffer: &mut [u8],
) -> Result<usize, TelegramFault>
    ensures value { result ≡ write_exception_result command code (length buffer.old) }
    ensures bytes { buffer.new ≡ filled result (exception_to address command serial code) buffer.old }
{
    if buffer.len() < 23 {
        return Err(TelegramFault::Buffer);
    }
    let form = Form::exception(tells_serial(command, code));
    let raised = if command < EXCEPTION {
        command + EXCEPTION
    } else {
        command
    };
    let exception = Telegram {
        address,
        command: raised,
        serial,
        code,
        ..Telegram::default()
    };
    Ok(put_telegram(form, &exception, buffer))
}
