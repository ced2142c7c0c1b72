// A telegram read into its fields.
ghost use Rattle.std.specs.Prelude.{◌≡◌, ◌≤◌, length, take, drop, IfOk, Some, if◌then◌else◌, replicate};
ghost use Rattle.telegram.specs.Forms.{span, fixed, fits};
ghost use Rattle.telegram.specs.Layout.{decode};
ghost use Rattle.telegram.specs.Parts.{fields, opened, shown};
ghost use Rattle.telegram.specs.Reads.{read_as_result, as_question, as_answer, read_question_result, read_answer_result};
ghost use Rattle.telegram.specs.Writes.{question, answer};

use crate::command::Command;
use crate::envelope::{Envelope, open_telegram};
use crate::fault::TelegramFault;
use crate::forms::{Form, part};
use crate::message::Telegram;

// A field of N bytes, if the form has it, and what follows it. Where the bytes are too few it takes none. The flag is the
// form's, as in `part`.
fn take_field<'a, const N: usize>(has: bool, bytes: &'a [u8]) -> ([u8; N], &'a [u8])
    ensures field { span has N ≤ length bytes.now → result.0 ≡ (if has then take N bytes.now else replicate N 0) }
    ensures rest { span has N ≤ length bytes.now → result.1.now ≡ drop (span has N) bytes.now }
{
    match bytes.split_first_chunk() {
        Some((field, rest)) if has => (*field, rest),
        _ => ([0; N], bytes),
    }
}

// The fields of a body that is long enough for the form.
fn read_fields<'a>(form: Form, envelope: &Envelope<'a>) -> Telegram<'a>
    requires { fixed form ≤ length envelope.now.body.now }
    ensures { fields result ≡ decode form envelope.now.address envelope.now.command envelope.now.body.now }
{
    let (serial, rest) = take_field(form.serial, envelope.body);
    let (subfunction, rest) = take_field(form.subfunction, rest);
    let (register, rest) = take_field(form.register, rest);
    let (value, rest) = take_field(form.value, rest);
    let ([size], rest) = take_field::<1>(form.size, rest);
    let ([code], rest) = take_field::<1>(form.code, rest);
    Telegram {
        address: envelope.address,
        command: envelope.command,
        serial,
        subfunction: u16::from_be_bytes(subfunction),
        register: u16::from_be_bytes(register),
        value: u16::from_be_bytes(value),
        size,
        code,
        data: part(form.data, rest),
    }
}

fn read_as<'a>(form: Form, envelope: &Envelope<'a>) -> Result<Telegram<'a>, TelegramFault>
    ensures { shown fields result ≡ read_as_result (Some form) (opened envelope.now) }
{
    if !form.fits(envelope.body.len()) {
        return Err(TelegramFault::FormLength);
    }
    Ok(read_fields(form, envelope))
}

impl<'a> Envelope<'a> {
    // The telegram as a question.
    #[tactic(auto, using(crate::proofs::Commands::question_form_unknown))]
    pub fn question(&self) -> Result<Telegram<'a>, TelegramFault>
        ensures { shown fields result ≡ as_question (opened self.now) }
    {
        let command = Command::try_from(self.command)?;
        read_as(Form::of_question(command), self)
    }

    // The telegram as an answer.
    pub fn answer(&self) -> Result<Telegram<'a>, TelegramFault>
        ensures { shown fields result ≡ as_answer (opened self.now) }
    {
        let code = self.body.last().copied().unwrap_or(0);
        read_as(Form::of_answer(self.command, code)?, self)
    }
}

// Questions and answers are read by one text, `read_as`. Two names are shorter than a parameter that says which of them it is.
pub fn read_question<'a>(bytes: &'a [u8]) -> Result<Telegram<'a>, TelegramFault>
    ensures value { shown fields result ≡ read_question_result bytes.now }
    ensures accepted { IfOk result (λ q. question (fields q) ≡ bytes.now) }
{
    open_telegram(bytes)?.question()
}

pub fn read_answer<'a>(bytes: &'a [u8]) -> Result<Telegram<'a>, TelegramFault>
    ensures value { shown fields result ≡ read_answer_result bytes.now }
    ensures accepted { IfOk result (λ q. answer (fields q) ≡ bytes.now) }
{
    open_telegram(bytes)?.answer()
}
