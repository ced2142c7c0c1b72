// An answer held against the question that was asked.
ghost use Rattle.std.specs.Prelude.{◌≡◌, ◌&&◌, ◌==◌};
ghost use Rattle.telegram.specs.Answers.{to_command, from_address, holds_serial, from_serial, content_of, held_against, read_answer_to_result};
ghost use Rattle.telegram.specs.Parts.{fields, shown};
ghost use Rattle.telegram.specs.Reads.{read_answer_result};

use crate::command::{Command, EXCEPTION};
use crate::fault::AnswerFault;
use crate::forms::Form;
use crate::message::Telegram;
use crate::reading::read_answer;
use serial::{fits_bytes, has_no_zero};

impl Telegram<'_> {
    // Whether it has the command of the question, or that of an exception to it.
    fn is_to(&self, q: &Telegram) -> bool
        ensures { result ≡ to_command (fields q.now) (fields self.now) }
    {
        self.command == q.command || q.command.checked_add(EXCEPTION) == Some(self.command)
    }

    fn is_from(&self, q: &Telegram) -> bool
        ensures { result ≡ from_address (fields q.now) (fields self.now) }
    {
        if q.address == 0 {
            (1..=247).contains(&self.address)
        } else {
            self.address == q.address
        }
    }

    fn holds_serial(&self) -> bool
        ensures { result ≡ holds_serial (fields self.now) }
    {
        Form::of_answer(self.command, self.code).is_ok_and(|form| form.serial)
    }

    fn has_serial_of(&self, q: &Telegram) -> bool
        ensures { result ≡ from_serial (fields q.now) (fields self.now) }
    {
        !self.holds_serial() || (fits_bytes(q.serial, self.serial) && has_no_zero(self.serial))
    }

    fn repeats_register(&self, q: &Telegram) -> bool
        ensures { result ≡ (self.now.register == q.now.register && self.now.value == q.now.value) }
    {
        self.register == q.register && self.value == q.value
    }

    // Whether it repeats what was asked, or holds twice the count.
    fn has_content_of(&self, q: &Telegram) -> bool
        ensures { result ≡ content_of (fields q.now) (fields self.now) }
    {
        let Ok(command) = Command::try_from(q.command) else {
            return self.repeats_register(q);
        };
        match command {
            Command::ReadHolding
            | Command::ReadInput
            | Command::ReadHoldingBySerial
            | Command::ReadInputBySerial => {
                let bytes = 2 * usize::from(q.value);
                usize::from(self.size) == bytes && self.data.len() == bytes
            }
            Command::Diagnostics => self.subfunction == q.subfunction && self.data == q.data,
            Command::WriteOne
            | Command::WriteSeveral
            | Command::WriteOneBySerial
            | Command::WriteSeveralBySerial => self.repeats_register(q),
        }
    }
}

// The first of the questions in their order that the answer fails.
fn hold_against<'a>(answer: Telegram<'a>, q: &Telegram) -> Result<Telegram<'a>, AnswerFault>
    ensures { shown fields result ≡ held_against (fields q.now) (fields answer.entry) }
{
    if !answer.is_to(q) {
        return Err(AnswerFault::OtherCommand);
    }
    if !answer.is_from(q) {
        return Err(AnswerFault::OtherAddress);
    }
    if !answer.has_serial_of(q) {
        return Err(AnswerFault::OtherSerial);
    }
    if answer.command != q.command {
        return Err(AnswerFault::Exception(answer.code));
    }
    if !answer.has_content_of(q) {
        return Err(AnswerFault::Content);
    }
    Ok(answer)
}

// Reads an answer to a question.
pub fn read_answer_to<'a>(bytes: &'a [u8], q: &Telegram) -> Result<Telegram<'a>, AnswerFault>
    ensures { shown fields result ≡ read_answer_to_result (fields q.now) (read_answer_result bytes.now) }
{
    let answer = read_answer(bytes)?;
    hold_against(answer, q)
}
