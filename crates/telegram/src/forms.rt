// Which fields stand between a telegram's command and its checksum, by command.
ghost use Rattle.std.specs.Prelude.{◌≡◌, ◌≤◌, false, Some, length};
ghost use Rattle.std.specs.Result.{result_ok};
ghost use Rattle.telegram.specs.Commands.{byte_of};
ghost use Rattle.telegram.specs.Layout.{part};
ghost use Rattle.telegram.specs.Forms.{registers, several, contents, diagnostics, exception, by_serial, question_form, done_form, exception_tells_serial, exception_form, answer_form, fixed, fits, span};

use crate::command::{Command, EXCEPTION, UnknownCommand};

// The fields that a telegram has, in their order on the line.
#[derive(Clone, Copy, Default)]
pub struct Form {
    pub serial: bool,
    pub subfunction: bool,
    pub register: bool,
    pub value: bool,
    pub size: bool,
    pub code: bool,
    pub data: bool,
}

impl Form {
    fn registers(serial: bool) -> Form
        ensures { result ≡ registers serial }
    {
        Form {
            serial,
            register: true,
            value: true,
            ..Form::default()
        }
    }

    fn several(serial: bool) -> Form
        ensures { result ≡ several serial }
    {
        Form {
            serial,
            register: true,
            value: true,
            size: true,
            data: true,
            ..Form::default()
        }
    }

    fn contents(serial: bool) -> Form
        ensures { result ≡ contents serial }
    {
        Form {
            serial,
            size: true,
            data: true,
            ..Form::default()
        }
    }

    fn diagnostics() -> Form
        ensures { result ≡ diagnostics }
    {
        Form {
            subfunction: true,
            data: true,
            ..Form::default()
        }
    }

    pub fn exception(serial: bool) -> Form
        ensures { result ≡ exception serial }
    {
        Form {
            serial,
            code: true,
            ..Form::default()
        }
    }

    pub fn of_question(command: Command) -> Form
        ensures { Some result ≡ question_form (byte_of command) }
    {
        match command {
            Command::ReadHolding | Command::ReadInput | Command::WriteOne => Form::registers(false),
            Command::Diagnostics => Form::diagnostics(),
            Command::WriteSeveral => Form::several(false),
            Command::ReadHoldingBySerial | Command::ReadInputBySerial | Command::WriteOneBySerial =>
                Form::registers(true),
            Command::WriteSeveralBySerial => Form::several(true),
        }
    }

    fn of_done(command: Command) -> Form
        ensures { Some result ≡ done_form (byte_of command) }
    {
        match command {
            Command::ReadHolding | Command::ReadInput => Form::contents(false),
            Command::WriteOne | Command::WriteSeveral => Form::registers(false),
            Command::Diagnostics => Form::diagnostics(),
            Command::ReadHoldingBySerial | Command::ReadInputBySerial => Form::contents(true),
            Command::WriteOneBySerial | Command::WriteSeveralBySerial => Form::registers(true),
        }
    }

    fn of_exception(command: Command, code: u8) -> Form
        ensures { Some result ≡ exception_form (byte_of command) code }
    {
        Form::exception(tells_serial(command.byte(), code))
    }

    #[tactic(auto, using(crate::proofs::Commands::answer_form_unknown, crate::proofs::Commands::answer_form_unknown_raised))]
    pub fn of_answer(command: u8, code: u8) -> Result<Form, UnknownCommand>
        ensures { result_ok result ≡ answer_form command code }
    {
        if command < EXCEPTION {
            Ok(Form::of_done(Command::try_from(command)?))
        } else {
            Ok(Form::of_exception(Command::try_from(command - EXCEPTION)?, code))
        }
    }

    // How many bytes stand before the data. Pairs of flag and size in a list would name each field again and add no less.
    pub fn fixed(&self) -> usize
        ensures value { result ≡ fixed self.now }
        ensures small { result ≤ 15 }
    {
        spanned(self.serial, 6)
            + spanned(self.subfunction, 2)
            + spanned(self.register, 2)
            + spanned(self.value, 2)
            + spanned(self.size, 1)
            + spanned(self.code, 1)
    }

    // Whether a body of so many bytes has the form.
    pub fn fits(&self, length: usize) -> bool
        ensures { result ≡ fits self.now length }
    {
        let fixed = self.fixed();
        if self.data {
            fixed + spanned(self.subfunction, 1) <= length
        } else {
            length == fixed
        }
    }
}

// So many bytes where the field is there. The flag is the form's, as in `part`.
fn spanned(has: bool, n: usize) -> usize
    ensures { result ≡ span has n }
{
    if has { n } else { 0 }
}

// Whether a command addresses by serial: 43, 44, 46 and 50 do.
#[tactic(auto, using(crate::proofs::Commands::by_serial_unknown))]
pub fn is_by_serial(command: u8) -> bool
    ensures { result ≡ by_serial command }
{
    match Command::try_from(command) {
        Ok(command) => command.is_by_serial(),
        Err(UnknownCommand) => false,
    }
}

// Whether an exception to the command holds the serial.
pub fn tells_serial(command: u8, code: u8) -> bool
    ensures { result ≡ exception_tells_serial command code }
{
    is_by_serial(command) && code != 1
}

// The bytes of a field that the form has, or of the data. A form is seven flags: an Option in place of the flag would be made
// here and taken apart at once.
pub fn part(has: bool, bytes: &[u8]) -> &[u8]
    ensures bytes { result.now ≡ part has bytes.now }
    ensures long { length result.now ≡ span has (length bytes.now) }
{
    if has { bytes } else { &[] }
}
