// The commands that are known, each with its byte on the line.
ghost use Rattle.std.specs.Prelude.{◌≡◌};
ghost use Rattle.telegram.specs.Commands.{byte_of, Decodes};
ghost use Rattle.telegram.specs.Forms.{by_serial};

#[derive(Clone, Copy, PartialEq, Eq, Debug)]
pub enum Command {
    ReadHolding = 0x03,
    ReadInput = 0x04,
    WriteOne = 0x06,
    Diagnostics = 0x08,
    WriteSeveral = 0x10,
    ReadHoldingBySerial = 0x43,
    ReadInputBySerial = 0x44,
    WriteOneBySerial = 0x46,
    WriteSeveralBySerial = 0x50,
}

// What an exception adds to the byte of its command.
pub const EXCEPTION: u8 = 0x80;

// The byte is that of no command.
#[derive(Clone, Copy, PartialEq, Eq, Debug)]
pub struct UnknownCommand;

impl TryFrom<u8> for Command {
    type Error = UnknownCommand;

    ghost try_from_gives = { Decodes };

    // In place it costs no call, and a form is chosen right after it.
    #[inline(always)]
    fn try_from(byte: u8) -> Result<Command, UnknownCommand> {
        match byte {
            0x03 => Ok(Command::ReadHolding),
            0x04 => Ok(Command::ReadInput),
            0x06 => Ok(Command::WriteOne),
            0x08 => Ok(Command::Diagnostics),
            0x10 => Ok(Command::WriteSeveral),
            0x43 => Ok(Command::ReadHoldingBySerial),
            0x44 => Ok(Command::ReadInputBySerial),
            0x46 => Ok(Command::WriteOneBySerial),
            0x50 => Ok(Command::WriteSeveralBySerial),
            _ => Err(UnknownCommand),
        }
    }
}

impl Command {
    // The byte of the command on the line.
    pub fn byte(self) -> u8
        ensures { result ≡ byte_of self }
    {
        self as u8
    }

    // Whether it addresses by serial.
    pub fn is_by_serial(self) -> bool
        ensures { result ≡ by_serial (byte_of self) }
    {
        matches!(
            self,
            Command::ReadHoldingBySerial
                | Command::ReadInputBySerial
                | Command::WriteOneBySerial
                | Command::WriteSeveralBySerial
        )
    }
}
