// Why a telegram is turned down, and why an answer is none to its question.
ghost use Rattle.std.specs.Prelude.{◌≡◌, ℕ};
ghost use Rattle.telegram.specs.Numbers.{telegram_number, answer_number, answer_code};
ghost use Rattle.telegram.specs.declared.fault.TelegramFault.TheVariants.{Command};
ghost use Rattle.telegram.specs.declared.fault.AnswerFault.TheVariants.{Broken};

use crate::command::UnknownCommand;

// Why a call is turned down. Each fault has its number, by which testers and C know it.
pub trait Fault: Sized {
    ghost number_of: { Self → ℕ };

    fn number(self) -> u8
        ensures { result ≡ number_of self };
}

#[derive(Clone, Copy, PartialEq, Eq, Debug)]
pub enum TelegramFault {
    // it has not 4 to 23 bytes
    Length = 1,
    Checksum = 2,
    // the command is not known
    Command = 3,
    // its length does not fit its form
    FormLength = 4,
    // the buffer has not 23 bytes
    Buffer = 15,
}

#[derive(Clone, Copy, PartialEq, Eq, Debug)]
pub enum AnswerFault {
    // it is no good telegram
    Broken(TelegramFault),
    OtherCommand,
    OtherAddress,
    // the mask does not fit its serial, or that has a zero byte
    OtherSerial,
    // an exception, with its code
    Exception(u8),
    // it neither repeats what was asked nor holds twice the count
    Content,
}

impl Fault for TelegramFault {
    ghost number_of = { telegram_number };

    fn number(self) -> u8 {
        self as u8
    }
}

impl Fault for AnswerFault {
    ghost number_of = { answer_number };

    fn number(self) -> u8 {
        match self {
            AnswerFault::Broken(fault) => fault.number(),
            AnswerFault::OtherCommand => 5,
            AnswerFault::OtherAddress => 6,
            AnswerFault::OtherSerial => 7,
            AnswerFault::Exception(_) => 8,
            AnswerFault::Content => 9,
        }
    }
}

impl AnswerFault {
    // The code of the exception, if it is one.
    pub fn code(self) -> Option<u8>
        ensures { result ≡ answer_code self }
    {
        match self {
            AnswerFault::Exception(code) => Some(code),
            _ => None,
        }
    }
}

impl From<UnknownCommand> for TelegramFault {
    ghost from_gives = { λ _ r. r ≡ Command };

    fn from(_unknown: UnknownCommand) -> TelegramFault {
        TelegramFault::Command
    }
}

impl From<TelegramFault> for AnswerFault {
    ghost from_gives = { λ e r. r ≡ Broken e };

    fn from(fault: TelegramFault) -> AnswerFault {
        AnswerFault::Broken(fault)
    }
}
