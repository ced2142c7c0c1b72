// Why a line is not read.
use std::alloc::AllocError;
use std::num::TryFromIntError;
use thiserror::Error;

#[derive(Clone, Copy, Debug, PartialEq, Eq, Error)]
pub enum Unread {
    #[error("unknown command")]
    UnknownCommand,
    #[error("unknown word")]
    UnknownWord,
    #[error("a word is missing")]
    MissingWord,
    #[error("a word too many")]
    ExtraWord,
    #[error("odd number of digits")]
    OddDigits,
    #[error("no hexadecimal digit")]
    NoHexadecimalDigit,
    #[error("no decimal digit")]
    NoDecimalDigit,
    #[error("a number without digits")]
    NoDigits,
    #[error("number too large for its place")]
    TooLarge,
    #[error("a serial has twelve digits")]
    NoSerial,
    #[error("a field is written name=value")]
    NoField,
    #[error("unknown field")]
    UnknownField,
    #[error("field given twice")]
    FieldTwice,
    #[error("no station yet")]
    NoStation,
    #[error("no memory left for it")]
    Memory(#[from(alloc)] AllocError),
}

impl From<TryFromIntError> for Unread {
    fn from(_e: TryFromIntError) -> Unread {
        Unread::TooLarge
    }
}
