//! The words of a script and what they say: numbers, bytes, serials; and why a line is not read.
#![tactic(auto)]

mod number;
mod text;
mod unread;

pub use number::{decimal_byte, decimal_number, hex_byte, hex_word, serial_of};
pub use text::{bytes_of, cut_at, lines_of, text_of, words_of};
pub use unread::Unread;
