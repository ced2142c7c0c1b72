//! What a script can do with telegrams and with a line of stations, each with what it prints.
#![tactic(auto)]

mod fields;
mod hex;
mod line;
mod sockets;
mod telegrams;

pub use hex::{Hex, front};
pub use line::{ask, fit, print_done, pull, switch};
pub use sockets::{Plan, show};
pub use telegrams::{
    read_answer, read_answer_to, read_question, sum, write_answer, write_question,
};
