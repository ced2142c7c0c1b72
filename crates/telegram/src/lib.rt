//! Telegrams of Modbus RTU: read and written, questions and answers, and an answer held against its question.
#![tactic(auto)]

mod answer;
mod command;
mod envelope;
mod fault;
mod forms;
mod message;
mod reading;
mod writing;

pub use answer::read_answer_to;
pub use command::{Command, UnknownCommand};
pub use envelope::{Envelope, open_telegram};
pub use fault::{AnswerFault, Fault, TelegramFault};
pub use forms::is_by_serial;
pub use message::Telegram;
pub use reading::{read_answer, read_question};
pub use writing::{write_answer, write_exception, write_question};
