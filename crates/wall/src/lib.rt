//! What a wall of fans is: stations, their sockets, lines, and what each telegram does to them.
#![tactic(auto)]

mod address;
mod card;
mod faults;
mod line;
mod newcomer;
mod outcome;
mod station;
mod tally;

pub use address::Address;
pub use card::{Card, ShortBuffer, Socket};
pub use faults::{FitFault, PullFault};
pub use line::Line;
pub use newcomer::{Admitted, Newcomer};
pub use outcome::Outcome;
pub use station::Station;
pub use tally::Tally;
