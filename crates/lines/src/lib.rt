//! Lines of three kinds, any of them over any other: a bank of sockets, a joint of two lines, a feeder that can be switched.
#![tactic(auto)]

mod bank;
mod blend;
mod feeder;
mod joint;
mod sockets;

pub use bank::Bank;
pub use feeder::Feeder;
pub use joint::Joint;
