//! Three kinds of station behind one interface: V5.00 fan, older fan, controller.
#![tactic(auto)]

mod calls;
mod device;
mod kind;
mod question;
mod range;
mod registers;
mod rights;
mod stations;

pub use kind::{ControllerKind, FanKind, FixedKind, Kind, OlderFanKind, UnknownKind};
pub use stations::{Controller, Fan, OlderFan, StationOf};
