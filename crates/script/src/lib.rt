//! The language of the bench: one command to a line, carried out on a station alone or on a wall, with what it prints.
#![tactic(auto)]

mod bench;
mod command;
mod fields;
mod run;

pub use run::{run_and_tell, run_input, run_script};
