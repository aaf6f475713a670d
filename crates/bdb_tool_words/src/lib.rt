//! The words of a command line, and the command that they are.
#![tactic(auto)]

mod command;
mod guesses;
mod named;
mod options;
mod shapes;
mod values;

pub use command::{
    Action, Bounds, Built, Command, Lookup, Parts, Reading, Repair, Request, Salvage, Selection,
    Trial, base_limit, command_of, onto_file,
};
