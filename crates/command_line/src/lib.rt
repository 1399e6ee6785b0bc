//! What the words of a command line ask of the program.
#![tactic(auto)]

mod command_rows;
mod commands;
mod line;
mod requests;

pub use command_rows::VERSION;
pub use line::{Command, CommandLineFault, CommandNumbers, Request};
pub use requests::request;
