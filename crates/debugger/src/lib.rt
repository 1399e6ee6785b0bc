//! A stepping debugger for the machine: a session takes command lines, and answers each with text.
//!
//! `step N`, `run N`, `break`, `break A`, `regs`, `mem A N`, `dis A N`, `ticks`, `burst N`, `line NAME
//! on|off`, `port N` and, in a whole session, `quit`, by our own format. Words are separated by spaces
//! and tabs; commands and names are case sensitive. Numbers are those of the assembler's source: decimal, or
//! hexadecimal after `&` or `0x`, below 2^32.
#![tactic(auto)]

mod command;
mod conversation;
mod fault;
mod printed;
mod reading;
mod rows;
mod session;
mod stepping;
mod tally;
mod words;

pub use conversation::converse;
pub use fault::DebugFault;
pub use session::Session;
