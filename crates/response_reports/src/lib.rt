//! The report of a handler's response time: from when an interrupt's line rises until the handler's first
//! step at an address ends, with the visits of FIQ's handler too.
#![tactic(auto)]

mod asked;
mod held_back;
mod law;
mod reaching;
mod respond;
mod texts;
mod visits;

pub use asked::{AskedFiq, AskedResponse};
pub use law::some_run_serves_every;
pub use respond::respond_report;
