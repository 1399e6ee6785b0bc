//! Facts on the words of registers at the entry of a handler, read from TOML.
#![tactic(auto)]

mod facts;
mod faults;
mod law;
mod places;
mod repeats;
mod spots;

pub use facts::read_facts;
pub use faults::GivenFault;
pub use law::facts_are_read;
pub use places::GivenDocument;
pub use spots::GivenSpot;
