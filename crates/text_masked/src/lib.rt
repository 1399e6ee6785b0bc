//! The longest step of a handler, and how long at most its own words mask interrupts at a time.
#![tactic(auto)]

mod held;
mod marked;
mod region;
mod sections;
mod shown;
mod steps;
mod stretches;

pub use sections::masks_text;
