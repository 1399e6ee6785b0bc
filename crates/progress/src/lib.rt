//! What is shown of work that is being done: a line before a file is read, and one where each 16 MiB of what
//! is written begin. Where these lines are lost, nothing else is.
#![tactic(auto)]

mod late;
mod lines;
mod watched;

pub use late::{ClockTimer, LateOutput, Timer};
pub use lines::show_reading;
pub use watched::WatchedOutput;
