//! What a machine shows as text: its registers, its ticks, why it stopped, and a line for each of its steps.
#![tactic(auto)]

mod figures;
mod register_lines;
mod run;
mod shown;
mod trace_lines;

pub use figures::{hex_word, why_name, write_stop, write_ticks};
pub use register_lines::write_registers;
pub use run::write_run;
pub use trace_lines::{LINE_ROOM, exception_name, trace_line};
