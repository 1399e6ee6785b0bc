//! Reports of a machine that runs a source: runs, traces, and sessions of the debugger; and test vectors.
#![tactic(auto)]

mod debug;
mod machine;
mod run_to;
mod steps_to;
mod vectors;

pub use debug::debug_report;
pub use machine::{
    Front, ShownRecords, ShownRegisters, ShownSteps, machine_report, run_report, trace_report,
};
pub use run_to::{RunTo, run_to_report};
pub use vectors::vectors_report;
