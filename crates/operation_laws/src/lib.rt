//! The law of what an operation of the ARM2 leaves: of every register, of the flags and the mode, and of memory.
//!
//! Each kind of instruction has a short rule (`specs/Leaves.antt`) over one general form (`specs/Left.antt`).
#![tactic(auto)]

mod law;

pub use law::operation_leaves;
