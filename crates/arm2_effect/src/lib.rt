//! What instructions of the ARM2 do by the registers alone, and the ticks that they take.
//!
//! These are all but loads and stores: data processing, multiplies, branches and exceptions.
//! The rules are those of the VL86C010 data sheet, but for C after a multiply. A step's ticks are the sum of
//! its accesses, at prices of our own.
#![tactic(auto)]

mod data;
mod exceptions;
mod execute;
mod modes;
mod operands;
mod outcomes;
mod prices;
mod program_counter;
mod registers;
mod step_end;

pub use exceptions::Vector;
pub use modes::{Mode, Reg};
pub use prices::Prices;
pub use program_counter::{
    address_of, branch_target, is_fiq_masked, is_irq_masked, mode_of, r15_ahead, r15_jumped,
    r15_of, r15_restored,
};
pub use registers::{Registers, slot_of};
pub use step_end::{Done, Kind, Why};
