//! The barrel shifter of the ARM2, and the cycles of its multiply.
#![tactic(auto)]

mod law;
mod shifts;

pub use law::{multiply_limit, multiply_table};
pub use shifts::{
    MOST_MULTIPLY_CYCLES, Shifted, multiplier_of, multiply_cycles, rotate_imm, shift_imm, shift_reg,
};
