//! Words of the ARM2 to instructions, and back.
//!
//! The formats are those of the VL86C010 data sheet. Where it leaves a word open, the word is
//! undefined or unallocated by a choice of our own: see [`Unallocated`].
#![tactic(auto)]

mod clashes;
mod field;
mod flags;
mod instr;
mod law;
mod names;
mod reading;
mod transfers;
mod writers;
mod writing;

pub use clashes::{
    SingleFields, block_clash, data_clash, data_shift_clash, multiply_clash, single_clash,
    single_register_clash,
};
pub use field::{Field, bit_of_word};
pub use flags::{Flags, holds};
pub use instr::{
    Block, Branch, Coprocessor, CoprocessorTransfer, DataImmediate, DataRegister,
    DataRegisterShift, Instr, Multiply, Operation, SingleImmediate, SingleRegister, Swi,
    Unallocated, UndefinedTransfer,
};
pub use law::{compares_by_number, decode_encoded, encode_decoded};
pub use names::{Cond, Opcode, Register, Shift};
pub use reading::decode;
pub use transfers::{Moved, asks_for_user, writes_base};
pub use writing::encode;
