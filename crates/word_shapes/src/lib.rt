//! Shapes of words: which load or store, and which look like a return, a jump into a table of branches, or
//! the word that keeps the return address; which write R15 and do not look like a return; and which put
//! an address into R14.
#![tactic(auto)]

mod shapes;
mod words;

pub use shapes::{is_odd_writer, is_return, keeps_return_address, makes_address};
pub use words::{
    instr_at, is_odd_writer_at, is_table_jump_at, is_transfer_at, leaves_flags_at,
    may_keep_return_address_at, may_set_link_by_pc_at, may_transfer_at, may_write_oddly_at,
};
