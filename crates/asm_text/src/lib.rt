//! The text of assembler source: its lines, their pieces, words, numbers and operands, and what each line
//! says.
//!
//! `[label] [word [operands]] [; text]`, where choices of our own settle what is open:
//!
//! - A label begins in the first column, a word after a blank (a space or a tab). What begins in the first
//!   column and is no label makes the line an unknown word. `MOV` in the first column is a label.
//! - A word ends at a blank or with the line; any other byte after it, a comma too, makes it unknown.
//! - Blanks are allowed round commas, in front of a word, after it and at the end of a line, and at least one
//!   is needed between a shift and its amount or register. Anywhere else they make a bad operand.
//! - Words, registers and shifts are wholly in upper or in lower case; hexadecimal digits may be of either or
//!   both.
//! - A number of 2^32 or more is none, and only an offset has a sign: `#-0` is not `#0`.
//! - The name of a register, where a label is allowed, is a label.
//! - Registers of a list may come in any order and twice; a run does not fall, and no list is empty.
//! - `[Rn]!` is `[Rn,#0]!`; `T` asks an offset after the bracket.
//! - A compare has `S`, `P` or neither after its condition.
#![tactic(auto)]

mod address;
mod hexadecimal;
mod law;
mod lines;
mod list;
mod names;
mod number;
mod operand;
mod printed_lines;
mod register;
mod statement;
mod syntax;
mod table;
mod token;
mod word;

pub use hexadecimal::{hex, hex8};
pub use law::lines_are_spelled;
pub use lines::{Line, first_line, read_line};
pub use names::{Head, Suffix, cond_name, opcode_name};
pub use number::{read_hex, read_number};
pub use printed_lines::{Shown, WORD_LINE_ROOM, read_shown};
pub use register::register_of;
pub use statement::TextFault;
pub use syntax::{
    Address, Amount, BlockTransfer, Code, Data, Distance, Operand, Product, Reference, Shifting,
    SingleTransfer, SourceStatement, Use, Value, WordAction,
};
pub use token::{after_blanks, is_blank};
pub use word::Word;
