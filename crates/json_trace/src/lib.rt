//! What the steps of a machine are as JSON: a line for each.
#![tactic(auto)]

mod law;
mod moved_words;
mod registers;
mod run;
mod step_line;
mod transfers;
mod values;

pub use law::texts_need_no_escape;
pub use moved_words::Transfers;
pub use registers::{Words, bank_suffix, words_of};
pub use run::{put_end, step_recorded, write_records};
pub use step_line::{StepRecord, put_step};
pub use transfers::{memory_word, planned, planned_by, transfer_kind, word_place};
pub use values::{boolean, flags_text, mode_name};
