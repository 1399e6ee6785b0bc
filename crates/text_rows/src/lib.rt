//! Texts for people: in columns, in rows one after another, and with the labels of a source's lines.
#![tactic(auto)]

mod address_rows;
mod addresses;
mod line_labels;
mod rows_of_lines;
mod text_columns;
mod word_lines;

pub use address_rows::{
    NumberedLine, put_address, put_address_row, put_named_row, put_shown_row, section,
};
pub use addresses::put_labelled;
pub use line_labels::{SourceLine, first_word, label_of};
pub use rows_of_lines::{LineRows, WordRows, put_line_rows, put_word_rows};
pub use text_columns::{
    ROW_COLUMNS, WIDEST_COLUMN, put, put_cut_row, put_decimal, put_number, put_right,
};
pub use word_lines::source_lines;
