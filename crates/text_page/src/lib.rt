//! A page of HTML that shows where the ticks of a handler's greatest run time go, for a browser, with no
//! script and nothing that is loaded.
#![tactic(auto)]

mod cells;
mod document;
mod folds;
mod heading;
mod hover;
mod html;
mod law;
mod listing;
mod notes;
mod page_lines;
mod summary;

pub use document::page;
pub use law::{escaped_texts_have_no_marks, fold_ticks_are_of_hidden_rows};
