//! Listings: the lines of a source beside their words, and the words of an image with what they say.
#![tactic(auto)]

mod list_order;
mod listing_columns;
mod source;

pub use source::list_rows;
