//! Reading formats over TOML: a reading is a value, or the lowest of the faults of its parts.
//!
//! A format has a type of faults, which implements [`Fault`], and reads tables by [`value_at`],
//! [`number_in`], [`tables`] and the like, whose readings [`pair`] and [`append`] join;
//! [`required`] reads of a value that must be there.
#![tactic(auto)]

mod distinct;
mod documents;
mod keys;
mod limits;
mod lists;
mod numbers;
mod readings;

pub use distinct::{are_all_distinct, by_number};
pub use documents::document;
pub use keys::{is_one_of, of_keys, value_at};
pub use limits::{read_list_up_to, tables_up_to};
pub use lists::{Entry, list, tables, values_of};
pub use numbers::{in_space, number_at, number_in, number_or};
pub use readings::{Fault, Reading, append, pair, required};
