//! Test vectors for emulators: single steps of the machine from states that are drawn from a seed, as JSON.
#![tactic(auto)]

mod bus_use;
mod cycles;
mod draw;
mod operations;
mod pieces;
mod place;
mod planned_use;
mod setting;
mod shown_words;
mod states;
mod vectors;

pub use vectors::{MOST_VECTORS, print_vectors};
