//! What a better entry of a statement would save by a greatest walk: for each load and store, and for the
//! way out of the handler, a narrower class, and for each multiply one cycle less.
#![tactic(auto)]

mod carried;
mod classes;
mod gains;
mod law;
mod saving;
mod sections;

pub use law::{
    gains_are_of_the_prices, next_class_is_the_dearest_below, offered_classes_lie_within,
    times_are_of_the_walk,
};
pub use sections::savings_text;
