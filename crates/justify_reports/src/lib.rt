//! Which entries of a statement follow from its handler's code, and what a bound says where the others are on
//! trust.
#![tactic(auto)]

mod classed;
mod endless;
mod justify;
mod law;
mod outside;
mod returns;
mod row_texts;
mod rows;
mod summary;
mod trusted;

pub use justify::{JustifiedHandler, justify_report};
pub use law::{kept_is_on_trust, on_trust_is_bounded};
