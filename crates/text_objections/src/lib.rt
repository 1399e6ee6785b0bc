//! What fails in a certificate that proves nothing, in lines for people.
#![tactic(auto)]

mod line_parts;
mod objection_texts;

pub use objection_texts::objection_text;
