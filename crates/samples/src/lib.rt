//! Handlers for tests, with what belongs to each: their images, bounds and certificates were worked by hand.
#![tactic(auto)]

pub mod branch;
pub mod call_twice;
pub mod countdown;
pub mod lone_return;
pub mod nested_countdown;
