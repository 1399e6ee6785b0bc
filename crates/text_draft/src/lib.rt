//! Drafts of statements: what the words of a handler show of what its author has to state.
#![tactic(auto)]

mod accesses;
mod additions;
mod begun;
mod candidates;
mod closing;
mod constants;
mod counted;
mod draft_rows;
mod drafts;
mod ends;
mod forms;
mod found_loop;
mod grounds;
mod loop_members;
mod loops;
mod paths;
mod pc_writers;
mod reach;
mod rules;
mod statement_text;
mod tallies;
mod ways;
mod word_actions;

pub use accesses::FoundAccess;
pub use additions::draft_on;
pub use closing::closed;
pub use drafts::{DraftParts, draft, find_lacking, find_parts};
pub use found_loop::FoundLoop;
pub use grounds::{Claims, Ground};
