//! Runs of the machine against a handler's statement: whether each step is an edge of the flow graph, and the
//! walk of the run keeps the loop bounds.
//!
//! A run that keeps the statement is one of those that the greatest cost bounds.
#![tactic(auto)]

mod arriving;
mod edges;
mod following;
mod judging;
mod law;
mod reading;
mod stated_word;
mod stays;
mod tally;
mod transfers;
mod visited;

pub use arriving::arrive;
pub use following::{Followed, Unkept, follow};
pub use judging::{EdgeTaken, Stray, judge_step};
pub use law::one_kept_answer;
pub use tally::Passed;
pub use transfers::Access;
pub use visited::{VisitUnkept, VisitedHandlers, VisitedRun, follow_visited};
