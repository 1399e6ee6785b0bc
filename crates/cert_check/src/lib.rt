//! The checker of certificates: whether the numbers and the walk of a certificate, whoever wrote it, prove
//! that its bound is the greatest cost of a complete walk that keeps the loop bounds.
//!
//! It shares types and definitions with the crates that find walks, and nothing of their search.
#![tactic(auto)]

mod about_place;
mod checking;
mod columns;
mod explaining;
mod failing;
mod failing_edge;
mod failing_presence;
mod failing_walk;
mod fault;
mod finding;
mod index;
mod indexed_tree;
mod law;
mod presence;
mod row_tests;
mod verdict;
mod walk_trace;
mod walker;
mod weighing;

pub use checking::check;
pub use explaining::failing_row;
pub use failing::{FailingRow, HeavyRow, objection_of, verdict_of};
pub use fault::CheckFault;
pub use law::{failing_row_refutes, longest_gets_yes, yes_means_greatest};
pub use verdict::{Objection, Verdict};
pub use walker::COST_CAP;
