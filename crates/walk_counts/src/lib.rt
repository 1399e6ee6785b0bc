//! How often a walk takes each edge of a flow graph, counted without unfolding the walk; and which instances
//! begin at and hold a number, by which the back edges of a walk's stays are counted.
#![tactic(auto)]

mod counting;
mod numbers;
mod spans;

pub use counting::{capped_product, capped_sum, edge_counts};
pub use numbers::is_same_label;
pub use spans::{headers, is_in};
