//! The greatest cost of a walk along edges between numbers, in an order where each instance of a loop is an
//! interval: the potentials of all numbers and instances, found in one pass. Also the list type
//! of walks, rows and instances.
#![tactic(auto)]

mod fault;
mod graph;
mod groups;
mod holders;
mod index;
mod item_list;
mod pass;
mod potentials;
mod row;
mod span;
mod tables;
mod trace;

pub use fault::WalkFault;
pub use graph::NumberedGraph;
pub use index::Index;
pub use item_list::ItemList;
pub use potentials::{find_tables, greatest_cost_to};
pub use span::{NumberedEdge, Span};
pub use tables::Tables;
pub use trace::{entering_edge, turning_edge};
