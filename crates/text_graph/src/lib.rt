//! The flow graph of a handler as a drawing in DOT, the language of Graphviz, with what a greatest walk
//! takes: a node for each straight stretch, inside the clusters of its calls and loops, and the edges between
//! them.
#![tactic(auto)]

mod clusters;
mod document;
mod drawn_edges;
mod extent;
mod labels;
mod law;
mod loops;
mod nodes;
mod pieces;
mod stretches;
mod tables;

pub use document::drawing;
pub use extent::{Extent, is_drawn};
pub use law::{node_ticks_are_the_bound, nodes_are_stretches_of_the_graph, places_are_drawn_once};
pub use pieces::share_fill;
