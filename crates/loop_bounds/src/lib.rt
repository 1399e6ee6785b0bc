//! The loops of a handler's flow graph: the instances of its stated loops, each inside the smallest that
//! contains it, and an order of its places in which each instance is an interval. Loops that bound nothing
//! are refused.
//!
//! Places have four orders, each for what the others do not have:
//!
//! - index: the graph's, by calls and then by address. The certificate's rows have it too.
//! - position: by calls and address as one list, so that what an instance calls is among its own places.
//!   Its members are an interval (`Extent`), and the ends of two intervals show whether one holds the other.
//! - rank: it rises along every edge but the back edges. A depth-first search finds it, or a cycle that no
//!   loop bounds. The members of an instance may lie apart in it.
//! - number: by the ranks of the headers of a place's instances, the outermost first, and then its own rank.
//!   It rises as the rank does and each instance is an interval, as the search for the greatest walk needs.
#![tactic(auto)]

mod compare_pushed;
mod crossing;
mod extents;
mod fault;
mod handler;
mod handler_positions;
mod layout;
mod loop_instances;
mod members;
mod nested;
mod nesting;
mod numbering;
mod order;
mod parents;
mod ranks;
mod tree;

pub use fault::NestFault;
pub use handler::Handler;
pub use loop_instances::LoopInstance;
pub use members::is_back_edge_of;
pub use nested::{Instance, Instances};
pub use numbering::has_place;
pub use tree::{LoopTree, edge_range_in, nest, place_in};
pub use walks::MOST_INSTANCES;
