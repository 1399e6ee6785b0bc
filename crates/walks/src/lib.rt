//! Definitions of walks along the edges of a graph, of walks that keep the bounds of loops, and of the
//! greatest cost of such walks, with their lemmas; and the limits of loops and costs. They are generic in
//! places, edges and loops, and no other code is here: the crates that find, print and check bounds share
//! these definitions alone.
#![tactic(auto)]

mod law;
mod limits;

pub use law::walk_limits;
pub use limits::{COST_LIMIT, MOST_INSTANCES, MOST_ROUNDS};
