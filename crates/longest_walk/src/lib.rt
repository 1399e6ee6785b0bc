//! The greatest cost of a complete walk through a handler's flow graph that keeps the loop bounds, such a
//! walk, written with repeats, and the least numbers by which a checker sees that none costs more.
#![tactic(auto)]

mod builder;
mod folded;
mod greatest;
mod listing;
mod rounds;
mod rows;
mod starts;
mod trace;
mod visits;

pub use folded::{FoldedWalk, Item, Longest};
pub use greatest::longest;
pub use numbered_walks::{ItemList, WalkFault};
pub use rows::{InstanceRow, PlaceRow, Potentials};
pub use starts::worst_starts;
pub use visits::visits_bound;
