use crate::rows::Potentials;
use bus_ticks::Profile;
use control_flow::Edge;
use numbered_walks::ItemList;
use std::rc::Rc;

/// A part of a folded walk.
#[derive(Drop)]
pub enum Item {
    /// One edge.
    Step(Edge),
    /// A walk, so many times. Bodies that are the same share their memory.
    Repeat(u32, Rc<Vec<Item>>),
}

/// A walk written with repeats: a list of edges and of walks that are taken several times.
pub type FoldedWalk = ItemList<Item>;

/// The greatest cost of a complete walk that keeps the loop bounds, such a walk, and the numbers that prove
/// it greatest.
#[derive(Drop)]
pub struct Longest {
    /// The greatest cost, in ticks, below 2^63.
    pub bound: u64,
    /// A walk of that cost.
    pub walk: FoldedWalk,
    /// The least numbers that meet the rows of all edges.
    pub potentials: Potentials,
    /// The prices of the graph's costs.
    pub profile: Profile,
}
