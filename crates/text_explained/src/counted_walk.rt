//! A greatest walk with what was counted of it once, for all that tells of it.

ghost use Rattle.longest_walk.specs.Folded.{unfolded};
ghost use Rattle.walk_counts.specs.Counts.{AreCounts};

use longest_walk::Longest;
use loop_bounds::Handler;

/// A greatest walk of a handler's graph, and how often it takes each edge.
#[derive(Clone, Copy)]
pub struct CountedWalk<'w, 'a> {
    pub handler: &'w Handler<'a>,
    pub longest: &'w Longest,
    /// By the numbers of the graph's edges, as [`edge_counts`](walk_counts::edge_counts) has them.
    pub counts: &'w [u64],
    pub ghost counted: { AreCounts handler.now.graph.edges (unfolded longest.now.walk) counts.now },
}
