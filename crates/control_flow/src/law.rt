ghost use Rattle.std.specs.Prelude.{◌≡◌};
ghost use Rattle.control_flow.specs.Flow.{IsWellFormed};
ghost use Rattle.control_flow.specs.Places.{place_cmp};

use crate::call_list::MOST_CALLS;
use crate::graph::Graph;
use crate::places::Place;
use crate::search::MOST_PLACES;

/// States the order of places; it does nothing.
pub fn order_of_places()
    ensures { (x y : Place) → ⟦<Place as Ord>⟧.cmp x y ≡ place_cmp x y }
{}

/// States how many places a graph has at most besides Exit, 16,384, and how many calls a place is inside of
/// at most: 8. It does nothing.
pub fn place_limits()
    ensures places { MOST_PLACES ≡ 16384 }
    ensures calls { MOST_CALLS ≡ 8 }
{}

/// States that each graph is well formed: its places ascend, and the edges of each lead on to its places. It
/// does nothing.
pub fn graphs_are_well_formed(graph: &Graph)
    ensures { IsWellFormed graph.now }
{
    let _places = graph.places();
}
