//! Which edge of a place a step takes.

ghost use Rattle.std.specs.Prelude.{◌↔◌, ◌<◌, length, IsTrue, MatchOption};
ghost use Rattle.control_flow.specs.Places.{place_at};
ghost use Rattle.flow_graph.specs.StepLaw.{IsPlaceOf};
ghost use Rattle.kept_runs.specs.Edges.{HasNoEdge, IsFound, IsMet};

use bus_ticks::Class;
use control_flow::{Edge, Graph, Label, Place};
use walk_counts::is_same_label;

/// Where a step goes: by which label, and to which address.
#[derive(Clone, Copy)]
pub(crate) struct Going {
    pub(crate) label: Label,
    /// In bytes, below 2^26.
    pub(crate) to: u32,
    /// The class of the addresses to which the handler leaves.
    pub(crate) leave: Class,
}

fn is_place_of(place: &Place, going: Going) -> bool
    ensures { IsTrue result ↔ IsPlaceOf going.leave going.to place.now }
{
    match place {
        Place::At(_, address) => *address == going.to,
        Place::Exit => going.leave.is_of(going.to),
    }
}

fn is_met(edge: &Edge, going: Going) -> bool
    ensures { IsTrue result ↔ IsMet going edge.now }
{
    is_same_label(edge.label, going.label) && is_place_of(&edge.to, going)
}

/// An edge of the place by the label and to the address, by its index in the graph's edges. It takes time
/// linear in the edges of the place.
pub(crate) fn edge_taken(graph: &Graph, place: usize, going: Going) -> Option<usize>
    requires { place < length graph.now.places }
    ensures { MatchOption result (HasNoEdge graph.now (place_at graph.now.places place) going)
        (IsFound graph.now (place_at graph.now.places place) going) }
{
    let (first, end) = graph.edge_range(place);
    for edge in first..end {
        if is_met(&graph.edges()[edge], going) {
            return Some(edge);
        }
    }
    None
}
