ghost use Rattle.std.specs.Prelude.{◌≡◌, ◌<◌, ◌≤◌, MatchOption, length};
ghost use Rattle.control_flow.specs.Places.{place_at};
ghost use Rattle.walk_counts.specs.Counts.{is_same_edge, is_same_label, number_of};

use control_flow::{Edge, Graph, Label};

/// Whether the two are one label.
pub fn is_same_label(label: Label, other: Label) -> bool
    ensures { result ≡ is_same_label label other }
{
    match (label, other) {
        (Label::Skip, Label::Skip) | (Label::Do, Label::Do) => true,
        _ => false,
    }
}

#[tactic(auto, using(crate::proofs::NumberLemmas::equal_is_same))]
fn is_same_edge(edge: &Edge, other: &Edge) -> bool
    ensures { result ≡ is_same_edge edge.now other.now }
{
    edge.from == other.from
        && is_same_label(edge.label, other.label)
        && edge.to == other.to
        && edge.cost == other.cost
}

// The number of an edge among those of the place with the number, which it leaves.
fn number_at(graph: &Graph, place: usize, edge: &Edge) -> Option<usize>
    requires known { place < length graph.now.places }
    requires leaves { place_at graph.now.places place ≡ edge.now.from }
    ensures { MatchOption result (length graph.now.edges ≤ number_of graph.now.edges edge.now)
        (λ k. (k ≡ number_of graph.now.edges edge.now) × (k < length graph.now.edges)) }
{
    let (first, end) = graph.edge_range(place);
    for number in first..end {
        if is_same_edge(edge, &graph.edges()[number]) {
            return Some(number);
        }
    }
    None
}

/// The number of an edge among the graph's edges, if it is one of them: the first of them that is the same.
pub(crate) fn edge_number(graph: &Graph, edge: &Edge) -> Option<usize>
    ensures { MatchOption result (length graph.now.edges ≤ number_of graph.now.edges edge.now)
        (λ k. (k ≡ number_of graph.now.edges edge.now) × (k < length graph.now.edges)) }
{
    match graph.places().binary_search(&edge.from) {
        Ok(place) => number_at(graph, place, edge),
        Err(_) => None,
    }
}
