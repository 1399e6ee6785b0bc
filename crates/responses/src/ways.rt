//! The walks that first come to an address, over numbers of places: where each number lies for them, and the
//! greatest cost of one.

ghost use Rattle.std.specs.Prelude.{◌≡◌, ◌+◌, ◌<◌, ◌^◌, ◌↔◌, ◌⊎◌, ℕ, Bool, true, All, Contains, length};
ghost use Rattle.std.specs.Prelude.{[], ◌∷◌, ◌++◌, IfOk, IsTrue, MatchResult};
ghost use Rattle.std.specs.Option.{IfSome};
ghost use Rattle.walks.specs.declared.limits.TheConstants.{COST_LIMIT};
ghost use Rattle.numbered_walks.specs.Found.{AreFound, IsWalkFault};
ghost use Rattle.numbered_walks.specs.Index.{IsIndex, IsNumberedGraph, edge_at};
ghost use Rattle.numbered_walks.specs.Ordered.{IsOrdered};
ghost use Rattle.loop_bounds.specs.Tree.{IsTree};
ghost use Rattle.responses.specs.Arriving.{AreWays, IsReachedUp, IsGreatestThere, cut_edge, cut_edges};
ghost use Rattle.responses.specs.Arriving.{greater, is_before, is_reached, is_number_at, is_there, way_at};
ghost use Rattle.responses.specs.Response.{is_at};

use control_flow::{Graph, Place};
use loop_bounds::{LoopTree, place_in};
use numbered_walks::{
    Index, NumberedEdge, NumberedGraph, Span, Tables, WalkFault, find_tables, greatest_cost_to,
};
use std::alloc::{AllocError, Global};

/// Where the number of a place lies for the walks that come to the address at their end alone.
#[derive(Clone, Copy, Debug, PartialEq, Eq)]
pub(crate) enum Way {
    /// None of them comes to it.
    Apart,
    /// Some come to it, and it is not at the address.
    Before,
    /// Some come to it, and it is at the address.
    There,
}

impl Way {
    // Whether some of the walks come to it.
    fn is_reached(self) -> bool
        ensures { result ≡ is_reached self }
    {
        match self {
            Way::Apart => false,
            Way::Before => true,
            Way::There => true,
        }
    }

    // Whether they go on from it.
    fn is_before(self) -> bool
        ensures { result ≡ is_before self }
    {
        match self {
            Way::Apart => false,
            Way::Before => true,
            Way::There => false,
        }
    }

    // Whether they end at it.
    fn is_there(self) -> bool
        ensures { result ≡ is_there self }
    {
        match self {
            Way::Apart => false,
            Way::Before => false,
            Way::There => true,
        }
    }
}

// Apart past the end.
fn way_at(ways: &[Way], number: usize) -> Way
    ensures { result ≡ way_at ways.now number }
{
    ways.get(number).copied().unwrap_or(Way::Apart)
}

pub(crate) fn is_at(address: u32, place: Place) -> bool
    ensures { result ≡ is_at address place }
{
    match place {
        Place::At(_, own) => own == address,
        Place::Exit => false,
    }
}

// Whether one of these edges begins where walks go on.
fn is_entered(edges: &[NumberedEdge], group: &[usize], ways: &[Way]) -> bool
    requires { All (λ k. k < length edges.now) group.now }
    ensures { IsTrue result ↔ (k : ℕ) × Contains group.now k
        × (is_before (way_at ways.now (edge_at edges.now k).from) ≡ true) }
{
    for k in group {
        if way_at(ways, edges[*k].from).is_before() {
            return true;
        }
    }
    false
}

// Whether a walk comes to the number after those whose ways are known.
fn is_next_reached(graph: NumberedGraph<'_>, ways: &[Way]) -> bool
    requires graph { IsNumberedGraph graph }
    requires known { length ways.now < graph.exit }
    ensures { IsTrue result
        ↔ (length ways.now ≡ 0) ⊎ IsReachedUp graph.entry.edges.now ways.now (length ways.now) }
{
    let number = ways.len();
    if number == 0 {
        return true;
    }
    is_entered(graph.edges, &graph.index.entering[number], ways)
}

// The way of that number; `there`: its place is at the address.
fn next_way(graph: NumberedGraph<'_>, ways: &[Way], there: bool) -> Way
    requires graph { IsNumberedGraph graph }
    requires known { length ways.now < graph.exit }
    ensures { (at : ℕ → Bool) → at (length ways.now) ≡ there
        → AreWays graph.entry.edges.now at (length ways.now) ways.now
        → AreWays graph.entry.edges.now at (length ways.now + 1) (ways.now ++ result ∷ []) }
{
    if !is_next_reached(graph, ways) {
        return Way::Apart;
    }
    if there {
        return Way::There;
    }
    Way::Before
}

// The ways of all numbers.
fn find_ways(
    alloc: Global,
    graph: &Graph,
    tree: &LoopTree,
    index: &Index,
    address: u32,
) -> Result<Vec<Way>, AllocError>
    requires tree { IsTree graph.now tree.now }
    requires index { IsIndex (length graph.now.places) tree.now.edges tree.now.spans index.now }
    ensures { IfOk result (λ ways. AreWays tree.now.edges (is_number_at graph.now tree.now address)
        (length graph.now.places) ways.items) }
{
    let exit = graph.places().len();
    let numbered = NumberedGraph {
        edges: tree.edges(),
        spans: tree.spans(),
        exit,
        index,
    };
    let mut ways = Vec::with_capacity(alloc, exit)?;
    for number in 0..exit {
        let there = is_at(address, place_in(graph, tree, number));
        let way = next_way(numbered, &ways, there);
        ways.push(way)?;
    }
    Ok(ways)
}

// The ways of all numbers, by an index of the graph's edges.
pub(crate) fn ways_of(
    alloc: Global,
    graph: &Graph,
    tree: &LoopTree,
    address: u32,
) -> Result<Vec<Way>, AllocError>
    requires { IsTree graph.now tree.now }
    ensures { IfOk result (λ ways. AreWays tree.now.edges (is_number_at graph.now tree.now address)
        (length graph.now.places) ways.items) }
{
    let index = Index::of(alloc, tree.edges(), tree.spans(), graph.places().len())?;
    find_ways(alloc, graph, tree, &index, address)
}

// The edge, or one to Exit at no cost where it leads to where walks come, from where none goes on.
fn cut_edge(exit: usize, ways: &[Way], edge: &NumberedEdge) -> NumberedEdge
    ensures { result ≡ cut_edge exit ways.now edge.now }
{
    if way_at(ways, edge.to).is_reached() {
        if !way_at(ways, edge.from).is_before() {
            return NumberedEdge {
                from: edge.from,
                to: exit,
                cost: 0,
            };
        }
    }
    *edge
}

pub(crate) fn cut_edges(
    alloc: Global,
    exit: usize,
    ways: &[Way],
    edges: &[NumberedEdge],
) -> Result<Vec<NumberedEdge>, AllocError>
    ensures { IfOk result (λ cut. cut.items ≡ cut_edges exit ways.now edges.now) }
{
    let mut cut = Vec::with_capacity(alloc, edges.len())?;
    for edge in edges {
        cut.push(cut_edge(exit, ways, edge))?;
    }
    Ok(cut)
}

// The greatest cost of a walk to a number where walks end.
fn greatest_there(graph: NumberedGraph<'_>, tables: &Tables, ways: &[Way]) -> Option<u64>
    requires graph { IsNumberedGraph graph }
    requires found { AreFound graph.exit graph.edges.now graph.spans.now tables.now }
    requires known { length ways.now ≡ graph.exit }
    ensures { IsGreatestThere graph.entry.edges.now graph.entry.spans.now ways.now (length ways.now) result }
{
    let mut greatest = None;
    for number in 0..ways.len() {
        if way_at(ways, number).is_there() {
            let ticks = greatest_cost_to(graph, tables, number);
            greatest = greater(greatest, ticks);
        }
    }
    greatest
}

// The greater of the two, or the one.
fn greater(greatest: Option<u64>, ticks: u64) -> Option<u64>
    ensures { result ≡ greater greatest ticks }
{
    match greatest {
        None => Some(ticks),
        Some(other) => Some(other.max(ticks)),
    }
}

// The greatest cost of a walk along these edges to a number where walks end.
pub(crate) fn greatest_along(
    alloc: Global,
    edges: &[NumberedEdge],
    spans: &[Span],
    ways: &[Way],
) -> Result<Option<u64>, WalkFault>
    requires ordered { IsOrdered (length ways.now) edges.now spans.now }
    requires small { length ways.now < 2 ^ 32 }
    ensures { MatchResult result
        (λ greatest. IsGreatestThere edges.now spans.now ways.now (length ways.now) greatest
        × IfSome greatest (λ ticks. ticks < COST_LIMIT))
        (IsWalkFault (length ways.now) edges.now spans.now) }
{
    let exit = ways.len();
    let index = Index::of(alloc, edges, spans, exit)?;
    let graph = NumberedGraph {
        edges,
        spans,
        exit,
        index: &index,
    };
    let tables = find_tables(alloc, graph)?;
    Ok(greatest_there(graph, &tables, ways))
}
