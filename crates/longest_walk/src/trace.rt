ghost use Rattle.std.specs.Prelude.{◌≡◌, ◌<◌, ◌≤◌, true, Contains, IfOk, MatchOption, length, Option};
ghost use Rattle.numbered_walks.specs.Found.{IsEntering, IsTurning};
ghost use Rattle.numbered_walks.specs.Tables.{round_of};
ghost use Rattle.numbered_walks.specs.Reach.{InTree, holds_in, start_of};
ghost use Rattle.longest_walk.specs.Ways.{AreSearched, IsWay};

use control_flow::Graph;
use loop_bounds::LoopTree;
use numbered_walks::{Index, NumberedGraph, Span, Tables, entering_edge, turning_edge};
use std::alloc::{AllocError, Global};

/// A graph and the tree of its loops, whose edges and spans are found by number, with the numbers of its
/// greatest walk.
#[derive(Clone, Copy)]
pub(crate) struct Search<'a> {
    pub(crate) graph: &'a Graph,
    pub(crate) tree: &'a LoopTree,
    pub(crate) index: &'a Index,
    pub(crate) tables: &'a Tables,
}

// The tree's edges and spans, with their index.
fn numbered<'a>(search: Search<'a>) -> NumberedGraph<'a>
    ensures edges { result.edges.now ≡ search.entry.tree.now.edges }
    ensures spans { result.spans.now ≡ search.entry.tree.now.spans }
    ensures exit { result.exit ≡ length search.entry.graph.now.places }
    ensures index { result.index.now ≡ search.entry.index.now }
{
    NumberedGraph {
        edges: search.tree.edges(),
        spans: search.tree.spans(),
        exit: search.graph.places().len(),
        index: search.index,
    }
}

// The last edge of a greatest walk to the number.
fn last_edge(search: Search<'_>, number: usize) -> usize
    requires searched { AreSearched search.graph.now search.tree.now search.index.now search.tables.now }
    requires later { 0 < number }
    requires known { number ≤ length search.graph.now.places }
    ensures { IsEntering search.entry.tree.now.edges search.entry.tree.now.spans search.entry.tables.now
        number result }
{
    entering_edge(numbered(search), search.tables, number)
}

/// The last edge of a heaviest round of the span's instance; `None` where a stay takes no round.
pub(crate) fn last_turn(search: Search<'_>, span: &Span) -> Option<usize>
    requires searched { AreSearched search.graph.now search.tree.now search.index.now search.tables.now }
    requires known { Contains search.tree.now.spans span.now }
    ensures { MatchOption result (round_of search.entry.tables.now span.now ≡ 0)
        (IsTurning search.entry.tree.now.edges search.entry.tree.now.spans search.entry.tables.now span.now) }
{
    turning_edge(numbered(search), search.tables, span)
}

// Where the walks of a context begin: at the header of an instance, or at the entry.
fn start_of(context: Option<Span>) -> usize
    ensures { result ≡ start_of context }
{
    match context {
        Some(span) => span.header,
        None => 0,
    }
}

/// The edges of a greatest walk to the number from the start of the context, as their places in the list.
pub(crate) fn trace(
    alloc: Global,
    search: Search<'_>,
    context: Option<Span>,
    number: usize,
) -> Result<Vec<usize>, AllocError>
    requires searched { AreSearched search.graph.now search.tree.now search.index.now search.tables.now }
    requires context { InTree search.tree.now.spans context }
    requires inside { holds_in context number ≡ true }
    requires known { number ≤ length search.graph.now.places }
    ensures { IfOk result
        (λ way. IsWay search.entry.tree.now.edges search.entry.tree.now.spans search.entry.tables.now context
        (start_of context) way.items number) }
{
    let first = start_of(context);
    let mut way = Vec::new(alloc);
    let mut here = number;
    while here != first {
        let edge = last_edge(search, here);
        way.push(edge)?;
        here = search.tree.edges()[edge].from;
    }
    way.reverse();
    Ok(way)
}
