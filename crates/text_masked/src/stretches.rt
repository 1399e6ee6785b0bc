//! How long a mask is set at a time.

ghost use Rattle.std.specs.Prelude.{◌≡◌, ◌+◌, ◌<◌, ◌^◌, Contains, IfOk, map};
ghost use Rattle.numbered_walks.specs.Found.{AreFound};
ghost use Rattle.numbered_walks.specs.Index.{IsNumberedGraph};
ghost use Rattle.numbered_walks.specs.Ordered.{IsOrdered};
ghost use Rattle.loop_bounds.specs.Handler.{HasItsTree};
ghost use Rattle.text_masked.specs.Held.{IsCounted, IsGreatestOfAll};
ghost use Rattle.text_masked.specs.Held.{IsTimeBy, way_out};
ghost use Rattle.text_masked.specs.Masked.{IsMaskedTime};

use crate::held::find_held;
use crate::marked::{MarkedEdge, marked_edges};
use crate::region::{enters_some_turned, find_turned, held_edges, turned_spans, turns_unheld};
use crate::shown::Mask;
use loop_bounds::Handler;
use numbered_walks::{
    Index, NumberedEdge, NumberedGraph, Span, Tables, WalkFault, find_tables, greatest_cost_to,
};
use std::alloc::{AllocError, Global};

/// How long a mask is set at a time, in ticks.
#[derive(Clone, Copy, Debug, PartialEq, Eq)]
pub(crate) enum MaskedTime {
    /// At most so many.
    AtMost(u64),
    /// Maybe 2^63 or more.
    TooLong,
    /// A loop that is entered on the way goes on meanwhile, and no number is found.
    GoesRound,
}

// The greatest cost of a walk to any number.
fn greatest_of_all(graph: NumberedGraph<'_>, tables: &Tables) -> u64
    requires graph { IsNumberedGraph graph }
    requires found { AreFound graph.exit graph.edges.now graph.spans.now tables.now }
    ensures { IsGreatestOfAll graph.entry.edges.now graph.entry.spans.now (graph.entry.exit + 1) result }
{
    let mut greatest = greatest_cost_to(graph, tables, 0);
    for number in 1..graph.exit + 1 {
        greatest = greatest.max(greatest_cost_to(graph, tables, number));
    }
    greatest
}

// The time by the edges that count, of which the first leads out.
fn time_along(
    alloc: Global,
    edges: &[NumberedEdge],
    spans: &[Span],
    exit: usize,
) -> Result<MaskedTime, AllocError>
    requires ordered { IsOrdered exit edges.now spans.now }
    requires small { exit + 1 < 2 ^ 32 }
    requires leads_out { Contains edges.now (way_out exit 0) }
    ensures { IfOk result (IsCounted exit edges.now spans.now) }
{
    let index = Index::of(alloc, edges, spans, exit)?;
    let graph = NumberedGraph {
        edges,
        spans,
        exit,
        index: &index,
    };
    match find_tables(alloc, graph) {
        Ok(tables) => Ok(MaskedTime::AtMost(greatest_of_all(graph, &tables))),
        Err(WalkFault::Memory) => Err(AllocError),
        Err(WalkFault::BoundTooLarge) => Ok(MaskedTime::TooLong),
        // The edge that leads out is such a walk.
        Err(WalkFault::NoCompleteWalk) => Ok(MaskedTime::TooLong),
    }
}

// The time by a graph, and what its edges show.
fn time_of(
    alloc: Global,
    marked: &[MarkedEdge],
    graph: NumberedGraph<'_>,
) -> Result<MaskedTime, AllocError>
    requires graph { IsNumberedGraph graph }
    requires small { graph.exit + 1 < 2 ^ 32 }
    requires marked { map (λ m. m.edge) marked.now ≡ graph.edges.now }
    ensures { IfOk result (IsTimeBy graph.entry.exit marked.now graph.entry.spans.now) }
{
    let exit = graph.exit;
    let held = find_held(alloc, marked, graph)?;
    let turned = find_turned(alloc, marked, &held, exit + 1)?;
    if turns_unheld(marked, &held) {
        return Ok(MaskedTime::GoesRound);
    }
    if enters_some_turned(marked, &turned, &graph.index.holders) {
        return Ok(MaskedTime::GoesRound);
    }
    let edges = held_edges(alloc, exit, &held, marked)?;
    let spans = turned_spans(alloc, &turned, graph.spans)?;
    time_along(alloc, &edges, &spans, exit)
}

/// How long, at most, the handler's own words set the mask at a time, in time linear in the edges and places,
/// times the nesting of loops.
///
/// # Errors
///
/// An allocation failed.
pub(crate) fn masked_time(
    alloc: Global,
    handler: &Handler<'_>,
    mask: Mask,
) -> Result<MaskedTime, AllocError>
    requires { HasItsTree handler.now }
    ensures { IfOk result
        (IsMaskedTime handler.now.image.now handler.now.statement.loops handler.now.graph mask) }
{
    let tree = &handler.tree;
    let exit = handler.graph.places().len();
    let marked = marked_edges(alloc, handler.image, mask, &handler.graph, tree)?;
    let index = Index::of(alloc, tree.edges(), tree.spans(), exit)?;
    let graph = NumberedGraph {
        edges: tree.edges(),
        spans: tree.spans(),
        exit,
        index: &index,
    };
    time_of(alloc, &marked, graph)
}
