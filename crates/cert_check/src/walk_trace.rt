ghost use Rattle.std.specs.Prelude.{◌≡◌, ◌<◌, ◌≤◌, ℕ, length, option_map, IfSome, MatchOption};
ghost use Rattle.loop_bounds.specs.Tree.{IsTree, place_in};
ghost use Rattle.longest_walk.specs.Built.{step_at};
ghost use Rattle.cert_check.specs.Followed.{edge_named, follow_edge, follow_item, followed};
ghost use Rattle.cert_check.specs.Followed.{is_named, leads_to};
ghost use Rattle.cert_check.specs.Walking.{Begins, CanFollow, CannotBegin, Follows};

use crate::index::Index;
use crate::indexed_tree::IndexedTree;
use crate::walker::{Round, Walker};
use certificate::{CertItem, StepLine, To};
use control_flow::{Edge, Graph, Place};
use loop_bounds::{LoopTree, edge_range_in};
use numbered_walks::Span;
use statement::MOST_ROUNDS;
use walk_counts::{is_in, is_same_label};

fn leads_to(place: &Place, named: To) -> bool
    ensures { result ≡ leads_to place.now named }
{
    match (place, named) {
        (Place::At(_, address), To::At(to)) => *address == to,
        (Place::Exit, To::Exit) => true,
        _ => false,
    }
}

// Whether the line names the edge, at the place that it leaves.
fn is_named(edge: &Edge, line: &StepLine) -> bool
    ensures { result ≡ is_named edge.now.from line.now edge.now }
{
    match edge.from {
        Place::At(_, address) => {
            address == line.address
                && is_same_label(edge.label, line.label)
                && leads_to(&edge.to, line.to)
                && u64::from(edge.cost) == line.cost
        }
        Place::Exit => false,
    }
}

// Which edge of the graph the line names at the place of the number.
fn named_edge(graph: &Graph, tree: &LoopTree, number: usize, line: &StepLine) -> Option<usize>
    requires tree { IsTree graph.now tree.now }
    requires known { number ≤ length graph.now.places }
    ensures found { option_map (step_at graph.now.edges) result
        ≡ edge_named graph.now (place_in graph.now tree.now number) line.now }
    ensures inside { IfSome result (λ k. k < length graph.now.edges) }
{
    if number == graph.places().len() {
        return None;
    }
    let (first, end) = edge_range_in(graph, tree, number);
    for edge in first..end {
        if is_named(&graph.edges()[edge], line) {
            return Some(edge);
        }
    }
    None
}

// Follows the edge that the line names, if there is one and it ends inside the span. No level is asked, as
// there is no repeat here.
fn follow_step(
    indexed: IndexedTree<'_>,
    within: &Span,
    walker: &mut Walker,
    line: &StepLine,
) -> bool
    requires { CanFollow indexed.graph.now indexed.tree.now indexed.index.now within.now walker.old }
    ensures { (levels : ℕ)
        → Follows indexed.entry.graph.now indexed.entry.tree.now indexed.entry.index.now within.now levels 1
        (λ p. option_map follow_edge (edge_named indexed.entry.graph.now p line.now))
        walker.old walker.new result }
{
    let Some(number) = named_edge(indexed.graph, indexed.tree, walker.number, line) else {
        return false;
    };
    let edge = indexed.tree.edges()[number];
    if !is_in(within, edge.to) {
        return false;
    }
    walker.take(&indexed.index.headers, &edge);
    true
}

// Where a repeat begins, if one may be here. Repeats are nested `levels` deep at most.
fn begin(
    index: &Index,
    walker: &Walker,
    levels: u32,
    count: u32,
    body: &[CertItem],
) -> Option<Round>
    requires known { walker.now.number < length index.now.headers.items }
    requires room { walker.now.number < length walker.now.turns.items }
    ensures { MatchOption result
        (CannotBegin index.now.headers.items walker.now levels count (length body.now))
        (Begins index.now.headers.items walker.now levels count (length body.now)) }
{
    if levels == 0 || count == 0 || count > MOST_ROUNDS || body.is_empty() {
        return None;
    }
    match index.headers[walker.number] {
        Some(span) => Some(Round {
            span,
            cost: walker.cost,
            turns: walker.turns[walker.number],
        }),
        None => None,
    }
}

/// Follows one item: a repeat's body once, inside the instance that begins where the walker is.
#[cycle(walk)]
pub(crate) fn follow_one(
    indexed: IndexedTree<'_>,
    within: &Span,
    levels: u32,
    walker: &mut Walker,
    item: &CertItem,
) -> bool
    requires { CanFollow indexed.graph.now indexed.tree.now indexed.index.now within.now walker.old }
    ensures { Follows indexed.entry.graph.now indexed.entry.tree.now indexed.entry.index.now within.now levels
        1 (follow_item indexed.entry.graph.now item.now) walker.old walker.new result }
{
    match item {
        CertItem::Step(line) => follow_step(indexed, within, walker, line),
        CertItem::Repeat(count, body) => {
            let Some(round) = begin(indexed.index, walker, levels, *count, body) else {
                return false;
            };
            if !follow_all(indexed, &round.span, levels - 1, walker, body) {
                return false;
            }
            if walker.number != round.span.header {
                return false;
            }
            walker.repeat(&indexed.index.headers, &round, *count);
            true
        }
    }
}

/// Follows the lines from where the walker is, inside the span and with repeats `levels` deep at most,
/// each repeat once: whether they are such a walk.
#[cycle(walk)]
pub(crate) fn follow_all(
    indexed: IndexedTree<'_>,
    within: &Span,
    levels: u32,
    walker: &mut Walker,
    items: &[CertItem],
) -> bool
    requires { CanFollow indexed.graph.now indexed.tree.now indexed.index.now within.now walker.old }
    ensures { Follows indexed.entry.graph.now indexed.entry.tree.now indexed.entry.index.now within.now levels
        (length items.now) (followed indexed.entry.graph.now items.now) walker.old walker.new result }
{
    for item in items {
        if !follow_one(indexed, within, levels, walker, item) {
            return false;
        }
    }
    true
}
