//! Loops that no run leaves while it keeps the bounds of all loops.

ghost use Rattle.std.specs.Prelude.{◌≡◌, ◌<◌, ◌++◌, ◌∷◌, [], ℕ, Bool, List, length, true};
ghost use Rattle.std.specs.Prelude.{IfOk, IfSome, IsTrue, OnOk};
ghost use Rattle.control_flow.specs.Flow.{Flow};
ghost use Rattle.control_flow.specs.Graph.{IsFlowGraph};
ghost use Rattle.image.specs.Image.{Words};
ghost use Rattle.loop_bounds.specs.Handler.{HasItsTree};
ghost use Rattle.loop_bounds.specs.Instance.{Instance};
ghost use Rattle.loop_bounds.specs.Tree.{IsTree};
ghost use Rattle.numbered_walks.specs.Index.{edge_at, span_at};
ghost use Rattle.numbered_walks.specs.Ordered.{is_in};
ghost use Rattle.statement.specs.Stated.{Stated};
ghost use Rattle.known_places.specs.Endless.{AreEndless, EdgeNeverTaken, IsClosed, IsEndless};
ghost use Rattle.known_places.specs.Endless.{NeverGoesWithin, NoneKeptEnters, NoneKeptLeaves};
ghost use Rattle.known_places.specs.Endless.{StaysInSpan, endless_at};

use crate::around::Around;
use crate::limits::limited;
use crate::loops::Table;
use crate::table::holds_along;
use crate::word::never_goes;
use control_flow::{Edge, Label, Place, graphs_are_well_formed};
use known_words::{Given, Knowledge};
use loop_bounds::{Handler, edge_range_in};
use numbered_walks::{NumberedEdge, Span};
use std::alloc::{AllocError, Global};
use walk_counts::is_in;

// Whether a word is seen never to go on as the label says, by what is known before it after a walk that keeps
// the bounds of all loops.
fn never_goes_within(
    handler: &Handler<'_>,
    around: Around,
    known: &Knowledge,
    word: u32,
    label: Label,
) -> bool
    ensures { IsTrue result → NeverGoesWithin handler.now.tree.spans around word label known.now }
{
    let bounded = limited(handler.tree.spans(), around, known);
    never_goes(word, label, &bounded)
}

// Whether the word that an edge leaves is seen never to go along it.
fn edge_never_taken(
    handler: &Handler<'_>,
    table: &Table<'_>,
    edge: &Edge,
    numbered: NumberedEdge,
) -> bool
    ensures { IsTrue result → EdgeNeverTaken handler.now.image.now handler.now.tree.spans
        table.now.around.now table.now.known.now edge.now numbered }
{
    if table.known.len() <= numbered.from {
        return false;
    }
    if table.around.len() <= numbered.from {
        return false;
    }
    let Place::At(_, address) = edge.from else {
        return false;
    };
    let Some(word) = handler.image.word_at(address) else {
        return false;
    };
    let around = table.around[numbered.from];
    let known = &table.known[numbered.from];
    never_goes_within(handler, around, known, word, edge.label)
}

// Whether the edge of a number stays in a span, or is seen never to be taken.
fn stays_in_span(handler: &Handler<'_>, table: &Table<'_>, span: &Span, number: usize) -> bool
    requires tree { IsTree handler.now.graph handler.now.tree }
    requires known { number < length handler.now.graph.edges }
    ensures { IsTrue result → StaysInSpan handler.now.image.now handler.now.graph handler.now.tree
        table.now.around.now table.now.known.now span.now number }
{
    let numbered = handler.tree.edges()[number];
    if is_in(span, numbered.to) {
        return true;
    }
    edge_never_taken(handler, table, &handler.graph.edges()[number], numbered)
}

// Of all edges that leave the place of a number.
fn stay_in_span(handler: &Handler<'_>, table: &Table<'_>, span: &Span, place: usize) -> bool
    requires tree { IsTree handler.now.graph handler.now.tree }
    requires known { place < length handler.now.graph.places }
    ensures { IsTrue result → (k : ℕ) → k < length handler.now.graph.edges
        → (edge_at handler.now.tree.edges k).from ≡ place
        → StaysInSpan handler.now.image.now handler.now.graph handler.now.tree table.now.around.now
        table.now.known.now span.now k }
{
    let (first, end) = edge_range_in(&handler.graph, &handler.tree, place);
    for number in first..end {
        if !stays_in_span(handler, table, span, number) {
            return false;
        }
    }
    true
}

// Of all edges from its numbers.
fn is_closed(handler: &Handler<'_>, table: &Table<'_>, span: &Span) -> bool
    requires tree { IsTree handler.now.graph handler.now.tree }
    ensures { IsTrue result → IsClosed handler.now.image.now handler.now.graph handler.now.tree
        table.now.around.now table.now.known.now span.now }
{
    for place in span.header..handler.graph.places().len() {
        if span.last < place {
            return true;
        }
        if !stay_in_span(handler, table, span, place) {
            return false;
        }
    }
    true
}

// Adds whether that is seen of the span of a number.
fn put_closed(
    found: &mut Vec<bool>,
    handler: &Handler<'_>,
    table: &Table<'_>,
    number: usize,
) -> Result<(), AllocError>
    requires tree { IsTree handler.now.graph handler.now.tree }
    requires known { number < length handler.now.tree.spans }
    ensures { OnOk result ((closed : Bool) × (found.new.items ≡ found.old.items ++ closed ∷ [])
        × (IsTrue closed → IsClosed handler.entry.now.image.now handler.entry.now.graph
        handler.entry.now.tree table.entry.now.around.now table.entry.now.known.now
        (span_at handler.entry.now.tree.spans number))) }
{
    let closed = is_closed(handler, table, &handler.tree.spans()[number]);
    found.push(closed)?;
    Ok(())
}

fn all_closed(
    alloc: Global,
    handler: &Handler<'_>,
    table: &Table<'_>,
) -> Result<Vec<bool>, AllocError>
    requires { IsTree handler.now.graph handler.now.tree }
    ensures { IfOk result (λ found. (number : ℕ) → number < length handler.now.tree.spans
        → IsTrue (endless_at found.items number) → IsClosed handler.now.image.now handler.now.graph
        handler.now.tree table.now.around.now table.now.known.now
        (span_at handler.now.tree.spans number)) }
{
    let mut found = Vec::new(alloc);
    for number in 0..handler.tree.spans().len() {
        put_closed(&mut found, handler, table, number)?;
    }
    Ok(found)
}

/// Which instances of the loops no run leaves, by facts on registers before the first step and by a table of
/// what is known of the registers before each place's word, by the numbers of the places; the answer is by
/// those of the instances. Where it says yes, no run from the entry that starts as the facts say, keeps the
/// bounds of all loops, and so far keeps the statement step by step but for its classes, goes on out of the
/// instance: within the stated bounds each way out of it is seen to be closed, or there is none. None where
/// the table is not seen to hold along each edge, as in `left_on_trust`.
///
/// It takes time linear in the edges, the facts and the loops, and in the places of each loop and their
/// edges.
///
/// # Errors
///
/// An allocation failed.
pub fn endless_loops(
    alloc: Global,
    handler: &Handler<'_>,
    given: &[Given],
    table: &[Knowledge],
) -> Result<Option<Vec<bool>>, AllocError>
    requires graph { IsFlowGraph handler.now.image.now handler.now.statement handler.now.graph.profile
        handler.now.graph }
    requires tree { HasItsTree handler.now }
    ensures { IfOk result (λ found. IfSome found (λ list. AreEndless handler.now.image.now
        handler.now.statement handler.now.graph handler.now.tree given.now list.items)) }
{
    let Some(around) = holds_along(alloc, handler, given, table)? else {
        return Ok(None);
    };
    let known = Table {
        known: table,
        around: &around,
    };
    graphs_are_well_formed(&handler.graph);
    let found = all_closed(alloc, handler, &known)?;
    Ok(Some(found))
}

/// States that no run that keeps a statement and begins as given leaves an instance of which `endless_loops`
/// says yes, and that none that goes on to Exit comes there: so the handler's bound speaks of no run that
/// does. It does nothing.
pub fn endless_is_not_left()
    ensures leaves { (words : Words) → (st : Stated) → (flow : Flow) → (given : List Given)
        → (instance : Instance) → IsEndless words st flow given instance
        → NoneKeptLeaves words st flow given instance }
    ensures enters { (words : Words) → (st : Stated) → (flow : Flow) → (given : List Given)
        → (instance : Instance) → IsEndless words st flow given instance
        → NoneKeptEnters words st flow given instance }
{}
