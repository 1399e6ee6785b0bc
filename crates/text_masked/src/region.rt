//! The loops that turn while a mask is set, and the edges that count for how long it is.

ghost use Rattle.std.specs.Prelude.{◌≡◌, ◌+◌, ◌<◌, ◌↔◌, ◌&&◌, All, IfOk, IsTrue, List, length, map, not};
ghost use Rattle.std.specs.List.{list_any};
ghost use Rattle.numbered_walks.specs.Index.{AreHolders, is_up};
ghost use Rattle.numbered_walks.specs.Ordered.{is_in};
ghost use Rattle.numbered_walks.specs.declared.span.Span.{Span};
ghost use Rattle.text_masked.specs.Held.{AreTurned, EntersTurned, TurnsUnheld, charged, charged_from};
ghost use Rattle.text_masked.specs.Held.{enters_past, enters_turned, flag_at, free, free_from, held_edges};
ghost use Rattle.text_masked.specs.Held.{turned_spans, turns, turns_at, way_out};

use crate::held::{carries, flag_at};
use crate::marked::MarkedEdge;
use crate::shown::Shown;
use numbered_walks::{NumberedEdge, Span};
use std::alloc::{AllocError, Global};

fn is_up(edge: &NumberedEdge) -> bool
    ensures { result ≡ is_up edge.now }
{
    edge.from < edge.to
}

// Whether the mask is set after an edge that leads back.
fn turns(held: &[bool], marked: &MarkedEdge) -> bool
    ensures { result ≡ turns held.now marked.now }
{
    carries(held, marked) && !is_up(&marked.edge)
}

// Whether such an edge leads to a number that is not held.
fn is_turn_unheld(held: &[bool], marked: &MarkedEdge) -> bool
    ensures { result ≡ turns held.now marked.now && not (flag_at held.now marked.now.edge.to) }
{
    turns(held, marked) && !flag_at(held, marked.edge.to)
}

/// Whether an edge leads back to a number that is not held, while the mask is set.
pub(crate) fn turns_unheld(marked: &[MarkedEdge], held: &[bool]) -> bool
    ensures { IsTrue result ↔ TurnsUnheld marked.now held.now }
{
    marked.iter().any(|edge| is_turn_unheld(held, edge))
}

/// Whether an edge leads back to each number while the mask is set. `AllocError`: an allocation failed.
pub(crate) fn find_turned(
    alloc: Global,
    marked: &[MarkedEdge],
    held: &[bool],
    size: usize,
) -> Result<Vec<bool>, AllocError>
    requires { All (λ m. m.edge.to < size) marked.now }
    ensures { IfOk result (λ turned. AreTurned marked.now held.now size turned.items) }
{
    let mut turned = vec![in alloc; false; size]?;
    for edge in marked {
        if turns(held, edge) {
            turned[edge.edge.to] = true;
        }
    }
    Ok(turned)
}

// Whether an edge that sets the mask leads into the span, and not to its header.
fn enters_past(span: &Span, marked: &MarkedEdge) -> bool
    ensures { result ≡ enters_past span.now marked.now }
{
    let to = marked.edge.to;
    marked.shown.is_set() && (span.header <= to && to <= span.last) && to != span.header
}

// Whether it does so where the header is turned.
fn enters_turned(turned: &[bool], span: &Span, marked: &MarkedEdge) -> bool
    ensures { result ≡ enters_turned turned.now span.now marked.now }
{
    flag_at(turned, span.header) && enters_past(span, marked)
}

// Whether it enters one of these spans so.
fn enters_one(turned: &[bool], spans: &[Span], marked: &MarkedEdge) -> bool
    ensures { result ≡ list_any (λ s. enters_turned turned.now s marked.now) spans.now }
{
    spans.iter().any(|span| enters_turned(turned, span, marked))
}

/// Whether an edge enters a span past its header that is turned, by the spans that hold each number.
pub(crate) fn enters_some_turned(
    marked: &[MarkedEdge],
    turned: &[bool],
    holders: &[Vec<Span>],
) -> bool
    requires known { All (λ m. m.edge.to < length holders.now) marked.now }
    ensures { (spans : List Span) → AreHolders spans holders.now
        → IsTrue result ↔ EntersTurned marked.now turned.now spans }
{
    for edge in marked {
        if enters_one(turned, &holders[edge.edge.to], edge) {
            return true;
        }
    }
    false
}

// To Exit at no cost.
fn way_out(exit: usize, from: usize) -> NumberedEdge
    ensures { result ≡ way_out exit from }
{
    NumberedEdge {
        from,
        to: exit,
        cost: 0,
    }
}

fn charged_from(exit: usize, edge: &NumberedEdge, shown: Shown) -> NumberedEdge
    ensures { result ≡ charged_from exit edge.now shown }
{
    match shown {
        Shown::Sets => *edge,
        Shown::Clears => NumberedEdge {
            from: edge.from,
            to: exit,
            cost: edge.cost,
        },
        Shown::Nothing => *edge,
    }
}

// The edge where the mask is set before it.
fn charged(exit: usize, held: &[bool], marked: &MarkedEdge) -> NumberedEdge
    ensures { result ≡ charged exit held.now marked.now }
{
    if flag_at(held, marked.edge.from) {
        charged_from(exit, &marked.edge, marked.shown)
    } else {
        way_out(exit, marked.edge.from)
    }
}

fn free_from(exit: usize, held: &[bool], edge: &NumberedEdge) -> NumberedEdge
    ensures { result ≡ free_from exit held.now edge.now }
{
    if is_up(edge) && !flag_at(held, edge.to) {
        NumberedEdge {
            from: edge.from,
            to: edge.to,
            cost: 0,
        }
    } else {
        way_out(exit, edge.from)
    }
}

// The edge where it is not.
fn free(exit: usize, held: &[bool], marked: &MarkedEdge) -> NumberedEdge
    ensures { result ≡ free exit held.now marked.now }
{
    if marked.shown.is_set() {
        NumberedEdge {
            from: 0,
            to: marked.edge.to,
            cost: 0,
        }
    } else {
        free_from(exit, held, &marked.edge)
    }
}

fn charged_edges(
    alloc: Global,
    exit: usize,
    held: &[bool],
    marked: &[MarkedEdge],
) -> Result<Vec<NumberedEdge>, AllocError>
    ensures { IfOk result (λ edges. edges.items ≡ map (charged exit held.now) marked.now) }
{
    marked
        .iter()
        .map(|edge| charged(exit, held, edge))
        .collect(alloc)
}

fn free_edges(
    alloc: Global,
    exit: usize,
    held: &[bool],
    marked: &[MarkedEdge],
) -> Result<Vec<NumberedEdge>, AllocError>
    ensures { IfOk result (λ edges. edges.items ≡ map (free exit held.now) marked.now) }
{
    marked
        .iter()
        .map(|edge| free(exit, held, edge))
        .collect(alloc)
}

/// The edges that count. `AllocError`: an allocation failed.
pub(crate) fn held_edges(
    alloc: Global,
    exit: usize,
    held: &[bool],
    marked: &[MarkedEdge],
) -> Result<Vec<NumberedEdge>, AllocError>
    ensures { IfOk result (λ edges. edges.items ≡ held_edges exit held.now marked.now) }
{
    let mut edges = Vec::new(alloc);
    edges.push(way_out(exit, 0))?;
    let charged = charged_edges(alloc, exit, held, marked)?;
    edges.extend_from_slice(&charged)?;
    let free = free_edges(alloc, exit, held, marked)?;
    edges.extend_from_slice(&free)?;
    Ok(edges)
}

/// The spans that turn while the mask is set. `AllocError`: an allocation failed.
pub(crate) fn turned_spans(
    alloc: Global,
    turned: &[bool],
    spans: &[Span],
) -> Result<Vec<Span>, AllocError>
    ensures { IfOk result (λ held. held.items ≡ turned_spans turned.now spans.now) }
{
    spans
        .iter()
        .copied()
        .filter(|span| flag_at(turned, span.header))
        .collect(alloc)
}
