//! The numbers of the places where a mask is set, for walks that turn no loop since.

ghost use Rattle.std.specs.Prelude.{◌≡◌, ◌<◌, ◌↔◌, ℕ, All, Contains, IfOk, IsTrue, length, map, true};
ghost use Rattle.numbered_walks.specs.Index.{IsNumberedGraph};
ghost use Rattle.text_masked.specs.Held.{AreHeld, carries, flag_at, is_set_after, marked_at};

use crate::marked::MarkedEdge;
use crate::shown::Shown;
use numbered_walks::NumberedGraph;
use std::alloc::{AllocError, Global};

/// The answer for a number; false past the end.
pub(crate) fn flag_at(flags: &[bool], number: usize) -> bool
    ensures { result ≡ flag_at flags.now number }
{
    flags.get(number).copied().unwrap_or(false)
}

// Whether it is set after a word, by whether it is before.
fn is_set_after(before: bool, shown: Shown) -> bool
    ensures { result ≡ is_set_after before shown }
{
    match shown {
        Shown::Sets => true,
        Shown::Clears => false,
        Shown::Nothing => before,
    }
}

/// Whether the mask is set after the edge.
pub(crate) fn carries(held: &[bool], marked: &MarkedEdge) -> bool
    ensures { result ≡ carries held.now marked.now }
{
    is_set_after(flag_at(held, marked.edge.from), marked.shown)
}

// Whether the mask is set after one of these edges.
fn is_carried(marked: &[MarkedEdge], group: &[usize], held: &[bool]) -> bool
    requires { All (λ k. k < length marked.now) group.now }
    ensures { IsTrue result ↔ (k : ℕ) × Contains group.now k
        × (carries held.now (marked_at marked.now k) ≡ true) }
{
    for k in group {
        if carries(held, &marked[*k]) {
            return true;
        }
    }
    false
}

/// Whether the mask is set at each number before Exit, by the edges of a graph and what they show.
///
/// # Errors
///
/// An allocation failed.
pub(crate) fn find_held(
    alloc: Global,
    marked: &[MarkedEdge],
    graph: NumberedGraph<'_>,
) -> Result<Vec<bool>, AllocError>
    requires graph { IsNumberedGraph graph }
    requires marked { map (λ m. m.edge) marked.now ≡ graph.edges.now }
    ensures { IfOk result (λ held. AreHeld marked.now graph.entry.exit held.items) }
{
    let mut held = Vec::with_capacity(alloc, graph.exit)?;
    for number in 0..graph.exit {
        let is = is_carried(marked, &graph.index.entering[number], &held);
        held.push(is)?;
    }
    Ok(held)
}
