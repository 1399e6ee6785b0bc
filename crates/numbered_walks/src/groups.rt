ghost use Rattle.std.specs.Prelude.{◌≡◌, ◌↔◌, ◌+◌, ◌<◌, IsTrue, All, IfOk, length, Bool, List};
ghost use Rattle.numbered_walks.specs.Index.{AreGrouped, edge_at, is_up};
ghost use Rattle.numbered_walks.specs.declared.span.NumberedEdge.{NumberedEdge};

use crate::span::NumberedEdge;
use std::alloc::{AllocError, Global};

// Whether the edge leads up, where that is asked for, or does not, where that is.
fn is_of_side(edge: &NumberedEdge, up: bool) -> bool
    ensures { IsTrue result ↔ (is_up edge.now ≡ up) }
{
    let leads_up = edge.from < edge.to;
    if up { leads_up } else { !leads_up }
}

// As many empty groups.
fn empty_groups(alloc: Global, size: usize) -> Result<Vec<Vec<usize>>, AllocError>
    ensures { IfOk result
        (λ groups. (length groups.items ≡ size)
        × ((edges : List NumberedEdge) (up : Bool) → AreGrouped edges 0 up groups.items)) }
{
    let mut groups = Vec::with_capacity(alloc, size)?;
    for _ in 0..size {
        groups.push(Vec::new(alloc))?;
    }
    Ok(groups)
}

// Puts the edge of that place in the list into its group.
fn add_edge(
    groups: &mut Vec<Vec<usize>>,
    edges: &[NumberedEdge],
    number: usize,
) -> Result<(), AllocError>
    requires inside { number < length edges.now }
    requires known { (edge_at edges.now number).to < length groups.old.items }
    ensures length { length groups.new.items ≡ length groups.old.items }
    ensures added { IfOk result
        (λ _. (up : Bool) → is_up (edge_at edges.now number) ≡ up
        → AreGrouped edges.now number up groups.old.items
        → AreGrouped edges.now (number + 1) up groups.new.items) }
{
    groups[edges[number].to].push(number)?;
    Ok(())
}

// Puts the edge into its group if it is of the side.
fn add_seen(
    groups: &mut Vec<Vec<usize>>,
    edges: &[NumberedEdge],
    number: usize,
    up: bool,
) -> Result<(), AllocError>
    requires inside { number < length edges.now }
    requires known { (edge_at edges.now number).to < length groups.old.items }
    ensures length { length groups.new.items ≡ length groups.old.items }
    ensures added { IfOk result
        (λ _. AreGrouped edges.now number up groups.old.items
        → AreGrouped edges.now (number + 1) up groups.new.items) }
{
    if is_of_side(&edges[number], up) {
        add_edge(groups, edges, number)?;
        return Ok(());
    }
    Ok(())
}

/// The edges that lead up, or those that do not, by the number that they lead to.
pub(crate) fn grouped(
    alloc: Global,
    edges: &[NumberedEdge],
    size: usize,
    up: bool,
) -> Result<Vec<Vec<usize>>, AllocError>
    requires known { All (λ e. e.to < size) edges.now }
    ensures { IfOk result
        (λ groups. (length groups.items ≡ size) × AreGrouped edges.now (length edges.now) up groups.items) }
{
    let mut groups = empty_groups(alloc, size)?;
    for number in 0..edges.len() {
        add_seen(&mut groups, edges, number, up)?;
    }
    Ok(groups)
}
