ghost use Rattle.std.specs.Prelude.{◌≡◌, ◌↔◌, ℕ, ◌+◌, ◌<◌, ◌≤◌, IfOk, IfErr, IsTrue, length};
ghost use Rattle.std.specs.Prelude.{slice_index, All, Option, None};
ghost use Rattle.std.specs.List.Sorted.{IsNonDecreasingBy};
ghost use Rattle.control_flow.specs.declared.search.TheConstants.{MOST_PLACES};
ghost use Rattle.loop_bounds.specs.Edges.{IsGrouped};
ghost use Rattle.loop_bounds.specs.Layout.{AreHeaders, AreHeights, ArePlain, AreRanks, HaveApartHeaders};
ghost use Rattle.loop_bounds.specs.Layout.{IsBack, IsRankFault};

use crate::extents::Extent;
use crate::fault::NestFault;
use crate::order::find_order;
use numbered_walks::NumberedEdge;
use std::alloc::{AllocError, Global};

// For each node the extent whose header it is.
fn headers(
    alloc: Global,
    extents: &[Extent],
    nodes: usize,
) -> Result<Vec<Option<usize>>, AllocError>
    requires { All (λ s. s.header < nodes) extents.now }
    ensures { IfOk result (λ headers. AreHeaders extents.now (length extents.now) nodes headers.items) }
{
    let mut headers = vec![in alloc; None; nodes]?;
    for (k, extent) in extents.iter().enumerate() {
        headers[extent.header] = Some(k);
    }
    Ok(headers)
}

// Whether the edge leads from a member of an extent to its header.
fn is_back(extents: &[Extent], headers: &[Option<usize>], edge: &NumberedEdge) -> bool
    requires inside { edge.now.to < length headers.now }
    requires headers { AreHeaders extents.now (length extents.now) (length headers.now) headers.now }
    requires apart { HaveApartHeaders extents.now }
    ensures { IsTrue result ↔ IsBack extents.now edge.now }
{
    match headers[edge.to] {
        Some(k) => extents[k].holds(edge.from),
        None => false,
    }
}

// The edges that are no back edges, ascending by the node that they leave.
fn plain_edges(
    alloc: Global,
    extents: &[Extent],
    edges: &[NumberedEdge],
    nodes: usize,
) -> Result<Vec<NumberedEdge>, AllocError>
    requires headers { All (λ s. s.header < nodes) extents.now }
    requires apart { HaveApartHeaders extents.now }
    requires inside { All (λ e. e.to < nodes) edges.now }
    ensures plain { IfOk result (λ plain. ArePlain extents.now edges.now plain.items) }
    ensures ascending { IfOk result (λ plain. IsNonDecreasingBy (λ e. e.from) plain.items) }
{
    let headers = headers(alloc, extents, nodes)?;
    let mut plain = Vec::new(alloc);
    for edge in edges {
        if !is_back(extents, &headers, edge) {
            plain.push(*edge)?;
        }
    }
    plain.sort_unstable_by_key(|edge| edge.from);
    Ok(plain)
}

// Where the edges of each node begin, and at the end the number of edges.
fn firsts_of(alloc: Global, edges: &[NumberedEdge], exit: usize) -> Result<Vec<usize>, AllocError>
    requires ascending { IsNonDecreasingBy (λ e. e.from) edges.now }
    requires inside { All (λ e. (e.from < exit) × (e.to ≤ exit)) edges.now }
    requires most { exit ≤ MOST_PLACES }
    ensures grouped { IfOk result (λ firsts. IsGrouped firsts.items edges.now) }
    ensures nodes { IfOk result (λ firsts. length firsts.items ≡ exit + 1) }
{
    let mut firsts = Vec::with_capacity(alloc, exit + 1)?;
    for node in 0..exit + 1 {
        firsts.push(edges.partition_point(|edge| edge.from < node))?;
    }
    Ok(firsts)
}

// For each node how many come after it in the order, and itself.
fn heights(alloc: Global, order: &[usize], nodes: usize) -> Result<Vec<usize>, AllocError>
    requires inside { (k : ℕ) → k < length order.now → slice_index order.now k < nodes }
    requires once { (j k : ℕ) → k < j → j < length order.now
        → slice_index order.now k ≡ slice_index order.now j → ⊥ }
    ensures { IfOk result (λ heights. AreHeights order.now heights.items nodes (length order.now)) }
{
    let mut heights = vec![in alloc; 0; nodes]?;
    for (k, node) in order.iter().enumerate() {
        heights[*node] = order.len() - k;
    }
    Ok(heights)
}

/// Ranks of the nodes, which rise along each edge that is no back edge.
pub(crate) fn ranks(
    alloc: Global,
    extents: &[Extent],
    edges: &[NumberedEdge],
    exit: usize,
) -> Result<Vec<usize>, NestFault>
    requires headers { All (λ s. s.header < exit) extents.now }
    requires apart { HaveApartHeaders extents.now }
    requires inside { All (λ e. (e.from < exit) × (e.to ≤ exit)) edges.now }
    requires most { exit ≤ MOST_PLACES }
    ensures ranks { IfOk result (λ ranks. AreRanks exit edges.now extents.now ranks.items) }
    ensures fault { IfErr result (IsRankFault edges.now extents.now) }
{
    let plain = plain_edges(alloc, extents, edges, exit + 1)?;
    let firsts = firsts_of(alloc, &plain, exit)?;
    let order = find_order(alloc, &firsts, &plain)?;
    Ok(heights(alloc, &order, exit + 1)?)
}
