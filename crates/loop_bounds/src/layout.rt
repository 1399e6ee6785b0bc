ghost use Rattle.std.specs.Prelude.{◌≡◌, ℕ, ◌+◌, ◌<◌, ◌≤◌, IfOk, IfSome, All, Contains, EachIndex};
ghost use Rattle.std.specs.Prelude.{MatchOption, length, slice_index};
ghost use Rattle.std.specs.List.Sorted.{IsPermutation, IsStrictlySortedBy};
ghost use Rattle.control_flow.specs.Places.{place_cmp};
ghost use Rattle.loop_bounds.specs.InPositions.{HasKeys};
ghost use Rattle.loop_bounds.specs.Layout.{AreNumbers, IsLaidOut, ArePlaced, AreMoved};
ghost use Rattle.loop_bounds.specs.Layout.{IsShown, AreShown, AreKeyed, by_keys};
ghost use Rattle.loop_bounds.specs.Layout.{chain_of, items_of, key_in};

use crate::compare_pushed::compare_pushed;
use crate::extents::Extent;
use crate::loop_instances::LoopInstance;
use crate::nesting::Nesting;
use crate::numbering::index_near;
use crate::parents::innermost;
use control_flow::Place;
use numbered_walks::{NumberedEdge, Span};
use std::alloc::{AllocError, Global};
use std::cmp::{Ordering, Reverse};

/// A position by its key: the ranks of the headers of the extents that hold it, the outermost first, which
/// are the chain of the innermost one, and its own rank.
#[derive(Clone, Copy)]
pub(crate) struct Keyed {
    pub inner: Option<usize>,
    pub rank: usize,
    pub position: usize,
}

// The chain of an extent; none where there is no extent.
fn chain_of(chains: &[Vec<usize>], inner: Option<usize>) -> &[usize]
    ensures { result.now ≡ chain_of (items_of chains.now) inner }
{
    if let Some(k) = inner {
        if k < chains.len() {
            return &chains[k];
        }
    }
    &[]
}

// How the keys of two positions compare.
fn by_keys(chains: &[Vec<usize>], left: &Keyed, right: &Keyed) -> Ordering
    ensures { result ≡ by_keys (items_of chains.now) left.now right.now }
{
    // Most that are compared lie in the same extents.
    if left.inner == right.inner {
        return left.rank.cmp(&right.rank);
    }
    let (outer, others) = (chain_of(chains, left.inner), chain_of(chains, right.inner));
    compare_pushed(outer, &left.rank, others, &right.rank)
}

// The positions in turn, by their keys.
fn keyed_positions(
    alloc: Global,
    extents: &[Extent],
    nesting: &Nesting,
    exit: usize,
) -> Result<Vec<Keyed>, AllocError>
    requires { HasKeys exit extents.now nesting.now }
    ensures { IfOk result
        (λ keyed. AreKeyed (key_in (slice_index nesting.now.ranks.items) extents.now)
        (items_of nesting.now.chains.items) exit keyed.items) }
{
    let mut keyed = Vec::with_capacity(alloc, exit)?;
    for position in 0..exit {
        keyed.push(Keyed {
            inner: innermost(extents, &nesting.parents, position),
            rank: nesting.ranks[position],
            position,
        })?;
    }
    Ok(keyed)
}

/// The positions in the order of those keys, and at the end that of Exit.
pub(crate) fn order(
    alloc: Global,
    extents: &[Extent],
    nesting: &Nesting,
    exit: usize,
) -> Result<Vec<usize>, AllocError>
    requires { HasKeys exit extents.now nesting.now }
    ensures { IfOk result
        (λ order. IsLaidOut (key_in (slice_index nesting.now.ranks.items) extents.now) exit order.items) }
{
    let mut keyed = keyed_positions(alloc, extents, nesting, exit)?;
    let chains: &[Vec<usize>] = &nesting.chains;
    keyed.sort_unstable_by(|left, right| by_keys(chains, left, right));
    let mut order = Vec::with_capacity(alloc, exit + 1)?;
    for Keyed { position, .. } in &keyed {
        order.push(*position)?;
    }
    order.push(exit)?;
    Ok(order)
}

/// The number of each position in the order.
pub(crate) fn numbers(alloc: Global, order: &[usize]) -> Result<Vec<usize>, AllocError>
    requires inside { (k : ℕ) → k < length order.now → slice_index order.now k < length order.now }
    requires once { (j k : ℕ) → j < k → k < length order.now
        → slice_index order.now j ≡ slice_index order.now k → ⊥ }
    ensures { IfOk result (λ numbers. AreNumbers order.now numbers.items (length order.now)) }
{
    let mut numbers = vec![in alloc; 0; order.len()]?;
    for (number, position) in order.iter().enumerate() {
        numbers[*position] = number;
    }
    Ok(numbers)
}

/// The edges between the new numbers.
pub(crate) fn renumbered(
    alloc: Global,
    edges: &[NumberedEdge],
    numbers: &[usize],
) -> Result<Vec<NumberedEdge>, AllocError>
    requires { All (λ e. (e.from < length numbers.now) × (e.to < length numbers.now)) edges.now }
    ensures { IfOk result (λ moved. AreMoved numbers.now edges.now moved.items (length edges.now)) }
{
    let mut moved = Vec::with_capacity(alloc, edges.len())?;
    for edge in edges {
        moved.push(NumberedEdge {
            from: numbers[edge.from],
            to: numbers[edge.to],
            cost: edge.cost,
        })?;
    }
    Ok(moved)
}

// The greatest of the numbers.
fn greatest(numbers: &[usize]) -> Option<usize>
    ensures most { MatchOption result (length numbers.now ≡ 0)
        (λ m. EachIndex numbers.now (λ k. slice_index numbers.now k ≤ m)) }
    ensures attained { IfSome result (Contains numbers.now) }
{
    numbers.iter().copied().max()
}

// The span of an extent.
fn span_of(extent: &Extent, found: &LoopInstance, numbers: &[usize]) -> Span
    requires some { extent.now.first < extent.now.end }
    requires inside { extent.now.end ≤ length numbers.now }
    requires header { extent.now.header < length numbers.now }
    ensures { IsShown numbers.now extent.now found.now.stated.bound result }
{
    let header = numbers[extent.header];
    Span {
        header,
        last: greatest(&numbers[extent.first..extent.end]).unwrap_or(header),
        bound: found.stated.bound,
    }
}

/// The spans of the extents, each with its instance: by their last numbers, and then by their headers
/// downwards.
pub(crate) fn spans(
    alloc: Global,
    extents: &[Extent],
    found: &[LoopInstance],
    numbers: &[usize],
) -> Result<Vec<(Span, usize)>, AllocError>
    requires some { All (λ s. s.first < s.end) extents.now }
    requires inside { All (λ s. s.end ≤ length numbers.now) extents.now }
    requires headers { All (λ s. s.header < length numbers.now) extents.now }
    requires named { All (λ s. s.instance < length found.now) extents.now }
    ensures { IfOk result (λ spans. AreShown numbers.now found.now extents.now spans.items) }
{
    let mut spans = Vec::with_capacity(alloc, extents.len())?;
    for extent in extents {
        let instance = extent.instance;
        spans.push((span_of(extent, &found[instance], numbers), instance))?;
    }
    spans.sort_unstable_by_key(|(span, _)| (span.last, Reverse(span.header)));
    Ok(spans)
}

/// The indexes in the graph of the places in the order, and at the end their number.
pub(crate) fn indexes(
    alloc: Global,
    places: &[Place],
    listed: &[Place],
    order: &[usize],
) -> Result<Vec<usize>, AllocError>
    requires ordered { IsStrictlySortedBy place_cmp places.now }
    requires listed { IsPermutation places.now listed.now }
    requires order { length order.now ≡ length places.now + 1 }
    requires inside { (n : ℕ) → n < length places.now → slice_index order.now n < length places.now }
    ensures { IfOk result (λ indexes. ArePlaced places.now listed.now order.now indexes.items) }
{
    let mut indexes = Vec::with_capacity(alloc, order.len())?;
    for n in 0..places.len() {
        let position = order[n];
        indexes.push(index_near(places, &listed[position], position))?;
    }
    indexes.push(places.len())?;
    Ok(indexes)
}
