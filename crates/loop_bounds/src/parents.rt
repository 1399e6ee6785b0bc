ghost use Rattle.std.specs.Prelude.{ℕ, ◌<◌, ◌≤◌, length, Option, IfSome, MatchBool, MatchOption, IfOk};
ghost use Rattle.loop_bounds.specs.Extents.{AreExtents, AreNested, AreParents, EntersRight, EntersWrong};
ghost use Rattle.loop_bounds.specs.Extents.{HaveCrossing, Holds, IsInnermost, IsOpen, IsOver, extent_at};

use crate::extents::Extent;
use std::alloc::{AllocError, Global};

// The innermost of the first `limit` extents that ends after the position, from one on that lies in all that
// do.
fn climb(
    extents: &[Extent],
    parents: &[Option<usize>],
    limit: usize,
    from: Option<usize>,
    position: usize,
) -> Option<usize>
    requires extents { AreExtents extents.now }
    requires limit { limit ≤ length extents.now }
    requires known { limit ≤ length parents.now }
    requires parents { AreParents extents.now parents.now limit }
    requires begun { (j : ℕ) → j < limit → (extent_at extents.now j).first ≤ position }
    requires opened { IsOpen extents.now limit position from }
    ensures opened { IsOpen extents.now limit position result }
    ensures ends { IfSome result (λ k. position < (extent_at extents.now k).end) }
{
    let mut current = from;
    while let Some(k) = current {
        if position < extents[k].end {
            return current;
        }
        current = parents[k];
    }
    None
}

// Whether the extent ends no later than its parent, if it has one.
fn ends_within(extents: &[Extent], parent: Option<usize>, k: usize) -> bool
    requires k { k < length extents.now }
    requires parent { IfSome parent (λ d. d < length extents.now) }
    ensures { MatchBool result (Holds extents.now k parent) (IsOver extents.now k parent) }
{
    match parent {
        Some(outer) => extents[k].end <= extents[outer].end,
        None => true,
    }
}

/// The smallest extent round each, or None where two cross.
pub(crate) fn parents(
    alloc: Global,
    extents: &[Extent],
) -> Result<Option<Vec<Option<usize>>>, AllocError>
    requires extents { AreExtents extents.now }
    ensures nested { IfOk result
        (λ found. MatchOption found (HaveCrossing extents.now)
        (λ parents. AreNested extents.now parents.items)) }
{
    let mut parents: Vec<Option<usize>> = Vec::with_capacity(alloc, extents.len())?;
    for k in 0..extents.len() {
        let extent = extents[k];
        let previous = if k == 0 { None } else { Some(k - 1) };
        let parent = climb(extents, &parents, k, previous, extent.first);
        if !ends_within(extents, parent, k) {
            return Ok(None);
        }
        parents.push(parent)?;
    }
    Ok(Some(parents))
}

/// The innermost of the extents that hold the position.
pub(crate) fn innermost(
    extents: &[Extent],
    parents: &[Option<usize>],
    position: usize,
) -> Option<usize>
    requires { AreNested extents.now parents.now }
    ensures { IsInnermost extents.now position result }
{
    let limit = extents.partition_point(|extent| extent.first <= position);
    if limit == 0 {
        return None;
    }
    climb(extents, parents, limit, Some(limit - 1), position)
}

/// Whether each extent that holds `to` and not `from` has its header at `to`.
pub(crate) fn enters_right(
    extents: &[Extent],
    parents: &[Option<usize>],
    from: usize,
    to: usize,
) -> bool
    requires { AreNested extents.now parents.now }
    ensures { MatchBool result (EntersRight extents.now from to) (EntersWrong extents.now from to) }
{
    let mut inner = innermost(extents, parents, to);
    while let Some(k) = inner {
        let extent = extents[k];
        if extent.holds(from) {
            return true;
        }
        if extent.header != to {
            return false;
        }
        inner = parents[k];
    }
    true
}
