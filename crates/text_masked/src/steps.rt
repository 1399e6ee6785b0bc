//! The longest step of a handler, and the words that take it.

ghost use Rattle.std.specs.Prelude.{◌≡◌, ◌↔◌, ◌⊎◌, ℕ, true, IfOk, OnOk};
ghost use Rattle.std.specs.BTreeSet.{contains};
ghost use Rattle.std.specs.List.Sorted.{IsStrictlySortedBy};
ghost use Rattle.std.specs.Ordering.{nat_cmp};
ghost use Rattle.text_masked.specs.Steps.{AreLeftAtCost, costs_at, longest_ticks};

use control_flow::{Edge, Place};
use std::alloc::{AllocError, Global};
use std::collections::BTreeSet;

/// The greatest ticks of one of the edges; 0 where there are none.
pub(crate) fn longest_ticks(edges: &[Edge]) -> u32
    ensures { result ≡ longest_ticks edges.now }
{
    edges.iter().map(|edge| edge.cost).fold(0, u32::max)
}

// Adds the address that the edge leaves, if it costs so much.
fn note(left: &mut BTreeSet<u32>, edge: &Edge, ticks: u32) -> Result<(), AllocError>
    ensures { OnOk result
        ((a : ℕ) → (contains nat_cmp left.new a ≡ true)
        ↔ ((contains nat_cmp left.old a ≡ true) ⊎ (costs_at ticks a edge.now ≡ true))) }
{
    if edge.cost != ticks {
        return Ok(());
    }
    let Place::At(_, address) = edge.from else {
        return Ok(());
    };
    left.insert(address)?;
    Ok(())
}

/// The addresses, ascending. `AllocError`: an allocation failed.
pub(crate) fn sorted(alloc: Global, named: &BTreeSet<u32>) -> Result<Vec<u32>, AllocError>
    ensures keys { IfOk result (λ addresses. addresses.items ≡ named.now.keys) }
    ensures ascending { IfOk result (λ addresses. IsStrictlySortedBy nat_cmp addresses.items) }
{
    named.iter().copied().collect(alloc)
}

/// The addresses that edges of so many ticks leave, ascending. `AllocError`: an allocation failed.
pub(crate) fn left_at_cost(
    alloc: Global,
    edges: &[Edge],
    ticks: u32,
) -> Result<Vec<u32>, AllocError>
    ensures { IfOk result (λ named. AreLeftAtCost edges.now ticks named.items) }
{
    let mut left = BTreeSet::new(alloc);
    for edge in edges {
        note(&mut left, edge, ticks)?;
    }
    sorted(alloc, &left)
}
