//! The edges of a handler, each with what it shows of a mask, and the words that set it.

ghost use Rattle.std.specs.Prelude.{◌≡◌, ◌↔◌, ◌⊎◌, ℕ, true, IfOk, IsTrue, OnOk, length};
ghost use Rattle.std.specs.BTreeSet.{contains};
ghost use Rattle.std.specs.Ordering.{nat_cmp};
ghost use Rattle.loop_bounds.specs.Tree.{IsTree};
ghost use Rattle.text_explained.specs.Taken.{is_at};
ghost use Rattle.text_masked.specs.Held.{is_set};
ghost use Rattle.text_masked.specs.Masked.{AreMarked};
ghost use Rattle.text_masked.specs.Sections.{AreSetters};
ghost use Rattle.text_masked.specs.Shown.{SetsMask};

use crate::shown::{Mask, Shown, shown_on};
use crate::steps::sorted;
use control_flow::{Edge, Graph, Place};
use image::Image;
use loop_bounds::LoopTree;
use numbered_walks::NumberedEdge;
use std::alloc::{AllocError, Global};
use std::collections::BTreeSet;

/// An edge between numbers, and what it shows of a mask.
#[derive(Clone, Copy)]
pub(crate) struct MarkedEdge {
    pub(crate) edge: NumberedEdge,
    pub(crate) shown: Shown,
}

impl Shown {
    /// Whether the mask is set.
    pub(crate) fn is_set(self) -> bool
        ensures { result ≡ is_set self }
    {
        match self {
            Shown::Sets => true,
            Shown::Clears => false,
            Shown::Nothing => false,
        }
    }
}

/// The edges of a tree with what they show. `AllocError`: an allocation failed.
pub(crate) fn marked_edges(
    alloc: Global,
    image: &Image,
    mask: Mask,
    graph: &Graph,
    tree: &LoopTree,
) -> Result<Vec<MarkedEdge>, AllocError>
    requires { IsTree graph.now tree.now }
    ensures { IfOk result (λ marked. AreMarked image.now mask graph.now tree.now marked.items) }
{
    let (steps, edges) = (graph.edges(), tree.edges());
    let mut marked = Vec::with_capacity(alloc, edges.len())?;
    for number in 0..edges.len() {
        marked.push(MarkedEdge {
            edge: edges[number],
            shown: shown_on(image, mask, &steps[number]),
        })?;
    }
    Ok(marked)
}

fn sets_mask(image: &Image, mask: Mask, edge: &Edge) -> bool
    ensures { IsTrue result ↔ SetsMask image.now mask edge.now }
{
    shown_on(image, mask, edge).is_set()
}

// Adds the address that the edge leaves, if it sets the mask.
fn note_setter(
    named: &mut BTreeSet<u32>,
    edge: &Edge,
    image: &Image,
    mask: Mask,
) -> Result<(), AllocError>
    ensures { OnOk result
        ((a : ℕ) → (contains nat_cmp named.new a ≡ true)
        ↔ ((contains nat_cmp named.old a ≡ true)
        ⊎ ((is_at a edge.now.from ≡ true) × SetsMask image.now mask edge.now))) }
{
    if !sets_mask(image, mask, edge) {
        return Ok(());
    }
    let Place::At(_, address) = edge.from else {
        return Ok(());
    };
    named.insert(address)?;
    Ok(())
}

/// The addresses of the words that set the mask, ascending. `AllocError`: an allocation failed.
pub(crate) fn setters(
    alloc: Global,
    image: &Image,
    mask: Mask,
    graph: &Graph,
) -> Result<Vec<u32>, AllocError>
    ensures { IfOk result (λ named. AreSetters image.now graph.now mask named.items) }
{
    let mut named = BTreeSet::new(alloc);
    for edge in graph.edges() {
        note_setter(&mut named, edge, image, mask)?;
    }
    sorted(alloc, &named)
}
