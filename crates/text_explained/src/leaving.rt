ghost use Rattle.std.specs.Prelude.{◌≡◌, ◌↔◌, ◌⊎◌, ℕ, true, IfOk, OnOk};
ghost use Rattle.std.specs.BTreeSet.{contains};
ghost use Rattle.std.specs.Ordering.{nat_cmp};
ghost use Rattle.text_explained.specs.Leaving.{is_left_on, is_of, leaves_on};
ghost use Rattle.text_explained.specs.Taken.{is_at, is_reached};

use control_flow::{Edge, Graph, Label, Place};
use std::alloc::{AllocError, Global};
use std::collections::BTreeSet;

/// A kind of edges.
#[derive(Clone, Copy)]
pub(crate) enum EdgeKind {
    /// Those on which their word is carried out.
    CarriesOut,
    /// Those that lead out of the handler.
    LeadsOut,
}

fn is_of(kind: EdgeKind, edge: &Edge) -> bool
    ensures { result ≡ is_of kind edge.now }
{
    match kind {
        EdgeKind::CarriesOut => match edge.label {
            Label::Do => true,
            Label::Skip => false,
        },
        EdgeKind::LeadsOut => match edge.to {
            Place::At(_, _) => false,
            Place::Exit => true,
        },
    }
}

// Adds the address that the edge leaves, if it is of the kind.
fn note(left: &mut BTreeSet<u32>, edge: &Edge, kind: EdgeKind) -> Result<(), AllocError>
    ensures { OnOk result
        ((a : ℕ) → (contains nat_cmp left.new a ≡ true)
        ↔ ((contains nat_cmp left.old a ≡ true) ⊎ (leaves_on kind a edge.now ≡ true))) }
{
    if !is_of(kind, edge) {
        return Ok(());
    }
    let Place::At(_, address) = edge.from else {
        return Ok(());
    };
    left.insert(address)?;
    Ok(())
}

/// The addresses that edges of the kind leave. `AllocError`: an allocation failed.
pub(crate) fn addresses_left(
    alloc: Global,
    graph: &Graph,
    kind: EdgeKind,
) -> Result<BTreeSet<u32>, AllocError>
    ensures { IfOk result
        (λ left. (a : ℕ) → contains nat_cmp left a ≡ is_left_on kind graph.now.edges a) }
{
    let mut left = BTreeSet::new(alloc);
    for edge in graph.edges() {
        note(&mut left, edge, kind)?;
    }
    Ok(left)
}

// Adds the place's address.
fn note_place(reached: &mut BTreeSet<u32>, place: &Place) -> Result<(), AllocError>
    ensures { OnOk result
        ((a : ℕ) → (contains nat_cmp reached.new a ≡ true)
        ↔ ((contains nat_cmp reached.old a ≡ true) ⊎ (is_at a place.now ≡ true))) }
{
    let Place::At(_, address) = place else {
        return Ok(());
    };
    reached.insert(*address)?;
    Ok(())
}

/// The addresses where the graph has a place. `AllocError`: an allocation failed.
pub(crate) fn addresses_reached(alloc: Global, graph: &Graph) -> Result<BTreeSet<u32>, AllocError>
    ensures { IfOk result
        (λ reached. (a : ℕ) → contains nat_cmp reached a ≡ is_reached graph.now.places a) }
{
    let mut reached = BTreeSet::new(alloc);
    for place in graph.places() {
        note_place(&mut reached, place)?;
    }
    Ok(reached)
}
