//! The words of a walk whose conditions exclude one another, as text.

ghost use Rattle.std.specs.Prelude.{◌≡◌, ◌↔◌, ℕ, IfOk, true};
ghost use Rattle.std.specs.BTreeSet.{contains};
ghost use Rattle.std.specs.List.Sorted.{IsStrictlySortedBy};
ghost use Rattle.std.specs.Ordering.{nat_cmp};
ghost use Rattle.longest_walk.specs.Folded.{unfolded};
ghost use Rattle.walk_contradictions.specs.Contradictions.{AreContradicted, IsContradicted};
ghost use Rattle.walk_contradictions.specs.Contradictions.{IsContradictionSection};

use crate::outcomes::Outcomes;
use crate::passing::{Direction, Way};
use crate::sieve::Sieve;
use image::Image;
use longest_walk::{FoldedWalk, Item};
use sources::Source;
use std::alloc::{AllocError, Global};
use std::collections::BTreeSet;
use text_explained::named_rows;
use text_rows::section;

const HEADING: &[u8] =
    b"\nWithout visits no run takes this path, as these conditions exclude one another \
    (the bound is safe):\n";

// The addresses of the words in items.
fn contradicted_in(
    alloc: Global,
    image: &Image,
    items: &[Item],
) -> Result<BTreeSet<u32>, AllocError>
    ensures { IfOk result (λ named. (a : ℕ) → (contains nat_cmp named a ≡ true)
        ↔ IsContradicted image.now (unfolded items.now) a) }
{
    let mut named = BTreeSet::new(alloc);
    let none = Outcomes::none();
    let forward = Way {
        image,
        direction: Direction::Forward,
    };
    forward.mark_items(items, &none, &mut named)?;
    let backward = Way {
        image,
        direction: Direction::Backward,
    };
    backward.mark_items(items, &none, &mut named)?;
    Ok(named)
}

// And in a walk, of which most edges are left out first: they cannot clash where all are possible.
fn contradicted(
    alloc: Global,
    image: &Image,
    walk: &FoldedWalk,
) -> Result<BTreeSet<u32>, AllocError>
    ensures { IfOk result (λ named. (a : ℕ) → (contains nat_cmp named a ≡ true)
        ↔ IsContradicted image.now (unfolded walk.now) a) }
{
    let sieve = Sieve::of(alloc, image, walk.items())?;
    if sieve.possible {
        return contradicted_in(alloc, image, &sieve.items);
    }
    contradicted_in(alloc, image, walk.items())
}

fn sorted(alloc: Global, named: &BTreeSet<u32>) -> Result<Vec<u32>, AllocError>
    ensures keys { IfOk result (λ addresses. addresses.items ≡ named.now.keys) }
    ensures ascending { IfOk result (λ addresses. IsStrictlySortedBy nat_cmp addresses.items) }
{
    named.iter().copied().collect(alloc)
}

// The same, ascending.
fn contradicted_words(
    alloc: Global,
    image: &Image,
    walk: &FoldedWalk,
) -> Result<Vec<u32>, AllocError>
    ensures { IfOk result (λ named. AreContradicted image.now (unfolded walk.now) named.items) }
{
    let named = contradicted(alloc, image, walk)?;
    sorted(alloc, &named)
}

/// The rows of those words of a walk at which a condition comes out as it cannot after another word's, or
/// before it: no flags give both outcomes, and no word from the first of the two on and before the second may
/// set the flags. No text where the walk has none.
///
/// It takes time linear in the walk as it is folded, times how deep its repeats are nested for the edges that
/// may clash.
///
/// # Errors
///
/// An allocation failed.
pub fn contradiction_text(
    alloc: Global,
    source: &Source<'_>,
    image: &Image,
    walk: &FoldedWalk,
) -> Result<Vec<u8>, AllocError>
    ensures { IfOk result
        (λ text. IsContradictionSection source.now image.now (unfolded walk.now) text.items) }
{
    let named = contradicted_words(alloc, image, walk)?;
    let rows = named_rows(alloc, source, &named)?;
    section(alloc, HEADING, &rows)
}
