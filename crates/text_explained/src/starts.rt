ghost use Rattle.std.specs.Prelude.{◌≡◌, ℕ, IfOk, OnOk, Some};
ghost use Rattle.std.specs.BTreeMap.{get};
ghost use Rattle.std.specs.Ordering.{nat_cmp};
ghost use Rattle.text_explained.specs.Starts.{Begins, later, latest_at};

use control_flow::{Graph, Place};
use std::alloc::{AllocError, Global};
use std::collections::BTreeMap;

/// When the places of a handler's graph begin at the latest, in ticks from the handler's beginning.
#[derive(Clone, Copy)]
pub struct WorstStarts<'a> {
    /// That of each place of the graph, in their order ([`worst_starts`](longest_walk::worst_starts)).
    pub latest: &'a [u64],
    /// By the addresses where the graph has a place the greatest ticks after which a walk comes there for the
    /// first time; None where that is not asked for.
    pub first: Option<&'a BTreeMap<u32, u64>>,
}

fn later(latest: Option<u64>, start: u64) -> u64
    ensures { Some result ≡ later latest start }
{
    match latest {
        None => start,
        Some(latest) => latest.max(start),
    }
}

// Adds a place with its start.
fn put_start(latest: &mut BTreeMap<u32, u64>, place: &Place, start: u64) -> Result<(), AllocError>
    ensures { OnOk result
        (Begins place.now start (get nat_cmp latest.old) (get nat_cmp latest.new)) }
{
    let Place::At(_, address) = place else {
        return Ok(());
    };
    let before = latest.get(address).copied();
    latest.insert(*address, later(before, start))?;
    Ok(())
}

/// When the words begin at the latest, by the addresses where the graph has a place: the greatest of the
/// starts of the places there. `AllocError`: an allocation failed.
pub(crate) fn latest_starts(
    alloc: Global,
    graph: &Graph,
    starts: &[u64],
) -> Result<BTreeMap<u32, u64>, AllocError>
    ensures { IfOk result
        (λ latest. (a : ℕ) → get nat_cmp latest a ≡ latest_at graph.now.places starts.now a) }
{
    let mut latest = BTreeMap::new(alloc);
    for (place, start) in graph.places().iter().zip(starts) {
        put_start(&mut latest, place, *start)?;
    }
    Ok(latest)
}
