//! When the words of a handler begin for the first time, at the latest.

ghost use Rattle.std.specs.Prelude.{◌≡◌, ◌∷◌, ◌++◌, ◌==◌, [], if◌then◌else◌, ℕ, List, IfErr, IfOk, OnOk};
ghost use Rattle.std.specs.Prelude.{Some};
ghost use Rattle.std.specs.BTreeMap.{get};
ghost use Rattle.std.specs.Ordering.{nat_cmp};
ghost use Rattle.control_flow.specs.declared.places.Place.{Place};
ghost use Rattle.explain_reports.specs.FirstStarts.{AreAskedFirst, AreFirstStarts, map_of};
ghost use Rattle.longest_walk.specs.Longest.{IsWalkFault};
ghost use Rattle.loop_bounds.specs.Handler.{HasItsTree};

use control_flow::Place;
use handlers::Handler;
use longest_walk::WalkFault;
use responses::worst_arrival;
use std::alloc::{AllocError, Global};
use std::collections::BTreeMap;

// Sets the ticks of an address.
fn put_ticks(first: &mut BTreeMap<u32, u64>, address: u32, ticks: u64) -> Result<(), AllocError>
    ensures { OnOk result ((a : ℕ) → get nat_cmp first.new a
        ≡ (if address == a then Some ticks else get nat_cmp first.old a)) }
{
    first.insert(address, ticks)?;
    Ok(())
}

// Adds the place, unless another is at its address.
fn put_first(
    alloc: Global,
    first: &mut BTreeMap<u32, u64>,
    handler: &Handler<'_>,
    place: &Place,
) -> Result<(), WalkFault>
    requires { HasItsTree handler.now }
    ensures added { (places : List Place)
        → AreFirstStarts handler.now.graph handler.now.statement.loops places (get nat_cmp first.old)
        → OnOk result (AreFirstStarts handler.now.graph handler.now.statement.loops
        (places ++ place.now ∷ []) (get nat_cmp first.new)) }
    ensures fault { IfErr result (IsWalkFault handler.now.graph handler.now.tree) }
{
    let Place::At(_, address) = place else {
        return Ok(());
    };
    if first.contains_key(address) {
        return Ok(());
    }
    let Some(ticks) = worst_arrival(alloc, handler, *address)? else {
        return Ok(());
    };
    put_ticks(first, *address, ticks)?;
    Ok(())
}

// By the addresses where the graph has a place, the greatest ticks after which a walk comes there for the
// first time.
fn first_starts(alloc: Global, handler: &Handler<'_>) -> Result<BTreeMap<u32, u64>, WalkFault>
    requires { HasItsTree handler.now }
    ensures first { IfOk result (λ first.
        AreFirstStarts handler.now.graph handler.now.statement.loops handler.now.graph.places
        (get nat_cmp first)) }
    ensures fault { IfErr result (IsWalkFault handler.now.graph handler.now.tree) }
{
    let mut first = BTreeMap::new(alloc);
    for place in handler.graph.places() {
        put_first(alloc, &mut first, handler, place)?;
    }
    Ok(first)
}

/// When the words begin for the first time, at the latest, by the addresses where the graph has a place, if
/// that is asked for. Each address takes a search of its own.
///
/// The faults are those of [`worst_arrival`].
pub(crate) fn asked_first(
    alloc: Global,
    handler: &Handler<'_>,
    asked: bool,
) -> Result<Option<BTreeMap<u32, u64>>, WalkFault>
    requires { HasItsTree handler.now }
    ensures first { IfOk result (λ first.
        AreAskedFirst handler.now.graph handler.now.statement.loops asked (map_of first)) }
    ensures fault { IfErr result (IsWalkFault handler.now.graph handler.now.tree) }
{
    if !asked {
        return Ok(None);
    }
    let first = first_starts(alloc, handler)?;
    Ok(Some(first))
}
