ghost use Rattle.std.specs.Prelude.{◌≡◌, ◌<◌, OnOk, IfErr, IfOk, ◌⊎◌};
ghost use Rattle.std.specs.List.Sorted.{IsStrictlySortedBy};
ghost use Rattle.control_flow.specs.Places.{place_cmp};
ghost use Rattle.control_flow.specs.Search.{Adds, Grows, IsCrowded, IsCrowdedBy, IsFound};
ghost use Rattle.control_flow.specs.Search.{ascending, places_in};

use crate::edges::Edge;
use crate::faults::BuildFault;
use crate::places::Place;
use std::alloc::{AllocError, Global};
use std::cmp::Reverse;
use std::collections::BTreeSet;

/// How many places a graph has at most, besides Exit.
pub const MOST_PLACES: usize = 16_384;

/// Adds a place that is not yet found.
pub(crate) fn add(
    seen: &mut BTreeSet<Reverse<Place>>,
    order: &mut Vec<Place>,
    place: &Place,
) -> Result<(), BuildFault>
    requires { IsFound seen.old order.old.items }
    ensures found { OnOk result (IsFound seen.new order.new.items) }
    ensures adds { OnOk result (Adds order.old.items place.now order.new.items) }
    ensures fault { IfErr result
        (λ fault. (fault ≡ BuildFault.Memory)
        ⊎ ((fault ≡ BuildFault.TooManyPlaces) × IsCrowded order.old.items place.now)) }
{
    if let Place::Exit = place {
        return Ok(());
    }
    // Most places are found ascending. A search in a node of the tree begins at its least key, and by the
    // reversed order it ends there.
    let is_new = seen.insert(Reverse(*place))?;
    if !is_new {
        return Ok(());
    }
    if seen.len() > MOST_PLACES {
        return Err(BuildFault::TooManyPlaces);
    }
    order.push(*place)?;
    Ok(())
}

/// Adds the ends of the edges.
pub(crate) fn add_ends(
    seen: &mut BTreeSet<Reverse<Place>>,
    order: &mut Vec<Place>,
    edges: &[Edge],
) -> Result<(), BuildFault>
    requires { IsFound seen.old order.old.items }
    ensures found { OnOk result (IsFound seen.new order.new.items) }
    ensures grows { OnOk result (Grows order.old.items edges.now order.new.items) }
    ensures fault { IfErr result
        (λ fault. (fault ≡ BuildFault.Memory)
        ⊎ ((fault ≡ BuildFault.TooManyPlaces) × IsCrowdedBy order.old.items edges.now)) }
{
    for edge in edges {
        add(seen, order, &edge.to)?;
    }
    Ok(())
}

// The members of a set by a reversed order, the least first.
fn ascending<K: Ord + Copy>(alloc: Global, set: &BTreeSet<Reverse<K>>) -> Result<Vec<K>, AllocError>
    ensures members { IfOk result (λ members. members.items ≡ ascending set.now.keys) }
    ensures ordered { IfOk result (λ members. IsStrictlySortedBy K.cmp members.items) }
{
    let mut members = Vec::with_capacity(alloc, set.len())?;
    for member in set.iter().rev() {
        members.push(member.0)?;
    }
    Ok(members)
}

/// The places found, ascending.
pub(crate) fn sorted(
    alloc: Global,
    seen: &BTreeSet<Reverse<Place>>,
) -> Result<Vec<Place>, AllocError>
    ensures places { IfOk result (λ places. places.items ≡ places_in seen.now) }
    ensures ordered { IfOk result (λ places. IsStrictlySortedBy place_cmp places.items) }
{
    ascending(alloc, seen)
}
