ghost use Rattle.std.specs.Prelude.{◌≡◌, ◌≢◌, ◌↔◌, All, AllPairs, length, ◌<◌, ◌≤◌, ◌⊎◌, OnOk, IfOk};
ghost use Rattle.std.specs.Prelude.{[], ◌∷◌, Contains, List, map, true, false};
ghost use Rattle.std.specs.List.Sorted.{IsNonDecreasingBy, IsPermutation};
ghost use Rattle.statement.specs.declared.apart.ApartStretch.{ApartStretch};
ghost use Rattle.statement.specs.declared.stated.Loop.{Loop};
ghost use Rattle.loop_bounds.specs.Instance.{Instance};
ghost use Rattle.loop_bounds.specs.Extents.{HeadersDiffer, IsFoundAmong, PlacesDiffer, found_instance};
ghost use Rattle.loop_bounds.specs.Extents.{header_place};
ghost use Rattle.loop_bounds.specs.Nest.{HasSharedHeader};

use control_flow::{Calls, Place};
use statement::Loop;
use std::alloc::{AllocError, Global};
use std::collections::BTreeSet;

/// An instance of a loop: a stated loop, and a list of calls with which its header is reached.
#[derive(Clone, Copy)]
pub struct LoopInstance {
    /// The calls inside of which the loop is taken.
    pub list: Calls,
    /// What the statement says of the loop.
    pub stated: Loop,
}

/// Whether two loops have one header address.
pub(crate) fn shares_header(alloc: Global, loops: &[Loop]) -> Result<bool, AllocError>
    ensures shared { IfOk result (λ shared. shared ≡ true → HasSharedHeader loops.now) }
    ensures apart { IfOk result (λ shared. shared ≡ false → HasSharedHeader loops.now → ⊥) }
{
    let mut headers = BTreeSet::new(alloc);
    for stated in loops {
        let is_new = headers.insert(stated.header)?;
        if !is_new {
            return Ok(true);
        }
    }
    Ok(false)
}

/// The loops, ascending by header.
pub(crate) fn by_header(alloc: Global, loops: &[Loop]) -> Result<Vec<Loop>, AllocError>
    ensures moved { IfOk result (λ sorted. IsPermutation loops.now sorted.items) }
    ensures ascending { IfOk result (λ sorted. IsNonDecreasingBy (λ l. l.header) sorted.items) }
{
    let mut sorted = Vec::from_slice(alloc, loops)?;
    sorted.sort_unstable_by_key(|stated| stated.header);
    Ok(sorted)
}

// The loops with the header.
fn loops_at(sorted: &[Loop], header: u32) -> &[Loop]
    requires { IsNonDecreasingBy (λ l. l.header) sorted.now }
    ensures exact { (l : Loop) → Contains result.now l ↔ (Contains sorted.now l × (l.header ≡ header)) }
    ensures one { HeadersDiffer sorted.now → length result.now ≤ 1 }
{
    let first = sorted.partition_point(|stated| stated.header < header);
    let end = sorted.partition_point(|stated| stated.header <= header);
    &sorted[first..end]
}

// Adds the instances whose header is the place.
fn add_instances(
    found: &mut Vec<LoopInstance>,
    sorted: &[Loop],
    place: &Place,
) -> Result<(), AllocError>
    requires { IsNonDecreasingBy (λ l. l.header) sorted.now }
    ensures added { OnOk result
        ((apart : List ApartStretch) (i : Instance) → Contains (map (found_instance apart) found.new.items) i
        ↔ (Contains (map (found_instance apart) found.old.items) i
        ⊎ IsFoundAmong apart (place.now ∷ []) sorted.now i)) }
    ensures differ { OnOk result
        (HeadersDiffer sorted.now → PlacesDiffer found.old.items
        → All (λ f. header_place f ≢ place.now) found.old.items → PlacesDiffer found.new.items) }
{
    if let Place::At(list, address) = place {
        for stated in loops_at(sorted, *address) {
            found.push(LoopInstance {
                list: *list,
                stated: *stated,
            })?;
        }
    }
    Ok(())
}

/// The instances whose headers are among the places.
pub(crate) fn instances_among(
    alloc: Global,
    sorted: &[Loop],
    places: &[Place],
) -> Result<Vec<LoopInstance>, AllocError>
    requires { IsNonDecreasingBy (λ l. l.header) sorted.now }
    ensures exact { IfOk result
        (λ found. (apart : List ApartStretch) (i : Instance)
        → Contains (map (found_instance apart) found.items) i ↔ IsFoundAmong apart places.now sorted.now i) }
    ensures differ { IfOk result
        (λ found. HeadersDiffer sorted.now → AllPairs (λ p q. p ≢ q) places.now → PlacesDiffer found.items) }
{
    let mut found = Vec::new(alloc);
    for place in places {
        add_instances(&mut found, sorted, place)?;
    }
    Ok(found)
}
