ghost use Rattle.std.specs.Prelude.{◌≡◌, ◌↔◌, IfOk, All, Contains, map, true, false};
ghost use Rattle.std.specs.List.Sorted.{IsStrictlySortedBy};
ghost use Rattle.control_flow.specs.Places.{place_cmp};
ghost use Rattle.statement.specs.Stated.{IsLoop};
ghost use Rattle.loop_bounds.specs.Extents.{IsFoundAmong, found_instance};
ghost use Rattle.loop_bounds.specs.Instance.{Instance};
ghost use Rattle.loop_bounds.specs.Keys.{IsListed};
ghost use Rattle.loop_bounds.specs.Nest.{HasCrossing, HasCrossingWith};

use crate::extents::extents;
use crate::loop_instances::LoopInstance;
use crate::parents::parents;
use control_flow::{Calls, Graph, Place};
use statement::StatedLoops;
use std::alloc::{AllocError, Global};

// The instances with the list of calls.
fn instances_with(
    alloc: Global,
    places: &[Place],
    loops: &StatedLoops,
    list: Calls,
) -> Result<Vec<LoopInstance>, AllocError>
    requires { IsStrictlySortedBy place_cmp places.now }
    ensures { IfOk result
        (λ found. (i : Instance) → Contains (map (found_instance loops.now.apart) found.items) i
        ↔ (IsFoundAmong loops.now.apart places.now loops.now.list i × (i.list ≡ list))) }
{
    let mut found = Vec::new(alloc);
    for stated in loops.list() {
        let header = Place::At(list, stated.header);
        if places.binary_search(&header).is_ok() {
            found.push(LoopInstance {
                list,
                stated: *stated,
            })?;
        }
    }
    Ok(found)
}

// Whether two instances with the list of calls cross.
fn cross_with(
    alloc: Global,
    graph: &Graph,
    listed: &[Place],
    loops: &StatedLoops,
    list: Calls,
) -> Result<bool, AllocError>
    requires listed { IsListed loops.now.apart graph.now.places listed.now }
    requires stated { All (IsLoop loops.now.apart) loops.now.list }
    ensures crossing { IfOk result (λ cross. cross ≡ true → HasCrossing graph.now loops.now) }
    ensures apart { IfOk result (λ cross. cross ≡ false → HasCrossingWith graph.now loops.now list → ⊥) }
{
    let found = instances_with(alloc, graph.places(), loops, list)?;
    let extents = extents(alloc, loops.apart(), listed, &found)?;
    let parents = parents(alloc, &extents)?;
    Ok(parents.is_none())
}

/// Whether two instances cross. Those that do have one list of calls, so each list is looked at by itself.
pub(crate) fn have_crossing(
    alloc: Global,
    graph: &Graph,
    listed: &[Place],
    loops: &StatedLoops,
) -> Result<bool, AllocError>
    requires listed { IsListed loops.now.apart graph.now.places listed.now }
    requires stated { All (IsLoop loops.now.apart) loops.now.list }
    ensures crossing { IfOk result (λ cross. cross ≡ true → HasCrossing graph.now loops.now) }
    ensures apart { IfOk result (λ cross. cross ≡ false → HasCrossing graph.now loops.now → ⊥) }
{
    let mut previous = None;
    for place in graph.places() {
        if let Place::At(list, _) = place {
            if previous != Some(*list) {
                if cross_with(alloc, graph, listed, loops, *list)? {
                    return Ok(true);
                }
                previous = Some(*list);
            }
        }
    }
    Ok(false)
}
