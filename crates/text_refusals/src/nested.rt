ghost use Rattle.std.specs.Prelude.{◌≡◌, ◌≢◌, ◌↔◌, Contains, IfNone, IfOk, IfSome, IsTrue, MatchBool};
ghost use Rattle.std.specs.Prelude.{OnOk, map};
ghost use Rattle.std.specs.List.Sorted.{IsNonDecreasingBy, IsPermutation};
ghost use Rattle.loop_bounds.specs.Extents.{found_instance};
ghost use Rattle.loop_bounds.specs.Nest.{HasDeepPlace};
ghost use Rattle.text_refusals.specs.Nested.{AreInstancesOf, HasAllUpTo, HasAllWith, HasPlace};
ghost use Rattle.text_refusals.specs.Nested.{HavePlace, IsDeep};
ghost use Rattle.text_refusals.specs.Nested.{KeepsAll, others};

use control_flow::{Calls, Graph, Place};
use loop_bounds::{LoopInstance, MOST_INSTANCES, has_place};
use statement::{ApartWords, StatedLoops};
use std::alloc::{AllocError, Global};

/// A place that is in more than sixteen instances of loops, and those.
#[derive(Drop)]
pub struct DeepPlace {
    pub place: Place,
    /// All of them: where no loops cross, the outermost comes first.
    pub instances: Vec<LoopInstance>,
}

// Whether the two are one instance.
fn are_same(one: &LoopInstance, other: &LoopInstance) -> bool
    ensures { MatchBool result (one.now ≡ other.now) (one.now ≢ other.now) }
{
    one.list == other.list && one.stated == other.stated
}

// Whether the instance is among those.
fn is_among(found: &[LoopInstance], one: &LoopInstance) -> bool
    ensures { IsTrue result ↔ Contains found.now one.now }
{
    for other in found {
        if are_same(other, one) {
            return true;
        }
    }
    false
}

// Whether it is an instance that has the place.
fn has_member(graph: &Graph, apart: &ApartWords, one: &LoopInstance, place: &Place) -> bool
    ensures { IsTrue result
        ↔ HasPlace graph.now place.now (found_instance apart.now one.now) }
{
    one.is_member(apart, place) && has_place(graph, &Place::At(one.list, one.stated.header))
}

/// Of which loops instances are looked for, and the place that they are to have.
#[derive(Clone, Copy)]
pub(crate) struct Wanted<'a> {
    graph: &'a Graph,
    loops: &'a StatedLoops,
    place: &'a Place,
}

impl Wanted<'_> {
    // Adds the instance, if it has the place and is not there yet.
    fn add(&self, found: &mut Vec<LoopInstance>, one: &LoopInstance) -> Result<(), AllocError>
        ensures have { Contains self.now.loops.now.list one.now.stated
            → HavePlace self.now.graph.now self.now.loops.now self.now.place.now found.old.items
            → OnOk result
            (HavePlace self.now.graph.now self.now.loops.now self.now.place.now found.new.items) }
        ensures kept { OnOk result (KeepsAll found.old.items found.new.items) }
        ensures added { HasPlace self.now.graph.now self.now.place.now
            (found_instance self.now.loops.now.apart one.now)
            → OnOk result (Contains found.new.items one.now) }
    {
        if !has_member(self.graph, self.loops.apart(), one, self.place) {
            return Ok(());
        }
        if is_among(found, one) {
            return Ok(());
        }
        found.push(*one)?;
        Ok(())
    }

    // Adds the instances with the list of calls.
    fn add_inside(&self, found: &mut Vec<LoopInstance>, list: Calls) -> Result<(), AllocError>
        ensures have { HavePlace self.now.graph.now self.now.loops.now self.now.place.now found.old.items
            → OnOk result
            (HavePlace self.now.graph.now self.now.loops.now self.now.place.now found.new.items) }
        ensures kept { OnOk result (KeepsAll found.old.items found.new.items) }
        ensures all { OnOk result
            (HasAllWith self.now.graph.now self.now.loops.now self.now.place.now list found.new.items) }
    {
        for stated in self.loops.list() {
            let one = LoopInstance {
                list,
                stated: *stated,
            };
            self.add(found, &one)?;
        }
        Ok(())
    }

    // Adds the instances with the list or with a front of it.
    fn add_up_to(&self, found: &mut Vec<LoopInstance>, list: Calls) -> Result<(), AllocError>
        ensures have { HavePlace self.now.graph.now self.now.loops.now self.now.place.now found.old.items
            → OnOk result
            (HavePlace self.now.graph.now self.now.loops.now self.now.place.now found.new.items) }
        ensures all { OnOk result
            (HasAllUpTo self.now.graph.now self.now.loops.now self.now.place.now list found.new.items) }
    {
        if let Some(parts) = list.split_last() {
            self.add_up_to(found, parts.0)?;
        }
        self.add_inside(found, list)?;
        Ok(())
    }
}

// The instances that have the place.
fn instances_of(
    alloc: Global,
    graph: &Graph,
    loops: &StatedLoops,
    place: &Place,
) -> Result<Vec<LoopInstance>, AllocError>
    ensures { IfOk result
        (λ found. AreInstancesOf graph.now loops.now place.now
        (map (found_instance loops.now.apart) found.items)) }
{
    let mut found = Vec::new(alloc);
    if let Place::At(calls, _) = place {
        let wanted = Wanted {
            graph,
            loops,
            place,
        };
        wanted.add_up_to(&mut found, *calls)?;
    }
    Ok(found)
}

// How many places of the graph are no members.
fn others(graph: &Graph, apart: &ApartWords, one: &LoopInstance) -> usize
    ensures { result ≡ others graph.now (found_instance apart.now one.now) }
{
    let places = graph.places();
    places
        .iter()
        .filter(|place| !one.is_member(apart, place))
        .count()
}

// Puts the instances with more members first.
fn put_in_order(graph: &Graph, apart: &ApartWords, found: &mut [LoopInstance])
    ensures moved { IsPermutation found.old found.new }
    ensures ordered { IsNonDecreasingBy (λ f. others graph.now (found_instance apart.now f)) found.new }
{
    found.sort_unstable_by_key(|one| others(graph, apart, one));
}

/// A place that is in more than sixteen instances of loops, and those: all of them, the outermost first where
/// no loops cross. None where there is no such place.
///
/// # Errors
///
/// An allocation failed.
pub fn deep_place(
    alloc: Global,
    graph: &Graph,
    loops: &StatedLoops,
) -> Result<Option<DeepPlace>, AllocError>
    ensures deep { IfOk result (λ found. IfSome found (IsDeep graph.now loops.now)) }
    ensures none { IfOk result (λ found. IfNone found (HasDeepPlace graph.now loops.now → ⊥)) }
{
    for place in graph.places() {
        let mut instances = instances_of(alloc, graph, loops, place)?;
        if instances.len() > MOST_INSTANCES {
            put_in_order(graph, loops.apart(), &mut instances);
            return Ok(Some(DeepPlace {
                place: *place,
                instances,
            }));
        }
    }
    Ok(None)
}
