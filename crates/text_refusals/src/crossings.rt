ghost use Rattle.std.specs.Prelude.{◌≡◌, Contains, IfNone, IfSome, option_map};
ghost use Rattle.std.specs.List.{find};
ghost use Rattle.loop_bounds.specs.Extents.{found_instance};
ghost use Rattle.loop_bounds.specs.Instance.{IsInstance};
ghost use Rattle.loop_bounds.specs.Nest.{HasCrossing};
ghost use Rattle.control_flow.specs.declared.places.Place.TheVariants.{At};
ghost use Rattle.text_refusals.specs.Crossings.{CrossNone, CrossNoneAt, DoNotCross, IsCrossing};
ghost use Rattle.text_refusals.specs.Crossings.{ShowsCrossing, is_own, is_shared};

use control_flow::{Calls, Graph, Place};
use loop_bounds::{LoopInstance, has_place};
use statement::{ApartWords, StatedLoops};

/// Two instances of loops that cross, and places that show it.
#[derive(Clone, Copy)]
pub struct Crossing {
    pub one: LoopInstance,
    pub other: LoopInstance,
    /// A member of both.
    pub shared: Place,
    /// A member of the one alone.
    pub one_has: Place,
    /// A member of the other alone.
    pub other_has: Place,
}

fn is_shared(apart: &ApartWords, one: &LoopInstance, other: &LoopInstance, place: &Place) -> bool
    ensures { result
        ≡ is_shared (found_instance apart.now one.now) (found_instance apart.now other.now) place.now }
{
    one.is_member(apart, place) && other.is_member(apart, place)
}

fn is_own(apart: &ApartWords, one: &LoopInstance, other: &LoopInstance, place: &Place) -> bool
    ensures { result
        ≡ is_own (found_instance apart.now one.now) (found_instance apart.now other.now) place.now }
{
    one.is_member(apart, place) && !other.is_member(apart, place)
}

// A member of both instances.
fn shared_place<'a>(
    graph: &'a Graph,
    apart: &ApartWords,
    one: &LoopInstance,
    other: &LoopInstance,
) -> Option<&'a Place>
    ensures { option_map (λ place. place.now) result
        ≡ find (is_shared (found_instance apart.now one.now) (found_instance apart.now other.now))
        graph.now.places }
{
    let places = graph.places();
    places
        .iter()
        .find(|place| is_shared(apart, one, other, place))
}

// A member of the one instance alone.
fn own_place<'a>(
    graph: &'a Graph,
    apart: &ApartWords,
    one: &LoopInstance,
    other: &LoopInstance,
) -> Option<&'a Place>
    ensures { option_map (λ place. place.now) result
        ≡ find (is_own (found_instance apart.now one.now) (found_instance apart.now other.now))
        graph.now.places }
{
    let places = graph.places();
    places.iter().find(|place| is_own(apart, one, other, place))
}

// How the two instances cross.
fn crossing_of(
    graph: &Graph,
    apart: &ApartWords,
    one: &LoopInstance,
    other: &LoopInstance,
) -> Option<Crossing>
    ensures shows { IfSome result (ShowsCrossing graph.now apart.now one.now other.now) }
    ensures none { IfNone result
        (DoNotCross graph.now (found_instance apart.now one.now) (found_instance apart.now other.now)) }
{
    let Some(shared) = shared_place(graph, apart, one, other) else {
        return None;
    };
    let Some(one_has) = own_place(graph, apart, one, other) else {
        return None;
    };
    let Some(other_has) = own_place(graph, apart, other, one) else {
        return None;
    };
    Some(Crossing {
        one: *one,
        other: *other,
        shared: *shared,
        one_has: *one_has,
        other_has: *other_has,
    })
}

// How the instance crosses another with its list of calls.
fn crossing_with(graph: &Graph, loops: &StatedLoops, one: &LoopInstance) -> Option<Crossing>
    requires { IsInstance graph.now loops.now (found_instance loops.now.apart one.now) }
    ensures crossing { IfSome result (IsCrossing graph.now loops.now) }
    ensures none { IfNone result
        (CrossNone graph.now loops.now (found_instance loops.now.apart one.now)) }
{
    for stated in loops.list() {
        let list = one.list;
        if has_place(graph, &Place::At(list, stated.header)) {
            let other = LoopInstance {
                list,
                stated: *stated,
            };
            if let Some(crossing) = crossing_of(graph, loops.apart(), one, &other) {
                return Some(crossing);
            }
        }
    }
    None
}

// How an instance whose header is the place crosses another.
fn crossing_at(graph: &Graph, loops: &StatedLoops, list: Calls, address: u32) -> Option<Crossing>
    requires { Contains graph.now.places (At list address) }
    ensures crossing { IfSome result (IsCrossing graph.now loops.now) }
    ensures none { IfNone result (CrossNoneAt graph.now loops.now list address) }
{
    for stated in loops.list() {
        if stated.header != address {
            continue;
        }
        let one = LoopInstance {
            list,
            stated: *stated,
        };
        if let Some(crossing) = crossing_with(graph, loops, &one) {
            return Some(crossing);
        }
    }
    None
}

/// Two instances of loops that cross, with a place of both and one that each has alone. None where no two
/// cross.
pub fn loops_that_cross(graph: &Graph, loops: &StatedLoops) -> Option<Crossing>
    ensures crossing { IfSome result (IsCrossing graph.now loops.now) }
    ensures none { IfNone result (HasCrossing graph.now loops.now → ⊥) }
{
    for place in graph.places() {
        if let Place::At(list, address) = place {
            if let Some(crossing) = crossing_at(graph, loops, *list, *address) {
                return Some(crossing);
            }
        }
    }
    None
}
