ghost use Rattle.std.specs.Prelude.{◌≡◌, Contains, IfNone, IfSome, option_map};
ghost use Rattle.std.specs.List.{find};
ghost use Rattle.control_flow.specs.Flow.{IsWellFormed};
ghost use Rattle.loop_bounds.specs.Extents.{found_instance};
ghost use Rattle.loop_bounds.specs.Nest.{HasMidEntry};
ghost use Rattle.text_refusals.specs.Entries.{AreRightlyEntered, IsMidEntry, IsMidOf, IsRightlyEntered};
ghost use Rattle.text_refusals.specs.Entries.{enters_mid, is_mid};

use control_flow::{Edge, Graph, Place};
use loop_bounds::LoopInstance;
use statement::{ApartWords, StatedLoops};

/// Where a loop is entered elsewhere than at its header.
#[derive(Clone, Copy)]
pub struct MidEntry {
    /// The edge that enters it, or None where the handler begins there.
    pub edge: Option<Edge>,
    /// The place that is entered.
    pub place: Place,
    /// The instance of the loop.
    pub instance: LoopInstance,
}

// Whether the place is a member of the instance elsewhere than at its header.
fn is_mid(apart: &ApartWords, instance: &LoopInstance, place: &Place) -> bool
    ensures { result ≡ is_mid (found_instance apart.now instance.now) place.now }
{
    instance.is_member(apart, place) && !instance.is_header(place)
}

// The first edge that leads to such a place from no member.
fn entering<'a>(graph: &'a Graph, apart: &ApartWords, instance: &LoopInstance) -> Option<&'a Edge>
    ensures { option_map (λ edge. edge.now) result
        ≡ find (enters_mid (found_instance apart.now instance.now)) graph.now.edges }
{
    let edges = graph.edges();
    edges.iter().find(|edge| {
        is_mid(apart, instance, &edge.to) && !instance.is_member(apart, &edge.from)
    })
}

// Where the instance is entered elsewhere than at its header.
fn entry_of(graph: &Graph, apart: &ApartWords, instance: LoopInstance) -> Option<MidEntry>
    ensures instance { IfSome result (λ m. m.instance ≡ instance) }
    ensures entry { IfSome result (λ m. IsMidOf graph.now (found_instance apart.now instance) m.place m.edge) }
    ensures none { IfNone result (IsRightlyEntered graph.now (found_instance apart.now instance)) }
{
    let place = graph.entry();
    if is_mid(apart, &instance, &place) {
        return Some(MidEntry {
            edge: None,
            place,
            instance,
        });
    }
    let edge = entering(graph, apart, &instance)?;
    Some(MidEntry {
        edge: Some(*edge),
        place: edge.to,
        instance,
    })
}

// The same of the instances whose header is the place.
fn entry_at(graph: &Graph, loops: &StatedLoops, header: &Place) -> Option<MidEntry>
    requires well_formed { IsWellFormed graph.now }
    requires has { Contains graph.now.places header.now }
    ensures entry { IfSome result (IsMidEntry graph.now loops.now) }
    ensures none { IfNone result (AreRightlyEntered graph.now loops.now header.now) }
{
    let Place::At(list, address) = header else {
        return None;
    };
    for stated in loops.list() {
        if stated.header != *address {
            continue;
        }
        let instance = LoopInstance {
            list: *list,
            stated: *stated,
        };
        if let Some(entry) = entry_of(graph, loops.apart(), instance) {
            return Some(entry);
        }
    }
    None
}

/// Where an instance of a loop is entered elsewhere than at its header: where the handler begins, or by an
/// edge of the graph. None where each is entered at its header alone.
pub fn mid_entry(graph: &Graph, loops: &StatedLoops) -> Option<MidEntry>
    ensures entry { IfSome result (IsMidEntry graph.now loops.now) }
    ensures none { IfNone result (HasMidEntry graph.now loops.now → ⊥) }
{
    for header in graph.places() {
        if let Some(entry) = entry_at(graph, loops, header) {
            return Some(entry);
        }
    }
    None
}
