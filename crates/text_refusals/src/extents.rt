ghost use Rattle.std.specs.Prelude.{◌≡◌, IfNone, IfSome};
ghost use Rattle.control_flow.specs.declared.places.Place.TheVariants.{At};
ghost use Rattle.text_refusals.specs.Extents.{HasNoStart, IsExtentOf, WidensTo};

use crate::members::are_same;
use control_flow::{Calls, Edge, Place};

/// A loop as a statement has it, but for its bound.
#[derive(Clone, Copy)]
pub struct CycleExtent {
    /// The address of its header.
    pub header: u32,
    /// The least address of its members in the header's routine.
    pub first: u32,
    /// The greatest.
    pub last: u32,
}

// The extent with an address.
fn with_address(extent: CycleExtent, address: u32) -> CycleExtent
    ensures { WidensTo (λ a. a ≡ address) extent result }
{
    CycleExtent {
        header: extent.header,
        first: extent.first.min(address),
        last: extent.last.max(address),
    }
}

// The extent with the place's address, if the place has the list of calls.
fn widened(extent: CycleExtent, list: Calls, place: &Place) -> CycleExtent
    ensures { WidensTo (λ a. place.now ≡ At list a) extent result }
{
    let Place::At(calls, address) = place else {
        return extent;
    };
    if are_same(*calls, list) {
        return with_address(extent, *address);
    }
    extent
}

/// The extent of a cycle, whose header is its first place. None where it has no edge, or begins at Exit.
pub fn extent_of(cycle: &[Edge]) -> Option<CycleExtent>
    ensures extent { IfSome result (λ extent. IsExtentOf cycle.now extent) }
    ensures none { IfNone result (HasNoStart cycle.now) }
{
    let start = cycle.first()?;
    let Place::At(list, header) = start.from else {
        return None;
    };
    let mut extent = CycleExtent {
        header,
        first: header,
        last: header,
    };
    for edge in cycle {
        extent = widened(extent, list, &edge.from);
    }
    Some(extent)
}
