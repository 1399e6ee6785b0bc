ghost use Rattle.std.specs.Prelude.{◌≡◌, ◌↔◌, ◌+◌, ◌<◌, IfOk, IsTrue, All, Contains};
ghost use Rattle.statement.specs.Stated.{IsLoop};
ghost use Rattle.control_flow.specs.declared.places.Place.TheVariants.{At};
ghost use Rattle.loop_bounds.specs.Keys.{AreByKey};
ghost use Rattle.loop_bounds.specs.Extents.{AreExtents, AreExtentsOf, IsExtentOf, IsWithin, found_instance};

use crate::loop_instances::LoopInstance;
use crate::numbering::point;
use control_flow::Place;
use statement::ApartWords;
use std::alloc::{AllocError, Global};
use std::cmp::Reverse;

/// The positions of an instance's members in the order of keys: from `first` up to, and without, `end`.
#[derive(Clone, Copy)]
pub(crate) struct Extent {
    pub first: usize,
    pub end: usize,
    // the header's position
    pub header: usize,
    // the instance's index among those that were found
    pub instance: usize,
}

impl Extent {
    /// Whether the position is a member's.
    pub(crate) fn holds(&self, position: usize) -> bool
        ensures { IsTrue result ↔ IsWithin self.now position }
    {
        self.first <= position && position < self.end
    }
}

// The extent of an instance.
fn extent_of(apart: &ApartWords, listed: &[Place], found: &LoopInstance, instance: usize) -> Extent
    requires listed { AreByKey apart.now listed.now }
    requires stated { IsLoop apart.now found.now.stated }
    requires reached { Contains listed.now (At found.now.list found.now.stated.header) }
    ensures is { IsExtentOf listed.now (found_instance apart.now found.now) result }
    ensures named { result.instance ≡ instance }
    ensures some { result.first < result.end }
{
    Extent {
        first: point(apart, listed, found.list, apart.lies_at(found.stated.first)),
        end: point(
            apart,
            listed,
            found.list,
            apart.lies_at(found.stated.last) + 1,
        ),
        header: point(
            apart,
            listed,
            found.list,
            apart.lies_at(found.stated.header),
        ),
        instance,
    }
}

/// The extents of instances, in order.
pub(crate) fn extents(
    alloc: Global,
    apart: &ApartWords,
    listed: &[Place],
    found: &[LoopInstance],
) -> Result<Vec<Extent>, AllocError>
    requires listed { AreByKey apart.now listed.now }
    requires stated { All (λ f. IsLoop apart.now f.stated) found.now }
    requires reached { All (λ f. Contains listed.now (At f.list f.stated.header)) found.now }
    ensures of { IfOk result (λ extents. AreExtentsOf apart.now listed.now found.now extents.items) }
    ensures ordered { IfOk result (λ extents. AreExtents extents.items) }
{
    let mut extents = Vec::with_capacity(alloc, found.len())?;
    for (instance, one) in found.iter().enumerate() {
        extents.push(extent_of(apart, listed, one, instance))?;
    }
    extents.sort_unstable_by_key(|extent| (extent.first, Reverse(extent.end)));
    Ok(extents)
}
