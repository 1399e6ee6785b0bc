ghost use Rattle.std.specs.Prelude.{IfOk, All};
ghost use Rattle.std.specs.List.Sorted.{IsNonDecreasingBy, IsPermutation};
ghost use Rattle.statement.specs.Stated.{IsLoop};
ghost use Rattle.loop_bounds.specs.InPositions.{AreHandlerPositions};
ghost use Rattle.loop_bounds.specs.Keys.{IsListed};
ghost use Rattle.loop_bounds.specs.Nest.{HasSharedHeader};

use crate::extents::{Extent, extents};
use crate::loop_instances::{LoopInstance, instances_among};
use crate::numbering::{number_edges, position_of};
use control_flow::{Graph, Place};
use numbered_walks::NumberedEdge;
use statement::{Loop, StatedLoops};
use std::alloc::{AllocError, Global};

/// A handler's places by key, its instances with their extents, and its edges and its entry between
/// positions.
#[derive(Drop)]
pub(crate) struct HandlerPositions {
    pub listed: Vec<Place>,
    pub found: Vec<LoopInstance>,
    pub extents: Vec<Extent>,
    pub edges: Vec<NumberedEdge>,
    pub entry: usize,
}

/// Finds the instances of the loops, which are ascending by header.
pub(crate) fn find_positions(
    alloc: Global,
    graph: &Graph,
    listed: Vec<Place>,
    sorted: &[Loop],
    loops: &StatedLoops,
) -> Result<HandlerPositions, AllocError>
    requires listed { IsListed loops.now.apart graph.now.places listed.items }
    requires moved { IsPermutation loops.now.list sorted.now }
    requires ascending { IsNonDecreasingBy (λ l. l.header) sorted.now }
    requires stated { All (IsLoop loops.now.apart) loops.now.list }
    requires apart { HasSharedHeader loops.now.list → ⊥ }
    ensures { IfOk result (AreHandlerPositions graph.now loops.now) }
{
    let apart = loops.apart();
    let found = instances_among(alloc, sorted, graph.places())?;
    let extents = extents(alloc, apart, &listed, &found)?;
    let edges = number_edges(alloc, apart, graph, &listed)?;
    let entry = position_of(apart, &listed, &graph.entry());
    Ok(HandlerPositions {
        listed,
        found,
        extents,
        edges,
        entry,
    })
}
