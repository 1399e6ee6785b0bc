ghost use Rattle.std.specs.Prelude.{IfNone, IfOk, IfSome};
ghost use Rattle.loop_bounds.specs.Nest.{HasUnboundedCycle};
ghost use Rattle.text_refusals.specs.Cycles.{IsCycleOf, IsOnceRound};

use crate::search::CycleSearch;
use control_flow::{Edge, Graph};
use statement::StatedLoops;
use std::alloc::{AllocError, Global};

/// The edges of a cycle of the graph that is a back edge of no instance of the loops, in their order from the
/// place to which the handler comes first, or None where there is none. It goes round once, and so comes to
/// no other place twice.
///
/// That the cycle begins at that place is tested only.
///
/// # Errors
///
/// An allocation failed.
pub fn unbounded_cycle(
    alloc: Global,
    graph: &Graph,
    loops: &StatedLoops,
) -> Result<Option<Vec<Edge>>, AllocError>
    ensures cycle { IfOk result
        (λ found. IfSome found (λ cycle. IsCycleOf graph.now loops.now cycle.items)) }
    ensures once { IfOk result (λ found. IfSome found (λ cycle. IsOnceRound cycle.items)) }
    ensures none { IfOk result (λ found. IfNone found (HasUnboundedCycle graph.now loops.now → ⊥)) }
{
    let mut search = CycleSearch::new(alloc, graph)?;
    let found = search.visit(alloc, graph, loops, &graph.entry())?;
    if found.is_some() {
        return Ok(found);
    }
    for root in graph.places() {
        let found = search.visit(alloc, graph, loops, root)?;
        if found.is_some() {
            return Ok(found);
        }
    }
    Ok(None)
}
