ghost use Rattle.std.specs.Prelude.{IfErr, IfOk};
ghost use Rattle.loop_bounds.specs.Tree.{IsTree};
ghost use Rattle.longest_walk.specs.Longest.{IsWalkFault};
ghost use Rattle.longest_walk.specs.Starts.{AreWorstStarts};

use crate::greatest::numbers_of_walk;
use crate::listing::numbers;
use control_flow::Graph;
use loop_bounds::LoopTree;
use numbered_walks::{NumberedGraph, WalkFault, greatest_cost_to};
use std::alloc::Global;

/// The worst time until each place of a graph begins, in ticks from the beginning of the handler, by the
/// place's index: the greatest cost of a walk from the entry to it that keeps the bounds of the loops.
///
/// The tree is the one that `nest` returned for the graph. The call takes time linear in the edges and
/// places, times the nesting of loops.
///
/// # Errors
///
/// Those of [`longest`](crate::longest), where it has them.
pub fn worst_starts(alloc: Global, graph: &Graph, tree: &LoopTree) -> Result<Vec<u64>, WalkFault>
    requires { IsTree graph.now tree.now }
    ensures starts { IfOk result (λ starts. AreWorstStarts graph.now tree.now starts.items) }
    ensures fault { IfErr result (IsWalkFault graph.now tree.now) }
{
    let (index, tables) = numbers_of_walk(alloc, graph, tree)?;
    let numbers = numbers(alloc, graph, tree)?;
    let exit = graph.places().len();
    let numbered = NumberedGraph {
        edges: tree.edges(),
        spans: tree.spans(),
        exit,
        index: &index,
    };
    let mut starts = Vec::with_capacity(alloc, exit)?;
    for place in 0..exit {
        starts.push(greatest_cost_to(numbered, &tables, numbers[place]))?;
    }
    Ok(starts)
}
