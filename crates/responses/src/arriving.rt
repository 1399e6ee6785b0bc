//! How late a walk first comes to an address, and how long a step there takes.

ghost use Rattle.std.specs.Prelude.{◌≡◌, ◌<◌, ◌↔◌, Contains, IfErr, IfOk, IsTrue};
ghost use Rattle.std.specs.Option.{IfSome};
ghost use Rattle.walks.specs.declared.limits.TheConstants.{COST_LIMIT};
ghost use Rattle.numbered_walks.specs.declared.span.NumberedEdge.{NumberedEdge};
ghost use Rattle.loop_bounds.specs.Handler.{HasItsTree};
ghost use Rattle.longest_walk.specs.Longest.{IsWalkFault};
ghost use Rattle.responses.specs.Arriving.{greater};
ghost use Rattle.responses.specs.Response.{IsWorstArrival, IsWorstStepAt};

use crate::ways::{cut_edges, greatest_along, is_at, ways_of};
use control_flow::Graph;
use loop_bounds::Handler;
use numbered_walks::{NumberedEdge, WalkFault};
use std::alloc::Global;

fn is_exit_reached(edges: &[NumberedEdge], exit: usize) -> bool
    ensures { IsTrue result ↔ (e : NumberedEdge) × Contains edges.now e × (e.to ≡ exit) }
{
    edges.iter().any(|edge| edge.to == exit)
}

/// The greatest ticks, from the handler's beginning, after which a walk comes to an address for the first
/// time; None where none comes there.
///
/// The call takes time linear in the edges and places, times the nesting of loops.
///
/// # Errors
///
/// One of [`longest`](longest_walk::longest), where the handler has it.
pub fn worst_arrival(
    alloc: Global,
    handler: &Handler<'_>,
    address: u32,
) -> Result<Option<u64>, WalkFault>
    requires { HasItsTree handler.now }
    ensures arrival { IfOk result
        (IsWorstArrival handler.now.graph handler.now.statement.loops address) }
    ensures small { IfOk result (λ arrival. IfSome arrival (λ ticks. ticks < COST_LIMIT)) }
    ensures fault { IfErr result (IsWalkFault handler.now.graph handler.now.tree) }
{
    let graph = &handler.graph;
    let tree = &handler.tree;
    let exit = graph.places().len();
    if !is_exit_reached(tree.edges(), exit) {
        return Err(WalkFault::NoCompleteWalk);
    }
    let ways = ways_of(alloc, graph, tree, address)?;
    let edges = cut_edges(alloc, exit, &ways, tree.edges())?;
    greatest_along(alloc, &edges, tree.spans(), &ways)
}

/// The greatest ticks of a step at an address of the graph; None where no place of it is there.
pub fn worst_step_at(graph: &Graph, address: u32) -> Option<u32>
    ensures { IsWorstStepAt graph.now address result }
{
    let mut worst = None;
    for edge in graph.edges() {
        if is_at(address, edge.from) {
            worst = greater_step(worst, edge.cost);
        }
    }
    worst
}

// The greater of the two, or the one.
fn greater_step(worst: Option<u32>, ticks: u32) -> Option<u32>
    ensures { result ≡ greater worst ticks }
{
    match worst {
        None => Some(ticks),
        Some(own) => Some(own.max(ticks)),
    }
}
