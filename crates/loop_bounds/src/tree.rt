ghost use Rattle.std.specs.Prelude.{◌≡◌, ◌≢◌, ◌↔◌, ◌<◌, All, Contains, IfOk, OnOk, IfErr, List, length, map};
ghost use Rattle.control_flow.specs.Flow.{IsEdgeRange};
ghost use Rattle.statement.specs.Stated.{IsLoop};
ghost use Rattle.loop_bounds.specs.Extents.{found_instance};
ghost use Rattle.loop_bounds.specs.InPositions.{AreHandlerPositions, IsNesting};
ghost use Rattle.loop_bounds.specs.Keys.{IsListed};
ghost use Rattle.loop_bounds.specs.Layout.{AreParted};
ghost use Rattle.loop_bounds.specs.Tree.{IsTree, end_edge, first_edge, place_in};
ghost use Rattle.loop_bounds.specs.Instance.{Instance, IsInstance};
ghost use Rattle.loop_bounds.specs.Nest.{Applies, HasSharedHeader, IsNestFault};

use crate::crossing::have_crossing;
use crate::fault::NestFault;
use crate::handler_positions::{HandlerPositions, find_positions};
use crate::layout::{indexes, numbers, order, renumbered, spans};
use crate::loop_instances::{LoopInstance, by_header, shares_header};
use crate::nesting::{Nesting, nest_extents};
use crate::numbering::listed;
use control_flow::{Graph, Place};
use numbered_walks::{NumberedEdge, Span};
use statement::{ApartStretch, StatedLoops, Statement};
use std::alloc::{AllocError, Global};
use std::marker::Model;

/// The loops of a flow graph: the instances with their spans, and the graph's edges between the numbers of an
/// order in which each instance is an interval.
#[derive(Drop)]
pub struct LoopTree {
    instances: Vec<LoopInstance>,
    spans: Vec<Span>,
    order: Vec<usize>,
    edges: Vec<NumberedEdge>,
    // the words that are apart from the loops
    apart: Vec<ApartStretch>,
}

impl Model for LoopTree {
    ghost use Rattle.loop_bounds.specs.Tree.{Tree};

    ghost Value = { Tree };

    ghost use Rattle.loop_bounds.specs.TreeParts.{tree_of};

    ghost view = { tree_of };
}

impl LoopTree {
    /// For each number the index of its place among the graph's places; Exit, the last, has their number.
    pub fn order(&self) -> &[usize]
        ensures { result.now ≡ self.now.order }
    {
        &self.order
    }

    /// The graph's edges in its order, between numbers.
    pub fn edges(&self) -> &[NumberedEdge]
        ensures { result.now ≡ self.now.edges }
    {
        &self.edges
    }

    /// The instances, the inner ones before the outer ones.
    pub fn instances(&self) -> &[LoopInstance]
        ensures { map (found_instance self.now.apart) result.now ≡ self.now.instances }
    {
        &self.instances
    }

    /// The instances' spans, in the order of the instances.
    pub fn spans(&self) -> &[Span]
        ensures { result.now ≡ self.now.spans }
    {
        &self.spans
    }
}

/// The place of a number in the order of the graph's tree; Exit past the end.
pub fn place_in(graph: &Graph, tree: &LoopTree, number: usize) -> Place
    ensures { result ≡ place_in graph.now tree.now number }
{
    let places = graph.places();
    let at = tree.order().get(number).copied().unwrap_or(places.len());
    places.get(at).copied().unwrap_or(Place::Exit)
}

/// Where the edges that leave the place of a number in the order of the graph's tree begin among the graph's
/// edges, and where they end.
pub fn edge_range_in(graph: &Graph, tree: &LoopTree, number: usize) -> (usize, usize)
    requires tree { IsTree graph.now tree.now }
    requires known { number < length graph.now.places }
    ensures range { IsEdgeRange graph.now (place_in graph.now tree.now number) result.0 result.1 }
    ensures first { result.0 ≡ first_edge graph.now tree.now number }
    ensures end { result.1 ≡ end_edge graph.now tree.now number }
{
    graph.edge_range(tree.order()[number])
}

// The instances in the order of their spans, with these.
fn in_closing_order(
    alloc: Global,
    found: &[LoopInstance],
    closing: &[(Span, usize)],
) -> Result<(Vec<LoopInstance>, Vec<Span>), AllocError>
    requires { All (λ x. x.1 < length found.now) closing.now }
    ensures { IfOk result
        (λ parts. AreParted found.now closing.now parts.0.items parts.1.items (length closing.now)) }
{
    let mut instances = Vec::with_capacity(alloc, closing.len())?;
    let mut spans = Vec::with_capacity(alloc, closing.len())?;
    for (span, instance) in closing {
        instances.push(found[*instance])?;
        spans.push(*span)?;
    }
    Ok((instances, spans))
}

// The tree of what was found.
fn laid_out(
    alloc: Global,
    graph: &Graph,
    loops: &StatedLoops,
    positions: &HandlerPositions,
    nesting: &Nesting,
) -> Result<LoopTree, AllocError>
    requires positions { AreHandlerPositions graph.now loops.now positions.now }
    requires nesting { IsNesting (length graph.now.places) positions.now.edges.items positions.now.entry
        positions.now.extents.items nesting.now }
    ensures tree { IfOk result (IsTree graph.now) }
    ensures instances { IfOk result
        (λ tree. (i : Instance) → Contains tree.instances i
        ↔ Contains (map (found_instance loops.now.apart) positions.now.found.items) i) }
    ensures apart { IfOk result (λ tree. tree.apart ≡ loops.now.apart) }
{
    let places = graph.places();
    let exit = places.len();
    let order = order(alloc, &positions.extents, nesting, exit)?;
    let numbers = numbers(alloc, &order)?;
    let closing = spans(alloc, &positions.extents, &positions.found, &numbers)?;
    let (instances, spans) = in_closing_order(alloc, &positions.found, &closing)?;
    Ok(LoopTree {
        instances,
        spans,
        order: indexes(alloc, places, &positions.listed, &order)?,
        edges: renumbered(alloc, &positions.edges, &numbers)?,
        apart: Vec::from_slice(alloc, loops.apart().stretches())?,
    })
}

// Why loops of which two have one header are refused.
fn shared_fault(
    alloc: Global,
    graph: &Graph,
    listed: &[Place],
    loops: &StatedLoops,
) -> Result<NestFault, AllocError>
    requires listed { IsListed loops.now.apart graph.now.places listed.now }
    requires stated { All (IsLoop loops.now.apart) loops.now.list }
    requires shared { HasSharedHeader loops.now.list }
    ensures { IfOk result (IsNestFault graph.now loops.now) }
{
    if have_crossing(alloc, graph, listed, loops)? {
        Ok(NestFault::LoopsCross)
    } else {
        Ok(NestFault::SharedHeader)
    }
}

/// Reads the loops of a handler's graph, by its statement.
///
/// # Errors
///
/// Of `LoopsCross`, `SharedHeader`, `EntersMidLoop`, `UnboundedCycle` and `NestedTooDeep` the first that
/// applies, and `Memory` where an allocation failed.
pub fn nest(alloc: Global, graph: &Graph, statement: &Statement) -> Result<LoopTree, NestFault>
    ensures instances { IfOk result
        (λ tree. (i : Instance) → Contains tree.instances i ↔ IsInstance graph.now statement.now.loops i) }
    ensures tree { IfOk result (IsTree graph.now) }
    ensures apart { IfOk result (λ tree. tree.apart ≡ statement.now.loops.apart) }
    ensures allowed { OnOk result
        ((fault : NestFault) → fault ≢ NestFault.Memory → Applies graph.now statement.now.loops fault → ⊥) }
    ensures fault { IfErr result (IsNestFault graph.now statement.now.loops) }
{
    let places = graph.places();
    let loops = statement.loops();
    let list = loops.list();
    let listed = listed(alloc, loops.apart(), places)?;
    let sorted = by_header(alloc, list)?;
    if shares_header(alloc, list)? {
        return Err(shared_fault(alloc, graph, &listed, loops)?);
    }
    let positions = find_positions(alloc, graph, listed, &sorted, loops)?;
    let nesting = nest_extents(
        alloc,
        &positions.extents,
        &positions.edges,
        positions.entry,
        places.len(),
    )?;
    Ok(laid_out(alloc, graph, loops, &positions, &nesting)?)
}
