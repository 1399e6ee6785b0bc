ghost use Rattle.std.specs.Prelude.{◌≡◌, ◌≢◌, OnOk, IfErr, IfOk};
ghost use Rattle.control_flow.specs.Graph.{ArePlaces, IsBuildFault, IsFlowGraph, start_of};
ghost use Rattle.control_flow.specs.Search.{AreInTurn, IsAllowed, IsTurnFault, places_in};
ghost use Rattle.control_flow.specs.declared.faults.BuildFault.{BuildFault};

use crate::call_list::Calls;
use crate::edges::Edge;
use crate::faults::BuildFault;
use crate::graph::Graph;
use crate::graph_inputs::GraphInputs;
use crate::places::Place;
use crate::search::{add, add_ends, sorted};
use crate::strays::stray_target;
use bus_ticks::Profile;
use image::Image;
use statement::{Statement, statements_are_stated};
use std::alloc::Global;
use std::cmp::Reverse;
use std::collections::BTreeSet;

/// Where a walk starts.
pub(crate) fn start_of(statement: &Statement) -> Place
    ensures value { result ≡ start_of statement.now }
{
    Place::At(Calls::new(), statement.entry())
}

// Finds the places. The list grows at its end while its next place is visited, so each is visited once.
fn explore(alloc: Global, inputs: &GraphInputs) -> Result<BTreeSet<Reverse<Place>>, BuildFault>
    ensures places { IfOk result
        (λ seen. ArePlaces inputs.now.image.now inputs.now.statement.now inputs.now.profile.now
        (places_in seen)) }
    ensures allowed { IfOk result
        (λ seen. IsAllowed inputs.now.image.now inputs.now.statement.now inputs.now.profile.now
        (places_in seen)) }
    ensures fault { IfErr result
        (IsBuildFault inputs.now.image.now inputs.now.statement.now inputs.now.profile.now) }
{
    let mut seen = BTreeSet::new(alloc);
    let mut order = Vec::new(alloc);
    let mut edges = Vec::new(alloc);
    add(&mut seen, &mut order, &start_of(inputs.statement))?;
    let mut next = 0;
    while next < order.len() {
        let place = order[next];
        edges.clear();
        inputs.push_edges(&mut edges, &place)?;
        add_ends(&mut seen, &mut order, &edges)?;
        next += 1;
    }
    Ok(seen)
}

// The edges of each place in turn, and where those of each begin.
fn edges_in_turn(
    alloc: Global,
    inputs: &GraphInputs,
    places: &[Place],
) -> Result<(Vec<Edge>, Vec<usize>), BuildFault>
    ensures turn { IfOk result
        (λ made. AreInTurn inputs.now.image.now inputs.now.statement.now inputs.now.profile.now
        places.now made.0.items made.1.items) }
    ensures fault { IfErr result
        (IsTurnFault inputs.now.image.now inputs.now.statement.now places.now) }
{
    let mut edges = Vec::new(alloc);
    let mut firsts = Vec::new(alloc);
    for place in places {
        firsts.push(edges.len())?;
        inputs.push_edges(&mut edges, place)?;
    }
    firsts.push(edges.len())?;
    Ok((edges, firsts))
}

/// The flow graph of a handler: the places that are reached from its entry, and their edges.
///
/// # Errors
///
/// Any refusal of [`BuildFault`] whose condition holds may be answered; `Memory` only where an allocation
/// failed.
pub fn build(
    alloc: Global,
    image: &Image,
    statement: &Statement,
    profile: &Profile,
) -> Result<Graph, BuildFault>
    ensures graph { IfOk result (IsFlowGraph image.now statement.now profile.now) }
    ensures allowed { OnOk result
        ((fault : BuildFault) → fault ≢ BuildFault.Memory
        → IsBuildFault image.now statement.now profile.now fault → ⊥) }
    ensures fault { IfErr result (IsBuildFault image.now statement.now profile.now) }
{
    if let Some(address) = stray_target(image, statement) {
        return Err(BuildFault::TargetNotWriter(address));
    }
    let inputs = GraphInputs {
        image,
        statement,
        profile,
    };
    let seen = explore(alloc, &inputs)?;
    let places = sorted(alloc, &seen)?;
    let (edges, firsts) = edges_in_turn(alloc, &inputs, &places)?;
    statements_are_stated(statement);
    Ok(Graph {
        entry: start_of(statement),
        places,
        edges,
        firsts,
        profile: *profile,
    })
}
