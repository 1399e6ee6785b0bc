ghost use Rattle.std.specs.Prelude.{◌≡◌, ◌≢◌, ◌⊎◌, Contains, IfErr, IfNone, IfOk, IfSome, MatchBool};
ghost use Rattle.control_flow.specs.Faulty.{AreSound, IsFaultyPlace};
ghost use Rattle.control_flow.specs.Graph.{IsCrowd};
ghost use Rattle.control_flow.specs.Search.{EndsOne};

use crate::building::start_of;
use crate::edges::Edge;
use crate::faults::BuildFault;
use crate::graph_inputs::GraphInputs;
use crate::places::Place;
use crate::search::{add, add_ends};
use bus_ticks::Profile;
use image::Image;
use statement::Statement;
use std::alloc::Global;
use std::collections::BTreeSet;

/// A reached place whose word keeps a handler from having a flow graph.
#[derive(Clone, Copy)]
pub struct FaultyPlace {
    pub place: Place,
    /// Why the place has no edges.
    pub fault: BuildFault,
    /// An edge from a reached place that leads there, or None where the handler begins there.
    pub edge: Option<Edge>,
}

fn is_memory(fault: BuildFault) -> bool
    ensures { MatchBool result (fault ≡ BuildFault.Memory) (fault ≢ BuildFault.Memory) }
{
    match fault {
        BuildFault::Memory => true,
        _ => false,
    }
}

// The first edge that leads to the place.
fn edge_to(edges: &[Edge], place: &Place) -> Option<Edge>
    ensures edge { IfSome result (λ edge. Contains edges.now edge × (edge.to ≡ place.now)) }
    ensures none { IfNone result (EndsOne edges.now place.now → ⊥) }
{
    for edge in edges {
        if edge.to == *place {
            return Some(*edge);
        }
    }
    None
}

/// The place at which the search of [`build`](crate::building::build) for places ends, since it has no edges.
/// None where each reached place has its edges.
///
/// # Errors
///
/// `TooManyPlaces` before such a place is found; `Memory`.
pub fn faulty_place(
    alloc: Global,
    image: &Image,
    statement: &Statement,
    profile: &Profile,
) -> Result<Option<FaultyPlace>, BuildFault>
    ensures found { IfOk result
        (λ found. IfSome found (IsFaultyPlace image.now statement.now profile.now)) }
    ensures none { IfOk result (λ found. IfNone found (AreSound image.now statement.now profile.now)) }
    ensures fault { IfErr result
        (λ fault. (fault ≡ BuildFault.Memory)
        ⊎ ((fault ≡ BuildFault.TooManyPlaces) × IsCrowd image.now statement.now profile.now)) }
{
    let inputs = GraphInputs {
        image,
        statement,
        profile,
    };
    let mut seen = BTreeSet::new(alloc);
    let mut order = Vec::new(alloc);
    // the edges of the places that were visited
    let mut walked = Vec::new(alloc);
    add(&mut seen, &mut order, &start_of(statement))?;
    let mut next = 0;
    while next < order.len() {
        let place = order[next];
        let edges = match inputs.edges_at(alloc, &place) {
            Ok(edges) => edges,
            Err(fault) => {
                if is_memory(fault) {
                    return Err(fault);
                }
                let edge = edge_to(&walked, &place);
                return Ok(Some(FaultyPlace { place, fault, edge }));
            }
        };
        add_ends(&mut seen, &mut order, &edges)?;
        walked.extend_from_slice(&edges)?;
        next += 1;
    }
    Ok(None)
}
