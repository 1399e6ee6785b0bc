ghost use Rattle.std.specs.Prelude.{◌≡◌, IfOk, map};
ghost use Rattle.std.specs.List.Sorted.{IsStrictlySortedBy};
ghost use Rattle.control_flow.specs.Places.{place_cmp};
ghost use Rattle.loop_bounds.specs.Tree.{IsTree};
ghost use Rattle.longest_walk.specs.Rows.{distance_in, header_of_row, place_of_row};
ghost use Rattle.cert_check.specs.Columns.{AreTablesOf, Ascends, arrival_in, round_in};

use crate::finding::row_about;
use certificate::{Cert, InstanceRow, PlaceRow};
use control_flow::{Graph, Place};
use loop_bounds::{LoopTree, place_in};
use numbered_walks::Tables;
use std::alloc::{AllocError, Global};

// The distance that is stated for a place, and 0 without a row.
fn distance_in(rows: &[PlaceRow], place: &Place) -> u64
    requires ascending { IsStrictlySortedBy place_cmp (map place_of_row rows.now) }
    ensures { result ≡ distance_in rows.now place.now }
{
    match row_about(rows, place) {
        Some(row) => row.distance,
        None => 0,
    }
}

// The arrival and the round that are stated for the instance with the header, and 0 without a row.
fn arrival_and_round(rows: &[InstanceRow], header: &Place) -> (u64, u64)
    requires ascending { IsStrictlySortedBy place_cmp (map header_of_row rows.now) }
    ensures arrival { result.0 ≡ arrival_in rows.now header.now }
    ensures round { result.1 ≡ round_in rows.now header.now }
{
    match row_about(rows, header) {
        Some(row) => (row.arrival, row.round),
        None => (0, 0),
    }
}

/// The numbers that the certificate states, by the numbers of the tree's order.
pub(crate) fn tables_of(
    alloc: Global,
    graph: &Graph,
    tree: &LoopTree,
    cert: &Cert,
) -> Result<Tables, AllocError>
    requires tree { IsTree graph.now tree.now }
    requires ascending { Ascends cert.now }
    ensures { IfOk result (AreTablesOf graph.now tree.now cert.now) }
{
    let size = graph.places().len();
    let mut distances = Vec::with_capacity(alloc, size)?;
    let mut arrivals = Vec::with_capacity(alloc, size)?;
    let mut rounds = Vec::with_capacity(alloc, size)?;
    for number in 0..size {
        let place = place_in(graph, tree, number);
        distances.push(distance_in(cert.places.items(), &place))?;
        let (arrival, round) = arrival_and_round(cert.instances.items(), &place);
        arrivals.push(arrival)?;
        rounds.push(round)?;
    }
    Ok(Tables {
        bound: cert.bound,
        distances,
        arrivals,
        rounds,
    })
}
