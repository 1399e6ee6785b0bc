ghost use Rattle.std.specs.Prelude.{Contains, IfOk, MatchOption, map};
ghost use Rattle.std.specs.List.Sorted.{IsSorted};
ghost use Rattle.control_flow.specs.Places.{place_cmp};
ghost use Rattle.longest_walk.specs.Rows.{header_of, header_of_row, place_of_row};
ghost use Rattle.cert_check.specs.Columns.{Ascends};
ghost use Rattle.cert_check.specs.Failing.{IsFirstFailing, IsFirstWithout};
ghost use Rattle.cert_check.specs.Verdict.{HasAll, presence_objections};

use crate::failing::FailingRow;
use crate::presence::{has_its_prices, is_among, places_of, sorted_headers};
use certificate::Cert;
use control_flow::{Graph, Place};
use loop_bounds::LoopTree;
use std::alloc::{AllocError, Global};

// The first place that is wanted and not there.
fn first_without(wanted: &[Place], given: &[Place]) -> Option<Place>
    requires ascending { IsSorted place_cmp given.now }
    ensures { MatchOption result (HasAll wanted.now given.now)
        (IsFirstWithout (Contains given.now) wanted.now) }
{
    for place in wanted {
        if !is_among(given, place) {
            return Some(*place);
        }
    }
    None
}

// The first place without a row.
fn place_without_row(alloc: Global, graph: &Graph, cert: &Cert) -> Result<Option<Place>, AllocError>
    requires ascending { Ascends cert.now }
    ensures { IfOk result
        (λ found. MatchOption found (HasAll graph.now.places (map place_of_row cert.now.places))
        (IsFirstWithout (Contains (map place_of_row cert.now.places)) graph.now.places)) }
{
    let rows = places_of(alloc, cert.places.items())?;
    Ok(first_without(graph.places(), &rows))
}

// The header of the first instance without a row.
fn instance_without_row(
    alloc: Global,
    tree: &LoopTree,
    cert: &Cert,
) -> Result<Option<Place>, AllocError>
    requires ascending { Ascends cert.now }
    ensures { IfOk result
        (λ found. MatchOption found
        (HasAll (map header_of tree.now.instances) (map header_of_row cert.now.instances))
        (IsFirstWithout (Contains (map header_of_row cert.now.instances))
        (map header_of tree.now.instances))) }
{
    let instances = places_of(alloc, tree.instances())?;
    let rows = places_of(alloc, cert.instances.items())?;
    Ok(first_without(&instances, &rows))
}

// What the first row is about that is about no place.
fn row_without_place(alloc: Global, graph: &Graph, cert: &Cert) -> Result<Option<Place>, AllocError>
    ensures { IfOk result
        (λ found. MatchOption found (HasAll (map place_of_row cert.now.places) graph.now.places)
        (IsFirstWithout (Contains graph.now.places) (map place_of_row cert.now.places))) }
{
    let rows = places_of(alloc, cert.places.items())?;
    Ok(first_without(&rows, graph.places()))
}

// The header that the first row is about that is about no instance.
fn row_without_instance(
    alloc: Global,
    tree: &LoopTree,
    cert: &Cert,
) -> Result<Option<Place>, AllocError>
    ensures { IfOk result
        (λ found. MatchOption found
        (HasAll (map header_of_row cert.now.instances) (map header_of tree.now.instances))
        (IsFirstWithout (Contains (map header_of tree.now.instances))
        (map header_of_row cert.now.instances))) }
{
    let instances = sorted_headers(alloc, tree)?;
    let rows = places_of(alloc, cert.instances.items())?;
    Ok(first_without(&rows, &instances))
}

/// The prices, or what has no row, or the row about nothing: what fails first of these.
pub(crate) fn failing_presence(
    alloc: Global,
    graph: &Graph,
    tree: &LoopTree,
    cert: &Cert,
) -> Result<Option<FailingRow>, AllocError>
    requires ascending { Ascends cert.now }
    ensures { IfOk result (IsFirstFailing graph.now tree.now cert.now presence_objections) }
{
    let priced = has_its_prices(cert, graph);
    if !priced {
        return Ok(Some(FailingRow::WrongProfile));
    }
    if let Some(place) = place_without_row(alloc, graph, cert)? {
        return Ok(Some(FailingRow::MissingPlace(place)));
    }
    if let Some(header) = instance_without_row(alloc, tree, cert)? {
        return Ok(Some(FailingRow::MissingInstance(header)));
    }
    if let Some(place) = row_without_place(alloc, graph, cert)? {
        return Ok(Some(FailingRow::ExtraPlace(place)));
    }
    if let Some(header) = row_without_instance(alloc, tree, cert)? {
        return Ok(Some(FailingRow::ExtraInstance(header)));
    }
    Ok(None)
}
