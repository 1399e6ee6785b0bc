ghost use Rattle.std.specs.Prelude.{◌≡◌, ◌+◌, ◌<◌, IfOk, length};
ghost use Rattle.numbered_walks.specs.Tables.{HasRoom, arrival_of, round_of};
ghost use Rattle.loop_bounds.specs.Extents.{header_place};
ghost use Rattle.loop_bounds.specs.Layout.{AreNumbers};
ghost use Rattle.loop_bounds.specs.Tree.{IsTree};
ghost use Rattle.longest_walk.specs.Built.{AreInstanceRowsAt, ArePlaceRowsAt};
ghost use Rattle.longest_walk.specs.Rows.{header_of_row};

use crate::rows::{InstanceRow, PlaceRow};
use control_flow::{Graph, Place, order_of_places};
use loop_bounds::{LoopInstance, LoopTree};
use numbered_walks::{ItemList, Span, Tables};
use std::alloc::{AllocError, Global};

/// The number of each place, by its index among the places.
pub(crate) fn numbers(
    alloc: Global,
    graph: &Graph,
    tree: &LoopTree,
) -> Result<Vec<usize>, AllocError>
    requires { IsTree graph.now tree.now }
    ensures { IfOk result (λ numbers. AreNumbers tree.now.order numbers.items (length tree.now.order)) }
{
    let mut numbers = vec![in alloc; 0; tree.order().len()]?;
    for (number, index) in tree.order().iter().enumerate() {
        numbers[*index] = number;
    }
    Ok(numbers)
}

/// The distance of each place, in the order of places.
pub(crate) fn place_rows(
    alloc: Global,
    graph: &Graph,
    tree: &LoopTree,
    tables: &Tables,
) -> Result<ItemList<PlaceRow>, AllocError>
    requires tree { IsTree graph.now tree.now }
    requires room { HasRoom (length graph.now.places + 1) tables.now }
    ensures { IfOk result (ArePlaceRowsAt graph.now tree.now tables.now) }
{
    let numbers = numbers(alloc, graph, tree)?;
    let places = graph.places();
    let mut rows = Vec::with_capacity(alloc, places.len())?;
    for index in 0..places.len() {
        // No place of a graph is Exit.
        let Place::At(list, address) = places[index] else {
            continue;
        };
        let distance = tables.distances[numbers[index]];
        rows.push(PlaceRow {
            list,
            address,
            distance,
        })?;
    }
    Ok(ItemList::of(rows))
}

// The row of an instance.
fn instance_row(found: &LoopInstance, span: &Span, tables: &Tables) -> InstanceRow
    requires arrivals { span.now.header < length tables.now.arrivals.items }
    requires rounds { span.now.header < length tables.now.rounds.items }
    ensures header { header_of_row result ≡ header_place found.now }
    ensures arrival { result.arrival ≡ arrival_of tables.now span.now }
    ensures round { result.round ≡ round_of tables.now span.now }
{
    InstanceRow {
        list: found.list,
        header: found.stated.header,
        arrival: tables.arrivals[span.header],
        round: tables.rounds[span.header],
    }
}

/// The arrival and the round of each instance, ascending by header.
pub(crate) fn instance_rows(
    alloc: Global,
    graph: &Graph,
    tree: &LoopTree,
    tables: &Tables,
) -> Result<ItemList<InstanceRow>, AllocError>
    requires tree { IsTree graph.now tree.now }
    requires room { HasRoom (length graph.now.places + 1) tables.now }
    ensures { IfOk result (AreInstanceRowsAt tree.now tables.now) }
{
    order_of_places();
    let found = tree.instances();
    let spans = tree.spans();
    let mut rows = Vec::with_capacity(alloc, found.len())?;
    for index in 0..found.len() {
        rows.push(instance_row(&found[index], &spans[index], tables))?;
    }
    rows.sort_unstable_by_key(|row| Place::At(row.list, row.header));
    Ok(ItemList::of(rows))
}
