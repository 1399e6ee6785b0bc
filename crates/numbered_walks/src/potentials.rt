ghost use Rattle.std.specs.Prelude.{◌≡◌, ◌+◌, ◌^◌, ◌<◌, ◌≤◌, ◌↔◌, ℕ, IsTrue, false, Contains};
ghost use Rattle.std.specs.Prelude.{MatchOption, MatchResult};
ghost use Rattle.numbered_walks.specs.declared.span.NumberedEdge.{NumberedEdge};
ghost use Rattle.numbered_walks.specs.Index.{IsNumberedGraph};
ghost use Rattle.numbered_walks.specs.Ordered.{IsGreatest};
ghost use Rattle.numbered_walks.specs.Tables.{total_of};
ghost use Rattle.numbered_walks.specs.Found.{AreFound, IsWalkFault};

use crate::fault::WalkFault;
use crate::graph::NumberedGraph;
use crate::pass::pass;
use crate::row::needed_in;
use crate::span::NumberedEdge;
use crate::tables::{Tables, empty_tables};
use std::alloc::Global;
use walks::COST_LIMIT;

fn is_exit_reached(edges: &[NumberedEdge], exit: usize) -> bool
    ensures { IsTrue result ↔ (e : NumberedEdge) × Contains edges.now e × (e.to ≡ exit) }
{
    edges.iter().any(|edge| edge.to == exit)
}

// What the greatest walk to the number costs; None from 2^64 on.
fn total(graph: NumberedGraph<'_>, tables: &Tables, place: usize) -> Option<u64>
    requires graph { IsNumberedGraph graph }
    requires known { place ≤ graph.exit }
    ensures { MatchOption result (2 ^ 64 ≤ total_of graph.entry.spans.now tables.now place)
        (λ n. n ≡ total_of graph.entry.spans.now tables.now place) }
{
    // An edge of no cost to Exit leaves all instances that hold the place.
    let way_out = NumberedEdge {
        from: place,
        to: graph.exit,
        cost: 0,
    };
    needed_in(graph, tables, &way_out)
}

// Whether the greatest walk to the number costs less than 2^63.
fn total_fits(graph: NumberedGraph<'_>, tables: &Tables, place: usize) -> bool
    requires graph { IsNumberedGraph graph }
    requires known { place ≤ graph.exit }
    ensures { IsTrue result ↔ total_of graph.entry.spans.now tables.now place < COST_LIMIT }
{
    match total(graph, tables, place) {
        None => false,
        Some(total) => total < COST_LIMIT,
    }
}

fn totals_fit(graph: NumberedGraph<'_>, tables: &Tables) -> bool
    requires graph { IsNumberedGraph graph }
    ensures yes { IsTrue result → (p : ℕ) → p < graph.entry.exit + 1
        → total_of graph.entry.spans.now tables.now p < COST_LIMIT }
    ensures no { result ≡ false
        → (p : ℕ) × (p < graph.entry.exit + 1)
        × (COST_LIMIT ≤ total_of graph.entry.spans.now tables.now p) }
{
    for place in 0..graph.index.holders.len() {
        if !total_fits(graph, tables, place) {
            return false;
        }
    }
    true
}

/// Finds the potentials of the greatest walk from the number 0 to Exit.
///
/// # Errors
///
/// `NoCompleteWalk` where no walk leads to Exit, else `BoundTooLarge` where a walk that keeps the bounds
/// costs 2^63 ticks or more, wherever it ends. `Memory`: an allocation failed.
pub fn find_tables(alloc: Global, graph: NumberedGraph<'_>) -> Result<Tables, WalkFault>
    requires graph { IsNumberedGraph graph }
    requires small { graph.exit < 2 ^ 32 }
    ensures { MatchResult result
        (AreFound graph.entry.exit graph.entry.edges.now graph.entry.spans.now)
        (IsWalkFault graph.entry.exit graph.entry.edges.now graph.entry.spans.now) }
{
    let exit = graph.exit;
    if !is_exit_reached(graph.edges, exit) {
        return Err(WalkFault::NoCompleteWalk);
    }
    let Ok(mut tables) = empty_tables(alloc, exit + 1) else {
        return Err(WalkFault::Memory);
    };
    if !pass(graph, &mut tables) {
        return Err(WalkFault::BoundTooLarge);
    }
    tables.bound = tables.distances[exit];
    if !totals_fit(graph, &tables) {
        return Err(WalkFault::BoundTooLarge);
    }
    Ok(tables)
}

/// The greatest cost, in ticks, of a walk from the number 0 to this one that keeps the bounds.
///
/// The tables are those that [`find_tables`] found for the graph.
pub fn greatest_cost_to(graph: NumberedGraph<'_>, tables: &Tables, place: usize) -> u64
    requires graph { IsNumberedGraph graph }
    requires found { AreFound graph.exit graph.edges.now graph.spans.now tables.now }
    requires known { place ≤ graph.exit }
    ensures { IsGreatest place graph.entry.edges.now graph.entry.spans.now result }
{
    match total(graph, tables, place) {
        Some(total) => total,
        // No walk that keeps the bounds costs 2^63.
        None => 0,
    }
}
