ghost use Rattle.std.specs.Prelude.{◌≡◌, ◌+◌, ◌*◌, ◌<◌, ◌^◌, [], ◌∷◌, All, IfOk, length, ℕ};
ghost use Rattle.control_flow.specs.Flow.{HasEdge, edge_shape};
ghost use Rattle.loop_bounds.specs.Tree.{Tree};
ghost use Rattle.longest_walk.specs.Folded.{open_item, unfolded};
ghost use Rattle.longest_walk.specs.Longest.{IsWalkOf};
ghost use Rattle.walks.specs.Walk.{cost_of};
ghost use Rattle.walk_counts.specs.Counts.{AreCounts, AreExact, Counts, capped, counted_cost};

use crate::numbers::edge_number;
use control_flow::{Edge, Graph};
use longest_walk::{FoldedWalk, Item};
use std::alloc::{AllocError, Global};

/// A sum, capped at 2^64 - 1.
pub fn capped_sum(count: u64, more: u64) -> u64
    ensures { result ≡ capped (count + more) }
{
    count.saturating_add(more)
}

/// A product, capped at 2^64 - 1.
pub fn capped_product(times: u64, rounds: u32) -> u64
    ensures { result ≡ capped (times * rounds) }
{
    times.saturating_mul(u64::from(rounds))
}

// Counts an edge so many times.
fn count_edge(graph: &Graph, counts: &mut [u64], edge: &Edge, times: u64)
    requires { length counts.old ≡ length graph.now.edges }
    ensures { Counts graph.now.edges (edge.now ∷ []) times counts.old counts.new }
{
    let Some(number) = edge_number(graph, edge) else {
        return;
    };
    counts[number] = capped_sum(counts[number], times);
}

// Counts the edges of an item so many times.
#[cycle(walk)]
fn count_item(graph: &Graph, counts: &mut [u64], item: &Item, times: u64)
    requires { length counts.old ≡ length graph.now.edges }
    ensures { Counts graph.now.edges (open_item item.now).walk times counts.old counts.new }
{
    match item {
        Item::Step(edge) => count_edge(graph, counts, edge, times),
        Item::Repeat(rounds, body) => {
            count_items(graph, counts, body, capped_product(times, *rounds));
        }
    }
}

// Counts the edges of items so many times. A body is gone through once, however often it is taken.
#[cycle(walk)]
fn count_items(graph: &Graph, counts: &mut [u64], items: &[Item], times: u64)
    requires { length counts.old ≡ length graph.now.edges }
    ensures { Counts graph.now.edges (unfolded items.now) times counts.old counts.new }
{
    for item in items {
        count_item(graph, counts, item, times);
    }
}

/// How often the walk takes each edge of the graph, in the order of `graph.edges()`, capped at 2^64 - 1.
/// Where the graph has an edge twice, the first has all. Edges that the graph has not count nowhere.
///
/// The time is linear in the walk as it is folded. Of a walk of the graph that costs less than 2^64 ticks, as
/// a greatest walk does, the counts are exact, and each by its edge's cost they add up to the walk's cost.
///
/// # Errors
///
/// An allocation failed.
pub fn edge_counts(alloc: Global, graph: &Graph, walk: &FoldedWalk) -> Result<Vec<u64>, AllocError>
    ensures counts { IfOk result
        (λ counts. AreCounts graph.now.edges (unfolded walk.now) counts.items) }
    ensures exact { IfOk result
        (λ counts. All (HasEdge graph.now) (unfolded walk.now)
        → cost_of edge_shape (unfolded walk.now) < 2 ^ 64
        → AreExact graph.now.edges (unfolded walk.now) counts.items) }
    ensures total { IfOk result
        (λ counts. (tree : Tree) (cost : ℕ) → IsWalkOf graph.now tree cost walk.now → cost < 2 ^ 64
        → counted_cost graph.now.edges counts.items ≡ cost) }
{
    let mut counts = vec![in alloc; 0; graph.edges().len()]?;
    count_items(graph, &mut counts, walk.items(), 1);
    Ok(counts)
}
