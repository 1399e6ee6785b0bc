ghost use Rattle.std.specs.Prelude.{◌≢◌, IfErr, IfOk, OnOk};
ghost use Rattle.loop_bounds.specs.Tree.{IsTree};
ghost use Rattle.longest_walk.specs.Longest.{IsLongest, IsWalkFault};
ghost use Rattle.longest_walk.specs.Ways.{AreSearched};
ghost use Rattle.numbered_walks.specs.declared.fault.WalkFault.{WalkFault};

use crate::builder::fold_walk;
use crate::folded::Longest;
use crate::listing::{instance_rows, place_rows};
use crate::rows::Potentials;
use crate::trace::Search;
use control_flow::Graph;
use loop_bounds::LoopTree;
use numbered_walks::{Index, NumberedGraph, Tables, WalkFault, find_tables};
use std::alloc::Global;

/// The numbers of the greatest walk, and the edges and spans by number.
pub(crate) fn numbers_of_walk(
    alloc: Global,
    graph: &Graph,
    tree: &LoopTree,
) -> Result<(Index, Tables), WalkFault>
    requires { IsTree graph.now tree.now }
    ensures found { IfOk result (λ found. AreSearched graph.now tree.now found.0 found.1) }
    ensures fault { IfErr result (IsWalkFault graph.now tree.now) }
{
    let exit = graph.places().len();
    let index = Index::of(alloc, tree.edges(), tree.spans(), exit)?;
    let numbered = NumberedGraph {
        edges: tree.edges(),
        spans: tree.spans(),
        exit,
        index: &index,
    };
    let tables = find_tables(alloc, numbered)?;
    Ok((index, tables))
}

/// The greatest cost of a complete walk that keeps the bounds of a graph's loops, such a walk, and the least
/// numbers that prove it greatest.
///
/// The tree is the one that `nest` returned for the graph.
///
/// # Errors
///
/// `NoCompleteWalk` where no walk from the entry leaves the handler, else `BoundTooLarge` where a walk from
/// the entry that keeps the bounds costs 2^63 ticks or more, wherever it ends. `Memory`: an allocation
/// failed.
pub fn longest(alloc: Global, graph: &Graph, tree: &LoopTree) -> Result<Longest, WalkFault>
    requires { IsTree graph.now tree.now }
    ensures longest { IfOk result (IsLongest graph.now tree.now) }
    ensures allowed { OnOk result
        ((fault : WalkFault) → fault ≢ WalkFault.Memory → IsWalkFault graph.now tree.now fault → ⊥) }
    ensures fault { IfErr result (IsWalkFault graph.now tree.now) }
{
    let (index, tables) = numbers_of_walk(alloc, graph, tree)?;
    let search = Search {
        graph,
        tree,
        index: &index,
        tables: &tables,
    };
    let walk = fold_walk(alloc, search)?;
    let places = place_rows(alloc, graph, tree, &tables)?;
    let instances = instance_rows(alloc, graph, tree, &tables)?;
    Ok(Longest {
        bound: tables.bound,
        walk,
        potentials: Potentials { places, instances },
        profile: graph.profile(),
    })
}
