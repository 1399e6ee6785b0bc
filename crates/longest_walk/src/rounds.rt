ghost use Rattle.std.specs.Prelude.{◌≡◌, ◌+◌, ◌<◌, ◌++◌, All, Contains, IfOk, IfErr, length, map, Some, None};
ghost use Rattle.std.specs.Prelude.{ℕ};
ghost use Rattle.numbered_walks.specs.Index.{edge_at};
ghost use Rattle.numbered_walks.specs.Found.{IsTurning};
ghost use Rattle.longest_walk.specs.Folded.{open_item};
ghost use Rattle.longest_walk.specs.Ways.{AreRounds, AreSearched, HasRounds, IsRound, IsRounds};
ghost use Rattle.longest_walk.specs.Ways.{opened_rounds, opened_way, rounds_at};

use crate::folded::Item;
use crate::trace::{Search, last_turn, trace};
use control_flow::Graph;
use loop_bounds::LoopTree;
use numbered_walks::{Span, WalkFault};
use std::alloc::{AllocError, Global};
use std::rc::Rc;

/// All rounds of an instance: how many, and the items of one.
#[derive(Drop)]
pub(crate) struct Rounds {
    count: u32,
    body: Rc<Vec<Item>>,
}

/// Adds the rounds of the instance that begins at the number, if it takes any.
pub(crate) fn add_rounds(
    walk: &mut Vec<Item>,
    rounds: &[Option<Rounds>],
    number: usize,
) -> Result<(), AllocError>
    requires { number < length rounds.now }
    ensures { IfOk result
        (λ _. map open_item walk.new.items
        ≡ map open_item walk.old.items ++ opened_rounds (rounds_at rounds.now number)) }
{
    if let Some(all) = &rounds[number] {
        walk.push(Item::Repeat(all.count, all.body.clone()?))?;
    }
    Ok(())
}

/// Adds the edges of a way, and after each the rounds of the instance at whose header it ends.
pub(crate) fn add_way(
    walk: &mut Vec<Item>,
    graph: &Graph,
    tree: &LoopTree,
    rounds: &[Option<Rounds>],
    way: &[usize],
) -> Result<(), AllocError>
    requires known { All
        (λ k. (k < length graph.now.edges) × (k < length tree.now.edges)
        × ((edge_at tree.now.edges k).to < length rounds.now)) way.now }
    ensures { IfOk result
        (λ _. map open_item walk.new.items
        ≡ map open_item walk.old.items ++ opened_way graph.now tree.now rounds.now way.now) }
{
    for number in way {
        walk.push(Item::Step(graph.edges()[*number]))?;
        add_rounds(walk, rounds, tree.edges()[*number].to)?;
    }
    Ok(())
}

// One round of the span's instance, which ends with the given edge.
fn one_round(
    alloc: Global,
    search: Search<'_>,
    rounds: &[Option<Rounds>],
    span: &Span,
    last: usize,
) -> Result<Vec<Item>, AllocError>
    requires searched { AreSearched search.graph.now search.tree.now search.index.now search.tables.now }
    requires known { Contains search.tree.now.spans span.now }
    requires turns { IsTurning search.tree.now.edges search.tree.now.spans search.tables.now span.now last }
    requires rounds { HasRounds search.graph.now search.tree.now search.tables.now (Some span.now)
        rounds.now }
    ensures { IfOk result
        (λ body. IsRound search.entry.graph.now search.entry.tree.now search.entry.tables.now span.now
        (map open_item body.items)) }
{
    let Search { graph, tree, .. } = search;
    let mut body = Vec::new(alloc);
    let from = tree.edges()[last].from;
    let way = trace(alloc, search, Some(*span), from)?;
    add_way(&mut body, graph, tree, rounds, &way)?;
    body.push(Item::Step(graph.edges()[last]))?;
    Ok(body)
}

// All rounds of the span's instance; `None` where a stay takes none.
fn rounds_of(
    alloc: Global,
    search: Search<'_>,
    rounds: &[Option<Rounds>],
    span: &Span,
) -> Result<Option<Rounds>, WalkFault>
    requires searched { AreSearched search.graph.now search.tree.now search.index.now search.tables.now }
    requires known { Contains search.tree.now.spans span.now }
    requires rounds { HasRounds search.graph.now search.tree.now search.tables.now (Some span.now)
        rounds.now }
    ensures rounds { IfOk result
        (IsRounds search.entry.graph.now search.entry.tree.now search.entry.tables.now span.now) }
    ensures memory { IfErr result (λ fault. fault ≡ WalkFault.Memory) }
{
    let Some(last) = last_turn(search, span) else {
        return Ok(None);
    };
    let body = one_round(alloc, search, rounds, span, last)?;
    Ok(Some(Rounds {
        count: span.bound,
        body: Rc::new(alloc, body)?,
    }))
}

// No rounds of any number below that.
fn no_rounds(alloc: Global, size: usize) -> Result<Vec<Option<Rounds>>, AllocError>
    ensures length { IfOk result (λ rounds. length rounds.items ≡ size) }
    ensures none { IfOk result (λ rounds. (p : ℕ) → rounds_at rounds.items p ≡ None) }
{
    let mut rounds = Vec::with_capacity(alloc, size)?;
    for _ in 0..size {
        rounds.push(None)?;
    }
    Ok(rounds)
}

/// The rounds of each instance by the number of its header.
pub(crate) fn all_rounds(
    alloc: Global,
    search: Search<'_>,
) -> Result<Vec<Option<Rounds>>, WalkFault>
    requires { AreSearched search.graph.now search.tree.now search.index.now search.tables.now }
    ensures rounds { IfOk result
        (λ rounds. AreRounds search.entry.graph.now search.entry.tree.now search.entry.tables.now
        (length search.entry.tree.now.spans) rounds.items) }
    ensures memory { IfErr result (λ fault. fault ≡ WalkFault.Memory) }
{
    let mut rounds = no_rounds(alloc, search.graph.places().len() + 1)?;
    // The inner ones come before the outer ones.
    for span in search.tree.spans() {
        rounds[span.header] = rounds_of(alloc, search, &rounds, span)?;
    }
    Ok(rounds)
}
