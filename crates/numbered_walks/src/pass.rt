ghost use Rattle.std.specs.Prelude.{◌≡◌, ◌+◌, ◌<◌, ◌≤◌, ◌^◌, ℕ, IsTrue, true, false, length};
ghost use Rattle.numbered_walks.specs.Ordered.{TooLarge};
ghost use Rattle.numbered_walks.specs.Index.{IsNumberedGraph, span_at};
ghost use Rattle.numbered_walks.specs.Tables.{AllEntered, HasRoom, IsPassed};

use crate::graph::NumberedGraph;
use crate::index::is_header_in;
use crate::row::heaviest;
use crate::tables::{Tables, write_place, write_round};

// Finds the distance or arrival of the next number, unless some walk costs 2^63 or more, once the rounds of
// the first instances, however many, are found.
fn pass_place(graph: NumberedGraph<'_>, tables: &mut Tables, place: usize) -> bool
    requires graph { IsNumberedGraph graph }
    requires entered { AllEntered graph.edges.now (graph.exit + 1) }
    requires known { place < graph.exit + 1 }
    requires room { HasRoom (graph.exit + 1) tables.old }
    ensures yes { (closed : ℕ) → IsPassed graph.entry.edges.now graph.entry.spans.now closed place tables.old
        → IsTrue result
        → IsPassed graph.entry.edges.now graph.entry.spans.now closed (place + 1) tables.new }
    ensures no { (closed : ℕ) → closed ≤ length graph.entry.spans.now
        → IsPassed graph.entry.edges.now graph.entry.spans.now closed place tables.old → result ≡ false
        → TooLarge graph.entry.exit graph.entry.edges.now graph.entry.spans.now }
    ensures room { HasRoom (graph.entry.exit + 1) tables.new }
{
    match heaviest(graph, tables, &graph.index.entering[place]) {
        None => false,
        Some(value) => {
            let header = is_header_in(graph.spans, &graph.index.headers, place);
            write_place(tables, graph.spans, header, place, value);
            true
        }
    }
}

// Finds the round of the next instance, unless some walk costs 2^63 or more, once the numbers up to its last
// are passed.
fn pass_round(graph: NumberedGraph<'_>, closed: usize, tables: &mut Tables) -> bool
    requires graph { IsNumberedGraph graph }
    requires known { closed < length graph.spans.now }
    requires room { HasRoom (graph.exit + 1) tables.old }
    requires passed { IsPassed graph.edges.now graph.spans.now closed
        ((span_at graph.spans.now closed).last + 1) tables.old }
    ensures yes { IsTrue result
        → IsPassed graph.entry.edges.now graph.entry.spans.now (closed + 1)
        ((span_at graph.entry.spans.now closed).last + 1) tables.new }
    ensures no { result ≡ false
        → TooLarge graph.entry.exit graph.entry.edges.now graph.entry.spans.now }
    ensures room { HasRoom (graph.entry.exit + 1) tables.new }
{
    let span = graph.spans[closed];
    if span.bound == 0 {
        write_round(tables, span.header, 0);
        return true;
    }
    match heaviest(graph, tables, &graph.index.turning[span.header]) {
        None => false,
        Some(value) => {
            write_round(tables, span.header, value);
            true
        }
    }
}

// Passes over the numbers from `start` to before `end`.
fn pass_places(graph: NumberedGraph<'_>, tables: &mut Tables, start: usize, end: usize) -> bool
    requires graph { IsNumberedGraph graph }
    requires entered { AllEntered graph.edges.now (graph.exit + 1) }
    requires known { (start ≤ end) × (end ≤ graph.exit + 1) }
    requires room { HasRoom (graph.exit + 1) tables.old }
    ensures yes { (closed : ℕ) → IsPassed graph.entry.edges.now graph.entry.spans.now closed start tables.old
        → IsTrue result → IsPassed graph.entry.edges.now graph.entry.spans.now closed end tables.new }
    ensures no { (closed : ℕ) → closed ≤ length graph.entry.spans.now
        → IsPassed graph.entry.edges.now graph.entry.spans.now closed start tables.old → result ≡ false
        → TooLarge graph.entry.exit graph.entry.edges.now graph.entry.spans.now }
    ensures room { HasRoom (graph.entry.exit + 1) tables.new }
{
    for place in start..end {
        if !pass_place(graph, tables, place) {
            return false;
        }
    }
    true
}

/// Finds all distances, arrivals and rounds, unless some walk costs 2^63 or more.
pub(crate) fn pass(graph: NumberedGraph<'_>, tables: &mut Tables) -> bool
    requires graph { IsNumberedGraph graph }
    requires entered { AllEntered graph.edges.now (graph.exit + 1) }
    requires small { graph.exit < 2 ^ 32 }
    requires room { HasRoom (graph.exit + 1) tables.old }
    requires passed { IsPassed graph.edges.now graph.spans.now 0 0 tables.old }
    ensures yes { IsTrue result
        → IsPassed graph.entry.edges.now graph.entry.spans.now (length graph.entry.spans.now)
        (graph.entry.exit + 1) tables.new }
    ensures no { result ≡ false
        → TooLarge graph.entry.exit graph.entry.edges.now graph.entry.spans.now }
    ensures room { HasRoom (graph.entry.exit + 1) tables.new }
{
    let mut placed = 0;
    for closed in 0..graph.spans.len() {
        let end = graph.spans[closed].last + 1;
        if !pass_places(graph, tables, placed, end) {
            return false;
        }
        if !pass_round(graph, closed, tables) {
            return false;
        }
        placed = end;
    }
    pass_places(graph, tables, placed, graph.exit + 1)
}
