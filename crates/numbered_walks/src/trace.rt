ghost use Rattle.std.specs.Prelude.{◌≡◌, ◌≢◌, ◌↔◌, IsTrue, ◌<◌, ◌≤◌, All, Contains, MatchOption, length};
ghost use Rattle.numbered_walks.specs.Index.{AreHeaders, IsNumberedGraph, edge_at};
ghost use Rattle.numbered_walks.specs.Tables.{found_at, needed, round_of};
ghost use Rattle.numbered_walks.specs.Found.{AreFound, IsEntering, IsTurning};

use crate::graph::NumberedGraph;
use crate::index::is_header_in;
use crate::row::needed_in;
use crate::span::{NumberedEdge, Span};
use crate::tables::{Tables, distance_of, round_of};

// Whether the edge needs exactly so many ticks.
fn needs(graph: NumberedGraph<'_>, tables: &Tables, edge: &NumberedEdge, ticks: u64) -> bool
    requires graph { IsNumberedGraph graph }
    requires known { edge.now.from ≤ graph.exit }
    ensures { IsTrue result ↔ (needed graph.entry.spans.now tables.now edge.now ≡ ticks) }
{
    match needed_in(graph, tables, edge) {
        Some(needed) => needed == ticks,
        None => false,
    }
}

// The last edge of the group that needs exactly so many ticks.
fn attaining(
    graph: NumberedGraph<'_>,
    tables: &Tables,
    group: &[usize],
    ticks: u64,
) -> Option<usize>
    requires graph { IsNumberedGraph graph }
    requires known { All (λ k. k < length graph.edges.now) group.now }
    ensures { MatchOption result
        (All (λ k. needed graph.entry.spans.now tables.now (edge_at graph.entry.edges.now k) ≢ ticks)
        group.now)
        (λ k. Contains group.now k
        × (needed graph.entry.spans.now tables.now (edge_at graph.entry.edges.now k) ≡ ticks)) }
{
    let mut found = None;
    for k in group {
        if needs(graph, tables, &graph.edges[*k], ticks) {
            found = Some(*k);
        }
    }
    found
}

// The arrival of the instance that begins at the number, or the number's distance.
fn found_at(spans: &[Span], headers: &[Option<Span>], tables: &Tables, number: usize) -> u64
    requires headers { AreHeaders spans.now headers.now }
    requires known { number < length headers.now }
    ensures { result ≡ found_at spans.now tables.now number }
{
    if is_header_in(spans, headers, number) {
        tables.arrivals.get(number).copied().unwrap_or(0)
    } else {
        distance_of(tables, number)
    }
}

/// The last edge of a greatest walk to a number, as its place in the list: what the number's distance or
/// arrival is by.
pub fn entering_edge(graph: NumberedGraph<'_>, tables: &Tables, number: usize) -> usize
    requires graph { IsNumberedGraph graph }
    requires found { AreFound graph.exit graph.edges.now graph.spans.now tables.now }
    requires later { 0 < number }
    requires known { number ≤ graph.exit }
    ensures { IsEntering graph.entry.edges.now graph.entry.spans.now tables.now number result }
{
    let group = &graph.index.entering[number];
    // Most numbers are entered by one edge alone, so it is the one.
    if group.len() == 1 {
        return group[0];
    }
    let ticks = found_at(graph.spans, &graph.index.headers, tables, number);
    match attaining(graph, tables, group, ticks) {
        Some(k) => k,
        None => 0,
    }
}

/// The last edge of a heaviest round of an instance, as its place in the list; `None` where a stay takes no
/// round.
pub fn turning_edge(graph: NumberedGraph<'_>, tables: &Tables, span: &Span) -> Option<usize>
    requires graph { IsNumberedGraph graph }
    requires found { AreFound graph.exit graph.edges.now graph.spans.now tables.now }
    requires stated { Contains graph.spans.now span.now }
    ensures { MatchOption result (round_of tables.now span.now ≡ 0)
        (IsTurning graph.entry.edges.now graph.entry.spans.now tables.now span.now) }
{
    let ticks = round_of(tables, span);
    if ticks == 0 {
        return None;
    }
    let group = &graph.index.turning[span.header];
    attaining(graph, tables, group, ticks)
}
