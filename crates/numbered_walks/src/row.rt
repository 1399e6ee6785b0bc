ghost use Rattle.std.specs.Prelude.{◌≡◌, ◌^◌, ◌<◌, ◌≤◌, MatchOption, All, length};
ghost use Rattle.numbered_walks.specs.Ordered.{is_in};
ghost use Rattle.numbered_walks.specs.Index.{IsNumberedGraph, edges_of};
ghost use Rattle.numbered_walks.specs.Tables.{IsHeaviest, IsNotFit, needed, stay_of};

use crate::graph::NumberedGraph;
use crate::span::{NumberedEdge, Span};
use crate::tables::{Tables, arrival_of, distance_of, round_of};
use walks::COST_LIMIT;

// Whether the number is that of a member.
fn is_in(span: &Span, number: usize) -> bool
    ensures { result ≡ is_in span.now number }
{
    span.header <= number && number <= span.last
}

// What a whole stay costs, if it is below 2^64.
fn stay(tables: &Tables, span: &Span) -> Option<u64>
    ensures { MatchOption result (2 ^ 64 ≤ stay_of tables.now span.now)
        (λ n. n ≡ stay_of tables.now span.now) }
{
    u64::from(span.bound)
        .checked_mul(round_of(tables, span))?
        .checked_add(arrival_of(tables, span))
}

// What the edge's row asks for with these spans, if it is below 2^64.
fn needed_with(spans: &[Span], tables: &Tables, edge: &NumberedEdge) -> Option<u64>
    ensures { MatchOption result (2 ^ 64 ≤ needed spans.now tables.now edge.now)
        (λ n. n ≡ needed spans.now tables.now edge.now) }
{
    let mut sum = 0u64;
    for span in spans {
        if is_in(span, edge.from) && !is_in(span, edge.to) {
            sum = sum.checked_add(stay(tables, span)?)?;
        }
    }
    distance_of(tables, edge.from)
        .checked_add(sum)?
        .checked_add(u64::from(edge.cost))
}

/// What the edge's row asks for, in ticks, by the spans that hold its beginning alone; `None` from 2^64 on.
pub(crate) fn needed_in(
    graph: NumberedGraph<'_>,
    tables: &Tables,
    edge: &NumberedEdge,
) -> Option<u64>
    requires graph { IsNumberedGraph graph }
    requires known { edge.now.from ≤ graph.exit }
    ensures { MatchOption result (2 ^ 64 ≤ needed graph.entry.spans.now tables.now edge.now)
        (λ n. n ≡ needed graph.entry.spans.now tables.now edge.now) }
{
    needed_with(&graph.index.holders[edge.from], tables, edge)
}

/// The most that one of the group's edges needs, in ticks, if each needs less than 2^63.
pub(crate) fn heaviest(graph: NumberedGraph<'_>, tables: &Tables, group: &[usize]) -> Option<u64>
    requires graph { IsNumberedGraph graph }
    requires known { All (λ k. k < length graph.edges.now) group.now }
    ensures { MatchOption result
        (IsNotFit graph.entry.spans.now tables.now (edges_of graph.entry.edges.now group.now))
        (IsHeaviest graph.entry.spans.now tables.now (edges_of graph.entry.edges.now group.now)) }
{
    let mut best = 0u64;
    for number in group {
        let needed = needed_in(graph, tables, &graph.edges[*number])?;
        if needed >= COST_LIMIT {
            return None;
        }
        best = best.max(needed);
    }
    Some(best)
}
