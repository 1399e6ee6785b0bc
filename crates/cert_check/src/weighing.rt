ghost use Rattle.std.specs.Prelude.{◌≡◌, ◌≢◌, ◌↔◌, ◌<◌, ◌≤◌, ◌^◌, IsTrue, AllPairs, MatchOption, length};
ghost use Rattle.std.specs.Prelude.{nat_eq, not};
ghost use Rattle.std.specs.List.{find, list_any};
ghost use Rattle.numbered_walks.specs.Index.{AreHeaders};
ghost use Rattle.numbered_walks.specs.Ordered.{is_in};
ghost use Rattle.numbered_walks.specs.Tables.{arrival_of, distance_of, needed};
ghost use Rattle.numbered_walks.specs.Tables.{round_of, stay_of};
ghost use Rattle.cert_check.specs.Weighing.{CanWeigh, CanWeighBy, FitsBy, HoldsBy, PassesBy, leaves};
ghost use Rattle.cert_check.specs.Weighing.{limit_by, needed_by};

use crate::index::Index;
use numbered_walks::{NumberedEdge, Span, Tables};
use walk_counts::is_in;
use walks::COST_LIMIT;

/// What a row is tested for.
#[derive(Clone, Copy)]
pub(crate) enum RowTest {
    /// It asks for less than 2^63.
    Fits,
    /// It holds, where the edge neither goes back nor leaves an instance.
    Plain,
    /// It holds, where the edge goes back.
    Round,
    /// It holds, where the edge leaves an instance and does not go back.
    Leave,
}

/// What rows are weighed by: the spans with their index, the certificate's numbers, and the number of Exit.
#[derive(Clone, Copy)]
pub(crate) struct Weighing<'a> {
    pub(crate) spans: &'a [Span],
    pub(crate) index: &'a Index,
    pub(crate) tables: &'a Tables,
    pub(crate) exit: usize,
}

fn distance_of(tables: &Tables, number: usize) -> u64
    ensures { result ≡ distance_of tables.now number }
{
    tables.distances.get(number).copied().unwrap_or(0)
}

fn arrival_of(tables: &Tables, span: &Span) -> u64
    ensures { result ≡ arrival_of tables.now span.now }
{
    tables.arrivals.get(span.header).copied().unwrap_or(0)
}

fn round_of(tables: &Tables, span: &Span) -> u64
    ensures { result ≡ round_of tables.now span.now }
{
    tables.rounds.get(span.header).copied().unwrap_or(0)
}

// What a whole stay in the instance costs, in ticks, if it is below 2^64.
fn stay(tables: &Tables, span: &Span) -> Option<u64>
    ensures { MatchOption result (2 ^ 64 ≤ stay_of tables.now span.now)
        (λ n. n ≡ stay_of tables.now span.now) }
{
    u64::from(span.bound)
        .checked_mul(round_of(tables, span))?
        .checked_add(arrival_of(tables, span))
}

// What the edge's row asks for with these spans, in ticks, if it is below 2^64.
fn needed_with(spans: &[Span], tables: &Tables, edge: &NumberedEdge) -> Option<u64>
    ensures { MatchOption result (2 ^ 64 ≤ needed spans.now tables.now edge.now)
        (λ n. n ≡ needed spans.now tables.now edge.now) }
{
    let mut sum = distance_of(tables, edge.from).checked_add(u64::from(edge.cost))?;
    for span in spans {
        if is_in(span, edge.from) && !is_in(span, edge.to) {
            sum = sum.checked_add(stay(tables, span)?)?;
        }
    }
    Some(sum)
}

// The same by the instances that hold the edge's beginning alone.
fn needed_at(spans: &[Span], index: &Index, tables: &Tables, edge: &NumberedEdge) -> Option<u64>
    requires { CanWeigh spans.now index.now edge.now }
    ensures { MatchOption result (2 ^ 64 ≤ needed spans.now tables.now edge.now)
        (λ n. n ≡ needed spans.now tables.now edge.now) }
{
    needed_with(&index.holders[edge.from], tables, edge)
}

// The span that begins at the number.
fn span_at(spans: &[Span], headers: &[Option<Span>], number: usize) -> Option<Span>
    requires headers { AreHeaders spans.now headers.now }
    requires differ { AllPairs (λ s t. s.header ≢ t.header) spans.now }
    requires inside { number < length headers.now }
    ensures { result ≡ find (λ s. nat_eq number s.header) spans.now }
{
    headers[number]
}

// The number that the edge's row is about: none for a back edge of bound 0.
fn limit_of(weighing: Weighing<'_>, edge: &NumberedEdge) -> Option<u64>
    requires { CanWeighBy weighing edge.now }
    ensures { result ≡ limit_by weighing.entry edge.now }
{
    let tables = weighing.tables;
    match span_at(weighing.spans, &weighing.index.headers, edge.to) {
        Some(span) => {
            if is_in(&span, edge.from) {
                if span.bound == 0 {
                    None
                } else {
                    Some(round_of(tables, &span))
                }
            } else {
                Some(arrival_of(tables, &span))
            }
        }
        None => {
            if edge.to == weighing.exit {
                Some(tables.bound)
            } else {
                Some(distance_of(tables, edge.to))
            }
        }
    }
}

fn row_fits(weighing: Weighing<'_>, edge: &NumberedEdge) -> bool
    requires { CanWeighBy weighing edge.now }
    ensures { IsTrue result ↔ FitsBy weighing.entry edge.now }
{
    match limit_of(weighing, edge) {
        None => true,
        Some(_) => match needed_at(weighing.spans, weighing.index, weighing.tables, edge) {
            None => false,
            Some(needed) => needed < COST_LIMIT,
        },
    }
}

fn row_holds(weighing: Weighing<'_>, edge: &NumberedEdge) -> bool
    requires { CanWeighBy weighing edge.now }
    ensures { IsTrue result ↔ HoldsBy weighing.entry edge.now }
{
    match limit_of(weighing, edge) {
        None => true,
        Some(limit) => match needed_at(weighing.spans, weighing.index, weighing.tables, edge) {
            None => false,
            Some(needed) => needed <= limit,
        },
    }
}

/// What the edge's row asks for, and the number that it is about, in ticks, where it does not hold.
pub(crate) fn weight(weighing: Weighing<'_>, edge: &NumberedEdge) -> (u64, u64)
    requires can_weigh { CanWeighBy weighing edge.now }
    requires fits { FitsBy weighing edge.now }
    requires fails { HoldsBy weighing edge.now → ⊥ }
    ensures needed { result.0 ≡ needed_by weighing.entry edge.now }
    ensures stated { limit_by weighing.entry edge.now ≡ Some result.1 }
    ensures less { result.1 < result.0 }
{
    let stated = limit_of(weighing, edge).unwrap_or(0);
    let needed = needed_at(weighing.spans, weighing.index, weighing.tables, edge).unwrap_or(0);
    (needed, stated)
}

// Whether the number lies outside one of these.
fn is_outside(spans: &[Span], number: usize) -> bool
    ensures { result ≡ list_any (λ s. not (is_in s number)) spans.now }
{
    spans.iter().any(|span| !is_in(span, number))
}

// Whether the edge leaves an instance.
fn leaves(spans: &[Span], index: &Index, edge: &NumberedEdge) -> bool
    requires { CanWeigh spans.now index.now edge.now }
    ensures { result ≡ leaves spans.now edge.now }
{
    is_outside(&index.holders[edge.from], edge.to)
}

/// Whether the edge's row passes the test.
pub(crate) fn passes(weighing: Weighing<'_>, test: RowTest, edge: &NumberedEdge) -> bool
    requires { CanWeighBy weighing edge.now }
    ensures { IsTrue result ↔ PassesBy weighing.entry test edge.now }
{
    let Weighing { spans, index, .. } = weighing;
    let back = edge.to <= edge.from;
    match test {
        RowTest::Fits => row_fits(weighing, edge),
        RowTest::Plain => back || leaves(spans, index, edge) || row_holds(weighing, edge),
        RowTest::Round => !back || row_holds(weighing, edge),
        RowTest::Leave => { back || !leaves(spans, index, edge) || row_holds(weighing, edge) }
    }
}
