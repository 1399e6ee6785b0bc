ghost use Rattle.std.specs.Prelude.{◌≡◌, ◌<◌, ◌≤◌, IfOk, length, slice_index};
ghost use Rattle.std.specs.List.{list_all};
ghost use Rattle.numbered_walks.specs.Ordered.{is_in};
ghost use Rattle.text_graph.specs.Stretches.{AreBegins, AreNumbers, CanDraw, are_together, calls_in};
ghost use Rattle.text_graph.specs.Stretches.{edge_ticks, loops_of, next_of, only_way, passes, stretch_from};
ghost use Rattle.text_graph.specs.Stretches.{stretch_ticks, ticks};

use crate::tables::{self, Drawn};
use control_flow::Calls;
use loop_bounds::edge_range_in;
use numbered_walks::Span;
use std::alloc::{AllocError, Global};
use walk_counts::{capped_product, capped_sum, is_in};

/// The calls inside of which the place of a number is.
pub(crate) fn calls_in(drawn: Drawn<'_, '_>, number: usize) -> Calls
    ensures { result ≡ calls_in drawn.entry.graph.now drawn.entry.tree.now number }
{
    tables::calls_in(drawn.graph, drawn.tree, number)
}

/// The loops that hold a number, the inner ones first.
pub(crate) fn loops_of<'a>(drawn: Drawn<'a, '_>, number: usize) -> &'a [Span]
    requires drawn { CanDraw drawn }
    requires known { number ≤ length drawn.graph.now.places }
    ensures { result.now ≡ loops_of drawn.entry.graph.now drawn.entry.tree.now number }
{
    &drawn.index.holders[number]
}

fn all_hold(loops: &[Span], number: usize) -> bool
    ensures { result ≡ list_all (λ s. is_in s number) loops.now }
{
    for span in loops {
        if !is_in(span, number) {
            return false;
        }
    }
    true
}

// Where the edge leads that leaves a number, if it is the only way out of it and into where it leads, which
// is neither Exit nor the entry.
fn only_way(drawn: Drawn<'_, '_>, number: usize) -> Option<usize>
    requires drawn { CanDraw drawn }
    requires known { number < length drawn.graph.now.places }
    ensures { result ≡ only_way drawn.entry.graph.now drawn.entry.tree.now number }
{
    let (first, end) = edge_range_in(drawn.graph, drawn.tree, number);
    if end - first != 1 {
        return None;
    }
    let to = drawn.tree.edges()[first].to;
    if drawn.arrivals[to] == 1 && to != 0 && to < drawn.graph.places().len() {
        return Some(to);
    }
    None
}

// Whether two numbers are inside the same calls and the same loops.
fn are_together(drawn: Drawn<'_, '_>, left: usize, right: usize) -> bool
    requires drawn { CanDraw drawn }
    requires left { left < length drawn.graph.now.places }
    requires right { right < length drawn.graph.now.places }
    ensures { result ≡ are_together drawn.entry.graph.now drawn.entry.tree.now left right }
{
    let same_calls = calls_in(drawn, left) == calls_in(drawn, right);
    if !same_calls {
        return false;
    }
    let loops = loops_of(drawn, left);
    let as_many = loops.len() == loops_of(drawn, right).len();
    if !as_many {
        return false;
    }
    all_hold(loops, right)
}

/// The number with which the stretch of one goes on, if it does.
pub(crate) fn next_of(drawn: Drawn<'_, '_>, number: usize) -> Option<usize>
    requires drawn { CanDraw drawn }
    requires known { number < length drawn.graph.now.places }
    ensures { result ≡ next_of drawn.entry.graph.now drawn.entry.tree.now number }
{
    match only_way(drawn, number) {
        Some(next) => {
            if are_together(drawn, number, next) {
                Some(next)
            } else {
                None
            }
        }
        None => None,
    }
}

/// The numbers of the stretch that begins with one.
///
/// # Errors
///
/// An allocation failed.
pub(crate) fn stretch_from(
    alloc: Global,
    drawn: Drawn<'_, '_>,
    first: usize,
) -> Result<Vec<usize>, AllocError>
    requires drawn { CanDraw drawn }
    requires known { first < length drawn.graph.now.places }
    ensures { IfOk result
        (λ numbers. numbers.items ≡ stretch_from drawn.entry.graph.now drawn.entry.tree.now first) }
{
    let mut numbers = Vec::new(alloc);
    let mut number = first;
    for _ in 0..drawn.graph.places().len() {
        numbers.push(number)?;
        match next_of(drawn, number) {
            Some(next) => number = next,
            None => return Ok(numbers),
        }
    }
    Ok(numbers)
}

/// For each number whether no stretch goes on to it.
///
/// # Errors
///
/// An allocation failed.
pub(crate) fn begins(alloc: Global, drawn: Drawn<'_, '_>) -> Result<Vec<bool>, AllocError>
    requires drawn { CanDraw drawn }
    ensures { IfOk result (λ begins. AreBegins drawn.entry.graph.now drawn.entry.tree.now begins.items) }
{
    let mut begins = vec![in alloc; true; drawn.graph.places().len()]?;
    for number in 0..drawn.graph.places().len() {
        if let Some(next) = next_of(drawn, number) {
            begins[next] = false;
        }
    }
    Ok(begins)
}

/// How often the walk takes an edge.
pub(crate) fn count_of(drawn: Drawn<'_, '_>, edge: usize) -> u64
    requires drawn { CanDraw drawn }
    requires known { edge < length drawn.graph.now.edges }
    ensures { result ≡ slice_index drawn.entry.counts.now edge }
{
    drawn.counts[edge]
}

/// How often the walk leaves a number.
pub(crate) fn passes(drawn: Drawn<'_, '_>, number: usize) -> u64
    requires drawn { CanDraw drawn }
    requires known { number < length drawn.graph.now.places }
    ensures { result ≡ passes drawn.entry.graph.now drawn.entry.tree.now drawn.entry.counts.now number }
{
    let (first, end) = edge_range_in(drawn.graph, drawn.tree, number);
    let mut passes = 0;
    for edge in first..end {
        passes = capped_sum(passes, count_of(drawn, edge));
    }
    passes
}

// The ticks of an edge, as often as the walk takes it.
fn edge_ticks(drawn: Drawn<'_, '_>, edge: usize) -> u64
    requires drawn { CanDraw drawn }
    requires known { edge < length drawn.graph.now.edges }
    ensures { result ≡ edge_ticks drawn.entry.graph.now drawn.entry.counts.now edge }
{
    capped_product(count_of(drawn, edge), drawn.graph.edges()[edge].cost)
}

/// The ticks that the walk takes at a number.
pub(crate) fn ticks(drawn: Drawn<'_, '_>, number: usize) -> u64
    requires drawn { CanDraw drawn }
    requires known { number < length drawn.graph.now.places }
    ensures { result ≡ ticks drawn.entry.graph.now drawn.entry.tree.now drawn.entry.counts.now number }
{
    let (first, end) = edge_range_in(drawn.graph, drawn.tree, number);
    let mut ticks = 0;
    for edge in first..end {
        ticks = capped_sum(ticks, edge_ticks(drawn, edge));
    }
    ticks
}

/// The ticks that the walk takes in a stretch.
pub(crate) fn stretch_ticks(drawn: Drawn<'_, '_>, numbers: &[usize]) -> u64
    requires drawn { CanDraw drawn }
    requires known { AreNumbers drawn.graph.now numbers.now }
    ensures { result
        ≡ stretch_ticks drawn.entry.graph.now drawn.entry.tree.now drawn.entry.counts.now numbers.now }
{
    let mut all = 0;
    for number in numbers {
        all = capped_sum(all, ticks(drawn, *number));
    }
    all
}
