ghost use Rattle.std.specs.Prelude.{◌≡◌, ◌<◌, length};
ghost use Rattle.text_graph.specs.Clusters.{back_count, loop_ticks, turns, turns_from};
ghost use Rattle.text_graph.specs.Parts.{scene_of};
ghost use Rattle.text_graph.specs.Stretches.{CanDraw};

use crate::stretches::{count_of, ticks};
use crate::tables::Drawn;
use loop_bounds::edge_range_in;
use numbered_walks::Span;
use walk_counts::capped_sum;

// How often the walk takes an edge that leads back to a loop's header, and 0 of any other.
fn back_count(drawn: Drawn<'_, '_>, span: &Span, edge: usize) -> u64
    requires drawn { CanDraw drawn }
    requires known { edge < length drawn.graph.now.edges }
    ensures { result ≡ back_count (scene_of drawn.entry) span.now edge }
{
    if drawn.tree.edges()[edge].to == span.header {
        count_of(drawn, edge)
    } else {
        0
    }
}

// How often the walk goes back to a loop's header from a member.
fn turns_from(drawn: Drawn<'_, '_>, span: &Span, number: usize) -> u64
    requires drawn { CanDraw drawn }
    requires known { number < length drawn.graph.now.places }
    ensures { result ≡ turns_from (scene_of drawn.entry) span.now number }
{
    let (first, end) = edge_range_in(drawn.graph, drawn.tree, number);
    let mut turns = 0;
    for edge in first..end {
        turns = capped_sum(turns, back_count(drawn, span, edge));
    }
    turns
}

/// How often the walk goes back to a loop's header from all members.
pub(crate) fn turns(drawn: Drawn<'_, '_>, span: &Span) -> u64
    requires drawn { CanDraw drawn }
    requires inside { span.now.last < length drawn.graph.now.places }
    ensures { result ≡ turns (scene_of drawn.entry) span.now }
{
    let mut turns = 0;
    for number in span.header..span.last + 1 {
        turns = capped_sum(turns, turns_from(drawn, span, number));
    }
    turns
}

/// The ticks of the walk's edges from a loop's members.
pub(crate) fn loop_ticks(drawn: Drawn<'_, '_>, span: &Span) -> u64
    requires drawn { CanDraw drawn }
    requires inside { span.now.last < length drawn.graph.now.places }
    ensures { result ≡ loop_ticks (scene_of drawn.entry) span.now }
{
    let mut all = 0;
    for number in span.header..span.last + 1 {
        all = capped_sum(all, ticks(drawn, number));
    }
    all
}
