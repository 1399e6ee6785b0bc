//! The rounds of the stays that a walk is in.

ghost use Rattle.std.specs.Prelude.{◌≡◌, ◌+◌, ◌<◌, ◌≤◌, MatchOption, length};
ghost use Rattle.kept_runs.specs.Stays.{IsOver, Turns};

use numbered_walks::{NumberedEdge, Span};
use walk_counts::is_in;

// One back edge more, where the bound allows that.
fn one_more(span: &Span, turns: u32) -> Option<u32>
    ensures { MatchOption result (span.now.bound ≤ turns)
        (λ more. (turns < span.now.bound) × (more ≡ turns + 1)) }
{
    let bound = span.bound;
    if turns >= bound {
        return None;
    }
    Some(turns + 1)
}

/// Counts an edge: by the numbers of headers, the back edges of the stay in each instance that a walk
/// is in. What is counted of other instances means nothing. The instance whose bound allows no further back
/// edge, if the edge is one of its.
pub(crate) fn turn(
    headers: &[Option<Span>],
    turns: &mut Vec<u32>,
    edge: &NumberedEdge,
) -> Option<Span>
    requires known { edge.now.to < length headers.now }
    requires room { edge.now.to < length turns.old.items }
    ensures { MatchOption result (Turns headers.now edge.now turns.old.items turns.new.items)
        (IsOver headers.now edge.now turns.old.items) }
{
    let to = edge.to;
    let Some(span) = headers[to] else {
        return None;
    };
    if !is_in(&span, edge.from) {
        turns[to] = 0;
        return None;
    }
    let Some(more) = one_more(&span, turns[to]) else {
        return Some(span);
    };
    turns[to] = more;
    None
}
