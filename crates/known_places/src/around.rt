ghost use Rattle.std.specs.Prelude.{◌≡◌, ◌≢◌, Some, IfSome, IsTrue};
ghost use Rattle.known_places.specs.Around.{TurnsAlong, TurnsOne, TurnsSpan, loop_at};

use known_words::{Depth, Turn, Turns};
use loop_bounds::Handler;
use numbered_walks::{NumberedEdge, Span};
use std::alloc::{AllocError, Global};
use walk_counts::is_in;

/// The loops that are counted at a place, by the numbers of their spans.
#[derive(Clone, Copy)]
pub(crate) struct Around {
    pub outermost: Option<usize>,
    pub second: Option<usize>,
    pub third: Option<usize>,
    pub fourth: Option<usize>,
}

const NONE: Around = Around {
    outermost: None,
    second: None,
    third: None,
    fourth: None,
};

// Whether it is that one.
fn is_loop(found: Option<usize>, number: usize) -> bool
    ensures { IsTrue result → found ≡ Some number }
{
    match found {
        Some(same) => same == number,
        None => false,
    }
}

impl Around {
    // With a loop inside of the others, if fewer than four are counted.
    fn with(self, number: usize) -> Around {
        let mut found = self;
        if self.outermost.is_none() {
            found.outermost = Some(number);
        } else if self.second.is_none() {
            found.second = Some(number);
        } else if self.third.is_none() {
            found.third = Some(number);
        } else if self.fourth.is_none() {
            found.fourth = Some(number);
        }
        found
    }

    /// Where a loop is counted, if it is.
    pub(crate) fn depth_of(self, number: usize) -> Option<Depth>
        ensures { IfSome result (λ depth. loop_at depth self ≡ Some number) }
    {
        if is_loop(self.outermost, number) {
            return Some(Depth::Outermost);
        }
        if is_loop(self.second, number) {
            return Some(Depth::Second);
        }
        if is_loop(self.third, number) {
            return Some(Depth::Third);
        }
        if is_loop(self.fourth, number) {
            return Some(Depth::Fourth);
        }
        None
    }
}

// Counts a loop at each of its places.
fn count(around: &mut Vec<Around>, span: &Span, number: usize) {
    for place in span.header..around.len() {
        if span.last < place {
            return;
        }
        if let Some(at) = around.get_mut(place) {
            *at = at.with(number);
        }
    }
}

/// The loops that are counted at each place, by the numbers of the places: the four outermost ones.
pub(crate) fn loops_around(
    alloc: Global,
    handler: &Handler<'_>,
) -> Result<Vec<Around>, AllocError> {
    let spans = handler.tree.spans();
    let mut around = vec![in alloc; NONE; handler.graph.places().len()]?;
    for inner in 0..spans.len() {
        let number = spans.len() - 1 - inner;
        count(&mut around, &spans[number], number);
    }
    Ok(around)
}

// On an edge to the header.
fn turn_at_header(span: &Span, counted: bool, edge: NumberedEdge) -> Option<Turn>
    requires { span.now.header ≡ edge.to }
    ensures { IfSome result (TurnsSpan span.now counted edge) }
{
    if !is_in(span, edge.from) {
        return Some(Turn::Begins);
    }
    if !counted {
        return None;
    }
    Some(Turn::Again)
}

// On another edge.
fn turn_elsewhere(span: &Span, counted: bool, edge: NumberedEdge) -> Option<Turn>
    requires { span.now.header ≢ edge.to }
    ensures { IfSome result (TurnsSpan span.now counted edge) }
{
    if !is_in(span, edge.to) {
        return None;
    }
    if !counted {
        return None;
    }
    Some(Turn::Stays)
}

fn turn_of(span: &Span, counted: bool, edge: NumberedEdge) -> Option<Turn>
    ensures { IfSome result (TurnsSpan span.now counted edge) }
{
    if span.header == edge.to {
        return turn_at_header(span, counted, edge);
    }
    turn_elsewhere(span, counted, edge)
}

// Of one depth, by the loops that are counted there before the edge and after it.
fn turning(
    spans: &[Span],
    before: Option<usize>,
    after: Option<usize>,
    edge: NumberedEdge,
) -> Option<Turn>
    ensures { IfSome result (TurnsOne spans.now edge before after) }
{
    let Some(number) = after else {
        return Some(Turn::Begins);
    };
    if spans.len() <= number {
        return None;
    }
    turn_of(&spans[number], is_loop(before, number), edge)
}

/// How an edge turns the loops that are counted where it ends; none where that is not seen.
pub(crate) fn turns_along(
    spans: &[Span],
    before: Around,
    after: Around,
    edge: NumberedEdge,
) -> Option<Turns>
    ensures { IfSome result (TurnsAlong spans.now edge before after) }
{
    let Some(outermost) = turning(spans, before.outermost, after.outermost, edge) else {
        return None;
    };
    let Some(second) = turning(spans, before.second, after.second, edge) else {
        return None;
    };
    let Some(third) = turning(spans, before.third, after.third, edge) else {
        return None;
    };
    let Some(fourth) = turning(spans, before.fourth, after.fourth, edge) else {
        return None;
    };
    Some(Turns {
        outermost,
        second,
        third,
        fourth,
    })
}
