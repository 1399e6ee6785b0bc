ghost use Rattle.std.specs.Prelude.{IfOk, MatchOption, length};
ghost use Rattle.longest_walk.specs.Folded.{most_nested};
ghost use Rattle.cert_check.specs.Failing.{IsFirstFailing};
ghost use Rattle.cert_check.specs.Followed.{followed};
ghost use Rattle.cert_check.specs.Index.{IsIndexed};
ghost use Rattle.cert_check.specs.Straying.{StraysAt};
ghost use Rattle.cert_check.specs.Verdict.{walk_objections};
ghost use Rattle.cert_check.specs.Walking.{CanFollow, IsFresh, IsTaken, graph_span};

use crate::failing::FailingRow;
use crate::indexed_tree::IndexedTree;
use crate::walk_trace::follow_one;
use crate::walker::Walker;
use certificate::{Cert, CertItem};
use control_flow::Graph;
use loop_bounds::{MOST_INSTANCES, place_in};
use numbered_walks::Span;
use std::alloc::{AllocError, Global};

// How deep repeats may be nested: as deep as instances are.
const LEVELS: u32 = MOST_INSTANCES as u32;

// At the entry, before a walk.
fn start(alloc: Global, graph: &Graph) -> Result<Walker, AllocError>
    ensures { IfOk result (IsFresh (length graph.now.places)) }
{
    let size = graph.places().len() + 1;
    Ok(Walker {
        number: 0,
        cost: 0,
        turns: vec![in alloc; 0; size]?,
        over: None,
    })
}

// Follows the lines from where the walker is, inside the span: the first that it cannot follow.
fn first_not_followed(
    indexed: IndexedTree<'_>,
    within: &Span,
    walker: &mut Walker,
    items: &[CertItem],
) -> Option<usize>
    requires { CanFollow indexed.graph.now indexed.tree.now indexed.index.now within.now walker.old }
    ensures { MatchOption result
        (IsTaken indexed.entry.graph.now indexed.entry.tree.now indexed.entry.index.now within.now
        most_nested (length items.now) (followed indexed.entry.graph.now items.now) walker.old walker.new)
        (StraysAt indexed.entry.graph.now indexed.entry.tree.now indexed.entry.index.now within.now
        most_nested items.now walker.old) }
{
    for (number, item) in items.iter().enumerate() {
        if !follow_one(indexed, within, LEVELS, walker, item) {
            return Some(number);
        }
    }
    None
}

// Follows the lines of the certificate: the first that it cannot follow.
fn first_broken(indexed: IndexedTree<'_>, cert: &Cert, walker: &mut Walker) -> Option<usize>
    requires indexed { IsIndexed indexed }
    requires fresh { IsFresh (length indexed.graph.now.places) walker.old }
    ensures { MatchOption result
        (IsTaken indexed.entry.graph.now indexed.entry.tree.now indexed.entry.index.now
        (graph_span indexed.entry.graph.now) most_nested (length cert.now.walk)
        (followed indexed.entry.graph.now cert.now.walk) walker.old walker.new)
        (StraysAt indexed.entry.graph.now indexed.entry.tree.now indexed.entry.index.now
        (graph_span indexed.entry.graph.now) most_nested cert.now.walk walker.old) }
{
    let whole = Span {
        header: 0,
        last: indexed.graph.places().len(),
        bound: 0,
    };
    first_not_followed(indexed, &whole, walker, cert.walk.items())
}

// Where the walk fails the first of its three tests that is not passed.
fn failing_line(indexed: IndexedTree<'_>, cert: &Cert, walker: &mut Walker) -> Option<FailingRow>
    requires indexed { IsIndexed indexed }
    requires fresh { IsFresh (length indexed.graph.now.places) walker.old }
    ensures { IsFirstFailing indexed.entry.graph.now indexed.entry.tree.now cert.now walk_objections result }
{
    let IndexedTree { graph, tree, .. } = indexed;
    let exit = graph.places().len();
    let bound = cert.bound;
    if let Some(item) = first_broken(indexed, cert, walker) {
        return Some(FailingRow::BrokenWalk(item));
    }
    if walker.number != exit {
        let place = place_in(graph, tree, walker.number);
        return Some(FailingRow::OpenWalk(place));
    }
    if let Some(span) = walker.over {
        let header = place_in(graph, tree, span.header);
        return Some(FailingRow::WalkOverBound(header, span.bound));
    }
    if walker.cost != u128::from(bound) {
        return Some(FailingRow::WalkCost(walker.cost));
    }
    None
}

/// Where a certificate's walk fails, each repeat followed once. It takes time linear in the lines of the
/// walk, a step as many times as its place has edges.
///
/// # Errors
///
/// `AllocError` where an allocation failed.
pub(crate) fn failing_walk(
    alloc: Global,
    indexed: IndexedTree<'_>,
    cert: &Cert,
) -> Result<Option<FailingRow>, AllocError>
    requires indexed { IsIndexed indexed }
    ensures { IfOk result
        (IsFirstFailing indexed.entry.graph.now indexed.entry.tree.now cert.now walk_objections) }
{
    let mut walker = start(alloc, indexed.graph)?;
    Ok(failing_line(indexed, cert, &mut walker))
}
