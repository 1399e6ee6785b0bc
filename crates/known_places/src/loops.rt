ghost use Rattle.std.specs.Prelude.{◌≡◌, ◌<◌, ◌++◌, ◌∷◌, [], ℕ, List, length};
ghost use Rattle.std.specs.Prelude.{IfOk, IsTrue, MatchOption, OnOk};
ghost use Rattle.numbered_walks.specs.Index.{span_at};
ghost use Rattle.known_places.specs.Around.{BoundFollows, NeverOver};

use crate::around::Around;
use control_flow::Place;
use known_words::Knowledge;
use loop_bounds::{Handler, place_in};
use numbered_walks::Span;
use std::alloc::{AllocError, Global};

/// What is known at each place, and the loops that are counted there.
#[derive(Clone, Copy)]
pub(crate) struct Table<'a> {
    pub known: &'a [Knowledge],
    pub around: &'a [Around],
}

// Whether at the header of the span of a number one turn more than the bound is seen to be none.
fn is_never_over(table: &Table<'_>, number: usize, span: &Span) -> bool
    ensures { IsTrue result → (spans : List Span) → span_at spans number ≡ span.now
        → NeverOver spans table.now.around.now table.now.known.now span.now }
{
    if table.known.len() <= span.header {
        return false;
    }
    if table.around.len() <= span.header {
        return false;
    }
    let Some(depth) = table.around[span.header].depth_of(number) else {
        return false;
    };
    let Some(over) = span.bound.checked_add(1) else {
        return false;
    };
    table.known[span.header].never_turns(depth, over)
}

// Whether the bound of the instance of a number is seen to follow, and if not the address of its header.
fn bound_on_trust(handler: &Handler<'_>, table: &Table<'_>, number: usize) -> Option<u32>
    requires { number < length handler.now.tree.spans }
    ensures { MatchOption result
        (BoundFollows handler.now.graph handler.now.tree table.now.around.now table.now.known.now [] number)
        (λ address. BoundFollows handler.now.graph handler.now.tree table.now.around.now table.now.known.now
        (address ∷ []) number) }
{
    let span = handler.tree.spans()[number];
    let Place::At(_, address) = place_in(&handler.graph, &handler.tree, span.header) else {
        return None;
    };
    if is_never_over(table, number, &span) {
        return None;
    }
    Some(address)
}

// Adds that address, where the bound is on trust.
fn put_on_trust(
    trusted: &mut Vec<u32>,
    handler: &Handler<'_>,
    table: &Table<'_>,
    number: usize,
) -> Result<(), AllocError>
    requires { number < length handler.now.tree.spans }
    ensures { OnOk result ((more : List ℕ) × (trusted.new.items ≡ trusted.old.items ++ more)
        × BoundFollows handler.entry.now.graph handler.entry.now.tree table.entry.now.around.now
        table.entry.now.known.now more number) }
{
    if let Some(address) = bound_on_trust(handler, table, number) {
        trusted.push(address)?;
    }
    Ok(())
}

/// The addresses of the headers of the loops whose bounds are on trust.
pub(crate) fn loops_on_trust(
    alloc: Global,
    handler: &Handler<'_>,
    table: &Table<'_>,
) -> Result<Vec<u32>, AllocError>
    ensures { IfOk result (λ trusted. (number : ℕ) → number < length handler.now.tree.spans
        → BoundFollows handler.now.graph handler.now.tree table.now.around.now table.now.known.now
        trusted.items number) }
{
    let mut trusted = Vec::new(alloc);
    for number in 0..handler.tree.spans().len() {
        put_on_trust(&mut trusted, handler, table, number)?;
    }
    Ok(trusted)
}
