//! Where words go of whose stated class no address is that they reach.

ghost use Rattle.std.specs.Prelude.{◌≡◌, ◌<◌, ◌+◌, ◌==◌, if◌then◌else◌, ℕ, IfOk, OnOk, Some, length};
ghost use Rattle.std.specs.Prelude.{option_map};
ghost use Rattle.std.specs.BTreeMap.{get};
ghost use Rattle.std.specs.Ordering.{nat_cmp};
ghost use Rattle.known_places.specs.Outside.{outside_at};
ghost use Rattle.justify_reports.specs.Outside.{AreFoundOutside, both, hull, with_place};

use control_flow::Place;
use known_words::Range;
use loop_bounds::{Handler, place_in};
use std::alloc::{AllocError, Global};
use std::collections::BTreeMap;

fn hull(first: Range, second: Range) -> Range
    ensures { result ≡ hull first second }
{
    Range {
        low: first.low.min(second.low),
        high: first.high.max(second.high),
    }
}

fn both(first: Option<Range>, second: Option<Range>) -> Option<Range>
    ensures { result ≡ both first second }
{
    let Some(first) = first else {
        return None;
    };
    let Some(second) = second else {
        return None;
    };
    Some(hull(first, second))
}

// With one place more.
fn with_place(old: Option<&Option<Range>>, range: Option<Range>) -> Option<Range>
    ensures { result ≡ with_place (option_map (λ o. o.now) old.entry) range }
{
    match old {
        Some(old) => both(*old, range),
        None => range,
    }
}

fn put_range(
    found: &mut BTreeMap<u32, Option<Range>>,
    at: u32,
    range: Option<Range>,
) -> Result<(), AllocError>
    ensures { OnOk result ((a : ℕ) → get nat_cmp found.new a
        ≡ (if at == a then Some (with_place (get nat_cmp found.old at) range) else get nat_cmp found.old a)) }
{
    let all = with_place(found.get(&at), range);
    found.insert(at, all)?;
    Ok(())
}

fn outside_at(outside: &[Option<Range>], number: usize) -> Option<Range>
    ensures { result ≡ outside_at outside.now number }
{
    match outside.get(number) {
        Some(range) => *range,
        None => None,
    }
}

// Adds where the word at the place of a number goes.
fn put_place(
    found: &mut BTreeMap<u32, Option<Range>>,
    handler: &Handler<'_>,
    outside: &[Option<Range>],
    number: usize,
) -> Result<(), AllocError>
    ensures { AreFoundOutside handler.now.graph handler.now.tree outside.now number (get nat_cmp found.old)
        → OnOk result (AreFoundOutside handler.now.graph handler.now.tree outside.now (number + 1)
        (get nat_cmp found.new)) }
{
    let Place::At(_, address) = place_in(&handler.graph, &handler.tree, number) else {
        return Ok(());
    };
    let range = outside_at(outside, number);
    put_range(found, address, range)
}

/// Where the word at each address goes outside of its class: none, where that is not seen from all its
/// places. `AllocError`: an allocation failed.
pub(crate) fn ranges_outside(
    alloc: Global,
    handler: &Handler<'_>,
    outside: &[Option<Range>],
) -> Result<BTreeMap<u32, Option<Range>>, AllocError>
    ensures { IfOk result (λ found. AreFoundOutside handler.now.graph handler.now.tree outside.now
        (length handler.now.graph.places) (get nat_cmp found)) }
{
    let mut found = BTreeMap::new(alloc);
    for number in 0..handler.graph.places().len() {
        put_place(&mut found, handler, outside, number)?;
    }
    Ok(found)
}
