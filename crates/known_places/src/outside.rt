//! Where words load or store outside of the class that is stated of them.

ghost use Rattle.std.specs.Prelude.{◌≡◌, ◌<◌, ◌++◌, ◌∷◌, [], ℕ, List, Option, length};
ghost use Rattle.std.specs.Prelude.{IfOk, IfSome, OnOk};
ghost use Rattle.control_flow.specs.Graph.{IsFlowGraph};
ghost use Rattle.control_flow.specs.Kinds.{IsAction};
ghost use Rattle.control_flow.specs.Flow.{Flow};
ghost use Rattle.control_flow.specs.declared.actions.Action.{Action};
ghost use Rattle.loop_bounds.specs.Handler.{HasItsTree};
ghost use Rattle.image.specs.Image.{Words};
ghost use Rattle.statement.specs.Stated.{Stated, class_at};
ghost use Rattle.known_words.specs.declared.words.Range.{Range};
ghost use Rattle.known_places.specs.Outside.{AreOutside, GoesOutsideWithin, PlaceGoesOutside};
ghost use Rattle.known_places.specs.Outside.{WordGoesOutside};
ghost use Rattle.known_places.specs.Outside.{GoesOutside, NoneKeptDoes, outside_at};

use crate::around::Around;
use crate::limits::limited;
use crate::loops::Table;
use crate::table::holds_along;
use crate::word::goes_outside;
use control_flow::{Place, action_of, graphs_are_well_formed};
use known_words::{Given, Knowledge, Range};
use loop_bounds::{Handler, place_in};
use std::alloc::{AllocError, Global};

// Outside of the stated class of the word at an address.
fn outside_of(handler: &Handler<'_>, known: &Knowledge, address: u32, word: u32) -> Option<Range>
    ensures { IfSome result (λ range. (action : Action) → IsAction word action
        → WordGoesOutside (class_at handler.now.statement address action.base) word address known.now range) }
{
    let base = action_of(word).base;
    let class = handler.statement.class_at(address, base);
    goes_outside(class, word, address, known)
}

// The same by what is known after a walk that keeps the bounds of all loops.
fn outside_within(
    handler: &Handler<'_>,
    around: Around,
    known: &Knowledge,
    address: u32,
    word: u32,
) -> Option<Range>
    ensures { IfSome result (λ range. (action : Action) → IsAction word action
        → GoesOutsideWithin handler.now.tree.spans around
        (class_at handler.now.statement address action.base) word address action known.now range) }
{
    let bounded = limited(handler.tree.spans(), around, known);
    outside_of(handler, &bounded, address, word)
}

// Of the word at the place of a number.
fn outside_in(handler: &Handler<'_>, table: &Table<'_>, number: usize) -> Option<Range>
    requires known { number < length table.now.known.now }
    requires around { number < length table.now.around.now }
    ensures { IfSome result (PlaceGoesOutside handler.now.image.now handler.now.statement handler.now.graph
        handler.now.tree table.now.around.now table.now.known.now number) }
{
    let Place::At(_, address) = place_in(&handler.graph, &handler.tree, number) else {
        return None;
    };
    let Some(word) = handler.image.word_at(address) else {
        return None;
    };
    outside_within(
        handler,
        table.around[number],
        &table.known[number],
        address,
        word,
    )
}

// Adds that.
fn put_outside(
    found: &mut Vec<Option<Range>>,
    handler: &Handler<'_>,
    table: &Table<'_>,
    number: usize,
) -> Result<(), AllocError>
    requires known { number < length table.now.known.now }
    requires around { number < length table.now.around.now }
    ensures { OnOk result ((outside : Option Range) × (found.new.items ≡ found.old.items ++ outside ∷ [])
        × IfSome outside (PlaceGoesOutside handler.entry.now.image.now handler.entry.now.statement
        handler.entry.now.graph handler.entry.now.tree table.entry.now.around.now table.entry.now.known.now
        number)) }
{
    let outside = outside_in(handler, table, number);
    found.push(outside)?;
    Ok(())
}

fn all_outside(
    alloc: Global,
    handler: &Handler<'_>,
    table: &Table<'_>,
) -> Result<Vec<Option<Range>>, AllocError>
    requires { length table.now.around.now ≡ length table.now.known.now }
    ensures { IfOk result (λ found. (number : ℕ) → number < length table.now.known.now
        → IfSome (outside_at found.items number) (PlaceGoesOutside handler.now.image.now
        handler.now.statement handler.now.graph handler.now.tree table.now.around.now table.now.known.now
        number)) }
{
    let mut found = Vec::new(alloc);
    for number in 0..table.known.len() {
        put_outside(&mut found, handler, table, number)?;
    }
    Ok(found)
}

/// Where the word of each place loads or stores, if that is outside of the class that is stated of it, by
/// facts on registers before the first step and by a table of what is known of the registers before each
/// place's word; both lists are by the numbers of the places. Where there is a range, the word, each time
/// that it is done, loads or stores a word at an address that is in the range and not of the class: of a
/// block the first, which the contract does not say. So it is in each run from the entry that starts as the
/// facts say, keeps the bounds of all loops, and so far keeps the statement step by step but for its classes.
/// None where the table is not seen to hold along each edge, as in `left_on_trust`.
///
/// It takes time linear in the edges, the facts and the loops, and in the places of each loop.
///
/// # Errors
///
/// An allocation failed.
pub fn outside_classes(
    alloc: Global,
    handler: &Handler<'_>,
    given: &[Given],
    table: &[Knowledge],
) -> Result<Option<Vec<Option<Range>>>, AllocError>
    requires graph { IsFlowGraph handler.now.image.now handler.now.statement handler.now.graph.profile
        handler.now.graph }
    requires tree { HasItsTree handler.now }
    ensures { IfOk result (λ found. IfSome found (λ list. AreOutside handler.now.image.now
        handler.now.statement handler.now.graph handler.now.tree given.now list.items)) }
{
    let Some(around) = holds_along(alloc, handler, given, table)? else {
        return Ok(None);
    };
    if around.len() != table.len() {
        return Ok(None);
    }
    let known = Table {
        known: table,
        around: &around,
    };
    graphs_are_well_formed(&handler.graph);
    let found = all_outside(alloc, handler, &known)?;
    Ok(Some(found))
}

/// States that no run that keeps a statement so far does a word that goes outside of its class. It does
/// nothing.
pub fn outside_is_not_kept()
    ensures { (words : Words) → (st : Stated) → (flow : Flow) → (given : List Given) → (place : Place)
        → (range : Range) → GoesOutside words st flow given place range
        → NoneKeptDoes words st flow given place }
{}
