ghost use Rattle.std.specs.Prelude.{◌≡◌, ◌<◌, ◌++◌, ◌∷◌, [], ℕ, List, Some, length};
ghost use Rattle.std.specs.Prelude.{IfOk, IfSome, IsTrue, MatchOption, OnOk};
ghost use Rattle.control_flow.specs.Graph.{IsFlowGraph};
ghost use Rattle.control_flow.specs.Kinds.{IsAction};
ghost use Rattle.control_flow.specs.declared.actions.Action.{Action};
ghost use Rattle.image.specs.Image.{word_of};
ghost use Rattle.loop_bounds.specs.Handler.{HasItsTree};
ghost use Rattle.loop_bounds.specs.Tree.{IsTree};
ghost use Rattle.numbered_walks.specs.declared.span.Span.{Span};
ghost use Rattle.statement.specs.Stated.{class_at};
ghost use Rattle.known_places.specs.OnTrust.{Justifies};
ghost use Rattle.known_places.specs.Table.{BeginsKnown, EdgeKeeps, HoldsAlong, KeepsAlong, StaysAt};
ghost use Rattle.known_places.specs.declared.around.Around.{Around};
ghost use Rattle.known_places.specs.Words.{Carries, StaysIn, StaysWithin};

use crate::around::{Around, loops_around, turns_along};
use crate::limits::limited;
use crate::loops::{Table, loops_on_trust};
use crate::on_trust::OnTrust;
use crate::word::{known_after, stays_in};
use control_flow::{Edge, Label, Place, action_of, graphs_are_well_formed};
use known_words::{Given, Knowledge};
use loop_bounds::{Handler, place_in};
use numbered_walks::NumberedEdge;
use std::alloc::{AllocError, Global};

// Whether the one, before the word at the address, is seen to give the other after it.
fn carries(word: u32, address: u32, label: Label, before: &Knowledge, next: &Knowledge) -> bool
    ensures { IsTrue result → Carries word address label before.now next.now }
{
    match known_after(word, address, label, before) {
        Some(known) => known.implies(next),
        None => false,
    }
}

// Whether that is seen of the word that an edge leaves.
fn word_carries(handler: &Handler<'_>, edge: &Edge, before: &Knowledge, next: &Knowledge) -> bool
    ensures { IsTrue result → (calls : List ℕ) → (address word : ℕ) → edge.now.from ≡ Place.At calls address
        → word_of handler.now.image.now address ≡ Some word
        → Carries word address edge.now.label before.now next.now }
{
    let Place::At(_, address) = edge.from else {
        return true;
    };
    let Some(word) = handler.image.word_at(address) else {
        return true;
    };
    carries(word, address, edge.label, before, next)
}

// Whether what is known before an edge is seen to give what is known after it.
fn edge_keeps(handler: &Handler<'_>, table: &Table<'_>, edge: &Edge, numbered: NumberedEdge) -> bool
    ensures { IsTrue result → EdgeKeeps handler.now.image.now handler.now.tree.spans table.now.around.now
        table.now.known.now edge.now numbered }
{
    if table.known.len() <= numbered.to {
        return true;
    }
    if table.known.len() <= numbered.from {
        return false;
    }
    if table.around.len() <= numbered.to {
        return false;
    }
    if table.around.len() <= numbered.from {
        return false;
    }
    let spans = handler.tree.spans();
    let before = table.around[numbered.from];
    let after = table.around[numbered.to];
    let Some(turns) = turns_along(spans, before, after, numbered) else {
        return false;
    };
    let next = table.known[numbered.to].before(turns);
    word_carries(handler, edge, &table.known[numbered.from], &next)
}

fn keeps_along(handler: &Handler<'_>, table: &Table<'_>, number: usize) -> bool
    requires tree { IsTree handler.now.graph handler.now.tree }
    requires known { number < length handler.now.graph.edges }
    ensures { IsTrue result → KeepsAlong handler.now.image.now handler.now.graph handler.now.tree
        table.now.around.now table.now.known.now number }
{
    let numbered = handler.tree.edges()[number];
    edge_keeps(handler, table, &handler.graph.edges()[number], numbered)
}

// Whether that is so along all edges.
fn keeps_along_all(handler: &Handler<'_>, table: &Table<'_>) -> bool
    requires tree { IsTree handler.now.graph handler.now.tree }
    ensures { IsTrue result → (k : ℕ) → k < length handler.now.graph.edges
        → KeepsAlong handler.now.image.now handler.now.graph handler.now.tree table.now.around.now
        table.now.known.now k }
{
    for number in 0..handler.graph.edges().len() {
        if !keeps_along(handler, table, number) {
            return false;
        }
    }
    true
}

// Whether the stated class of the word at an address is seen to follow from what is known before it.
fn follows(handler: &Handler<'_>, known: &Knowledge, address: u32, word: u32) -> bool
    ensures { IsTrue result → (action : Action) → IsAction word action
        → StaysIn (class_at handler.now.statement address action.base) word address known.now }
{
    let base = action_of(word).base;
    let class = handler.statement.class_at(address, base);
    stays_in(class, word, address, known)
}

// The same by what is known after a walk that keeps the bounds of all loops.
fn follows_within(
    handler: &Handler<'_>,
    around: Around,
    known: &Knowledge,
    address: u32,
    word: u32,
) -> bool
    ensures { IsTrue result → (action : Action) → IsAction word action
        → StaysWithin handler.now.tree.spans around
        (class_at handler.now.statement address action.base) word address known.now }
{
    let bounded = limited(handler.tree.spans(), around, known);
    follows(handler, &bounded, address, word)
}

// Whether it is seen to follow at the place of a number, and if not at which address it is on trust.
fn on_trust_at(handler: &Handler<'_>, table: &Table<'_>, number: usize) -> Option<u32>
    requires known { number < length table.now.known.now }
    requires around { number < length table.now.around.now }
    ensures { MatchOption result
        (StaysAt handler.now.image.now handler.now.statement handler.now.graph handler.now.tree
        table.now.around.now table.now.known.now [] number)
        (λ address. StaysAt handler.now.image.now handler.now.statement handler.now.graph handler.now.tree
        table.now.around.now table.now.known.now (address ∷ []) number) }
{
    let Place::At(_, address) = place_in(&handler.graph, &handler.tree, number) else {
        return None;
    };
    let Some(word) = handler.image.word_at(address) else {
        return None;
    };
    let known = &table.known[number];
    if follows_within(handler, table.around[number], known, address, word) {
        return None;
    }
    Some(address)
}

// Adds the address of the place of a number, where the class of its word is on trust.
fn put_on_trust(
    trusted: &mut Vec<u32>,
    handler: &Handler<'_>,
    table: &Table<'_>,
    number: usize,
) -> Result<(), AllocError>
    requires known { number < length table.now.known.now }
    requires around { number < length table.now.around.now }
    ensures { OnOk result ((more : List ℕ) × (trusted.new.items ≡ trusted.old.items ++ more)
        × StaysAt handler.entry.now.image.now handler.entry.now.statement handler.entry.now.graph
        handler.entry.now.tree table.entry.now.around.now table.entry.now.known.now more number) }
{
    if let Some(address) = on_trust_at(handler, table, number) {
        trusted.push(address)?;
    }
    Ok(())
}

// The addresses at which the classes are on trust.
fn addresses_on_trust(
    alloc: Global,
    handler: &Handler<'_>,
    table: &Table<'_>,
) -> Result<Vec<u32>, AllocError>
    requires { length table.now.around.now ≡ length table.now.known.now }
    ensures { IfOk result (λ trusted. (number : ℕ) → number < length table.now.known.now
        → StaysAt handler.now.image.now handler.now.statement handler.now.graph handler.now.tree
        table.now.around.now table.now.known.now trusted.items number) }
{
    let mut trusted = Vec::new(alloc);
    for number in 0..table.known.len() {
        put_on_trust(&mut trusted, handler, table, number)?;
    }
    Ok(trusted)
}

// Whether what is known before the first step, by the facts, is seen to be known at the entry.
fn begins_known(table: &[Knowledge], given: &[Given]) -> bool
    ensures { IsTrue result → (spans : List Span) → (around : List Around)
        → BeginsKnown spans around given.now table.now }
{
    if table.is_empty() {
        return false;
    }
    Knowledge::given(given).implies(&table[0])
}

/// The loops that are counted at each place, where the table has a row for each place, holds at the entry by
/// the facts, and is seen to go over along each edge. `AllocError`: an allocation failed.
pub(crate) fn holds_along(
    alloc: Global,
    handler: &Handler<'_>,
    given: &[Given],
    table: &[Knowledge],
) -> Result<Option<Vec<Around>>, AllocError>
    requires { HasItsTree handler.now }
    ensures { IfOk result (λ found. IfSome found (λ around. HoldsAlong handler.now.image.now handler.now.graph
        handler.now.tree given.now around.items table.now)) }
{
    if table.len() != handler.graph.places().len() {
        return Ok(None);
    }
    if !begins_known(table, given) {
        return Ok(None);
    }
    let around = loops_around(alloc, handler)?;
    let found = Table {
        known: table,
        around: &around,
    };
    if !keeps_along_all(handler, &found) {
        return Ok(None);
    }
    Ok(Some(around))
}

/// What is left on trust of the statement, by facts on registers before the first step and by a table of what
/// is known of the registers before each place's word, by the numbers of the places: the addresses, in bytes,
/// of the words whose stated class is on trust, once for each place, and of the headers of the loops whose
/// bound is, once for each list of calls. All other classes and bounds follow: each run from the entry,
/// finished or not, that starts as the facts say, keeps the statement step by step but for its classes and
/// its loops' bounds, and keeps those on trust, keeps all of them. None where the table is not seen to hold
/// along each edge; so of a handler inside of which a word restores R15's mode.
///
/// It takes time linear in the edges, the facts and the loops, and in the places of each loop.
///
/// # Errors
///
/// An allocation failed.
pub fn left_on_trust(
    alloc: Global,
    handler: &Handler<'_>,
    given: &[Given],
    table: &[Knowledge],
) -> Result<Option<OnTrust>, AllocError>
    requires graph { IsFlowGraph handler.now.image.now handler.now.statement handler.now.graph.profile
        handler.now.graph }
    requires tree { HasItsTree handler.now }
    ensures { IfOk result (λ found. IfSome found (λ trusted. Justifies handler.now.image.now
        handler.now.statement handler.now.graph given.now trusted)) }
{
    let Some(around) = holds_along(alloc, handler, given, table)? else {
        return Ok(None);
    };
    if around.len() != table.len() {
        return Ok(None);
    }
    let found = Table {
        known: table,
        around: &around,
    };
    graphs_are_well_formed(&handler.graph);
    let classes = addresses_on_trust(alloc, handler, &found)?;
    let loops = loops_on_trust(alloc, handler, &found)?;
    Ok(Some(OnTrust { classes, loops }))
}
