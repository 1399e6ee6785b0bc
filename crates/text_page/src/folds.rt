//! The stretches of a listing that can be folded: stated loops, and routines that are called.

ghost use Rattle.std.specs.Prelude.{◌≡◌, ◌||◌, ℕ, IfOk, OnOk, nat_lt, length};
ghost use Rattle.std.specs.BTreeMap.{get};
ghost use Rattle.std.specs.BTreeSet.{contains};
ghost use Rattle.std.specs.Ordering.{nat_cmp};
ghost use Rattle.text_explained.specs.Sums.{calls_of, is_call_to, is_called};
ghost use Rattle.text_page.specs.Folding.{parts_in};
ghost use Rattle.text_page.specs.Folds.{ends_at, holds, is_begin, is_routine, loop_at, loop_fold};
ghost use Rattle.text_page.specs.Folds.{loop_from, parts_of, routine_at, routine_fold};

use control_flow::{Edge, Graph, Place};
use loop_bounds::Handler;
use statement::Loop;
use std::alloc::{AllocError, Global};
use std::collections::{BTreeMap, BTreeSet};

/// What a stretch is.
#[derive(Clone, Copy)]
pub(crate) enum Part {
    /// A stated loop, with its bound.
    Loop(u32),
    /// A routine that is called.
    Routine,
}

/// A stretch of addresses.
#[derive(Clone, Copy)]
pub(crate) struct Fold {
    pub(crate) part: Part,
    pub(crate) first: u32,
    pub(crate) last: u32,
    /// The address of the word whose label names it.
    pub(crate) name: u32,
}

/// Where stretches begin.
#[derive(Drop)]
pub(crate) struct Foldable {
    pub(crate) entry: u32,
    /// The words that are called.
    pub(crate) called: BTreeSet<u32>,
    /// Loops by their first words.
    pub(crate) loops: BTreeMap<u32, Loop>,
}

// Loops by their first words; of those with one first word the last.
fn loops_by_first(alloc: Global, loops: &[Loop]) -> Result<BTreeMap<u32, Loop>, AllocError>
    ensures { IfOk result (λ found. (at : ℕ) → get nat_cmp found at ≡ loop_from loops.now at) }
{
    let mut found = BTreeMap::new(alloc);
    for stated in loops {
        found.insert(stated.first, *stated)?;
    }
    Ok(found)
}

// The calls inside of which a place is.
fn calls_of(place: &Place) -> &[u32]
    ensures { result.now ≡ calls_of place.now }
{
    match place {
        Place::At(calls, _) => calls.items(),
        Place::Exit => &[],
    }
}

// Whether an edge leads deeper than the place from which it comes.
fn is_deeper(edge: &Edge) -> bool
    ensures { result ≡ nat_lt (length (calls_of edge.now.from)) (length (calls_of edge.now.to)) }
{
    calls_of(&edge.from).len() < calls_of(&edge.to).len()
}

// Adds the word that an edge calls, if it does.
fn note_called(called: &mut BTreeSet<u32>, edge: &Edge) -> Result<(), AllocError>
    ensures { OnOk result
        ((at : ℕ)
        → contains nat_cmp called.new at ≡ (contains nat_cmp called.old at || is_call_to at edge.now)) }
{
    if !is_deeper(edge) {
        return Ok(());
    }
    let Place::At(_, at) = edge.to else {
        return Ok(());
    };
    called.insert(at)?;
    Ok(())
}

// The words that the edges of a graph call.
fn called_words(alloc: Global, graph: &Graph) -> Result<BTreeSet<u32>, AllocError>
    ensures { IfOk result
        (λ called. (at : ℕ) → contains nat_cmp called at ≡ is_called graph.now.edges at) }
{
    let mut called = BTreeSet::new(alloc);
    for edge in graph.edges() {
        note_called(&mut called, edge)?;
    }
    Ok(called)
}

fn is_routine(part: Part) -> bool
    ensures { result ≡ is_routine part }
{
    match part {
        Part::Routine => true,
        Part::Loop(_) => false,
    }
}

fn loop_fold(stated: &Loop) -> Fold
    ensures { result ≡ loop_fold stated.now }
{
    Fold {
        part: Part::Loop(stated.bound),
        first: stated.first,
        last: stated.last,
        name: stated.header,
    }
}

fn routine_fold(at: u32) -> Fold
    ensures { result ≡ routine_fold at }
{
    Fold {
        part: Part::Routine,
        first: at,
        last: u32::MAX,
        name: at,
    }
}

impl Foldable {
    /// What can be folded of a handler. `AllocError`: an allocation failed.
    pub(crate) fn new(alloc: Global, handler: &Handler<'_>) -> Result<Foldable, AllocError>
        ensures { IfOk result
            (λ found. parts_in found ≡ parts_of handler.now.statement handler.now.graph) }
    {
        Ok(Foldable {
            entry: handler.statement.entry(),
            called: called_words(alloc, &handler.graph)?,
            loops: loops_by_first(alloc, handler.statement.loops().list())?,
        })
    }

    // Whether the handler or a routine begins at an address.
    fn is_begin(&self, at: u32) -> bool
        ensures { result ≡ is_begin (parts_in self.now) at }
    {
        at == self.entry || self.called.contains(&at)
    }

    // Whether a routine ends before an address.
    fn ends_at(&self, at: u32, fold: Fold) -> bool
        ensures { result ≡ ends_at (parts_in self.now) at fold }
    {
        is_routine(fold.part) && (self.is_begin(at) && at != fold.first)
    }

    /// Whether a stretch holds an address.
    pub(crate) fn holds(&self, at: u32, fold: Fold) -> bool
        ensures { result ≡ holds (parts_in self.now) at fold }
    {
        (fold.first <= at && at <= fold.last) && !self.ends_at(at, fold)
    }

    /// The routine that begins at an address.
    pub(crate) fn routine_at(&self, at: u32) -> Option<Fold>
        ensures { result ≡ routine_at (parts_in self.now) at }
    {
        if self.called.contains(&at) {
            return Some(routine_fold(at));
        }
        None
    }

    /// The loop that begins at an address.
    pub(crate) fn loop_at(&self, at: u32) -> Option<Fold>
        ensures { result ≡ loop_at (parts_in self.now) at }
    {
        match self.loops.get(&at) {
            Some(stated) => Some(loop_fold(stated)),
            None => None,
        }
    }
}
