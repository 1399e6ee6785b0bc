ghost use Rattle.std.specs.Prelude.{◌≡◌, ◌+◌, ◌*◌, ◌≤◌, IfOk, find, is_some};
ghost use Rattle.std.specs.BTreeMap.{get};
ghost use Rattle.std.specs.Ordering.{nat_cmp};
ghost use Rattle.assembler.specs.Assembles.{addresses_from};
ghost use Rattle.bus_ticks.specs.declared.space.TheConstants.{SPACE_END};
ghost use Rattle.text_explained.specs.Costing.{IsCosting, figures_of, first_of};
ghost use Rattle.text_explained.specs.Table.{first_at, is_passed, line_taken, passes_of, row_figures};
ghost use Rattle.text_explained.specs.Table.{taken_on, ticks_in, ticks_of, told_at, told_word};

use crate::counted_walk::CountedWalk;
use crate::pricing::{Pricing, priced};
use crate::starts::{WorstStarts, latest_starts};
use crate::walk_tally::{Taken, WalkTally};
use assembler::PlacedLine;
use std::alloc::{AllocError, Global};
use std::collections::BTreeMap;
use walk_counts::capped_sum;

/// The figures of a row.
#[derive(Clone, Copy)]
pub struct RowFigures {
    /// What the walk takes there; None where the graph has no place.
    pub taken: Option<Taken>,
    /// When it begins for the first time, at the latest, in ticks; None where the graph has no place, or
    /// where that is not asked for.
    pub first: Option<u64>,
    /// When it begins at the latest, in ticks; None where the graph has no place.
    pub latest: Option<u64>,
    /// What the price takes for granted; None where the graph has no place.
    pub pricing: Option<Pricing>,
    /// The bound, of which the ticks are a part.
    pub bound: u64,
}

/// What the rows of a table are made of.
#[derive(Drop)]
pub(crate) struct Costing<'a> {
    pub(crate) tally: WalkTally,
    /// When the words begin for the first time, at the latest, by the same addresses; None where that is not
    /// asked for.
    first: Option<&'a BTreeMap<u32, u64>>,
    /// When the words begin at the latest, by the addresses where the graph has a place.
    latest: BTreeMap<u32, u64>,
    /// By the addresses where the graph has a place.
    prices: BTreeMap<u32, Pricing>,
    pub(crate) bound: u64,
}

impl<'a> Costing<'a> {
    /// Those of a greatest walk. `AllocError`: an allocation failed.
    pub(crate) fn of_walk(
        alloc: Global,
        walk: CountedWalk<'_, '_>,
        starts: WorstStarts<'a>,
    ) -> Result<Costing<'a>, AllocError>
        ensures { IfOk result
            (IsCosting walk.entry.handler.now.image.now walk.entry.handler.now.statement
            walk.entry.handler.now.graph walk.entry.longest.now starts.entry.latest.now
            (first_of starts.entry.first)) }
    {
        let tally = WalkTally::of_counts(alloc, &walk.handler.graph, walk.counts)?;
        let latest = latest_starts(alloc, &walk.handler.graph, starts.latest)?;
        let prices = priced(alloc, walk.handler)?;
        Ok(Costing {
            tally,
            first: starts.first,
            latest,
            prices,
            bound: walk.longest.bound,
        })
    }

    /// Whether first starts are asked for.
    pub(crate) fn has_first(&self) -> bool
        ensures { result ≡ is_some (figures_of self.now).starts.first }
    {
        self.first.is_some()
    }

    // When the word at an address begins for the first time; None where that is not asked for.
    fn first_at(&self, at: u32) -> Option<u64>
        ensures { result ≡ first_at (figures_of self.now).starts.first at }
    {
        match self.first {
            Some(first) => first.get(&at).copied(),
            None => None,
        }
    }

    /// The figures of a row: what is taken there, and what is said of the word at an address.
    pub(crate) fn figures(&self, taken: Option<Taken>, at: u32) -> RowFigures
        ensures { result ≡ row_figures (figures_of self.now) taken at }
    {
        RowFigures {
            taken,
            first: self.first_at(at),
            latest: self.latest.get(&at).copied(),
            pricing: self.prices.get(&at).copied(),
            bound: self.bound,
        }
    }
}

/// The ticks that the walk takes at an address.
pub(crate) fn ticks_of(tally: &WalkTally, at: u32) -> u64
    ensures { result ≡ ticks_of (get nat_cmp tally.now.by_address at) }
{
    match tally.at(at) {
        Some(taken) => taken.ticks,
        None => 0,
    }
}

fn passes_of(tally: &WalkTally, at: u32) -> u64
    ensures { result ≡ passes_of (get nat_cmp tally.now.by_address at) }
{
    match tally.at(at) {
        Some(taken) => taken.passes,
        None => 0,
    }
}

/// The ticks that the walk takes at so many words from an address on.
pub(crate) fn ticks_in(tally: &WalkTally, from: u32, count: usize) -> u64
    requires { from + 4 * count ≤ SPACE_END }
    ensures { result ≡ ticks_in (get nat_cmp tally.now.by_address) from count }
{
    let mut at = from;
    let mut ticks = 0;
    for _ in 0..count {
        ticks = capped_sum(ticks, ticks_of(tally, at));
        at += 4;
    }
    ticks
}

// Whether the walk passes an address.
fn is_passed(tally: &WalkTally, at: u32) -> bool
    ensures { result ≡ is_passed (get nat_cmp tally.now.by_address) at }
{
    passes_of(tally, at) > 0
}

// The first of so many words from an address on that the walk passes.
fn first_passed(tally: &WalkTally, from: u32, count: usize) -> Option<u32>
    requires { from + 4 * count ≤ SPACE_END }
    ensures { result ≡ find (is_passed (get nat_cmp tally.now.by_address)) (addresses_from from count) }
{
    let mut at = from;
    for _ in 0..count {
        if is_passed(tally, at) {
            return Some(at);
        }
        at += 4;
    }
    None
}

// The first of so many words from an address on at which the graph has a place.
fn first_reached(tally: &WalkTally, from: u32, count: usize) -> Option<u32>
    requires { from + 4 * count ≤ SPACE_END }
    ensures { result
        ≡ find (λ a. is_some (get nat_cmp tally.now.by_address a)) (addresses_from from count) }
{
    let mut at = from;
    for _ in 0..count {
        if tally.at(at).is_some() {
            return Some(at);
        }
        at += 4;
    }
    None
}

// The word of a line of which its row tells; None where the graph has no place on the line.
fn told_word(tally: &WalkTally, line: PlacedLine) -> Option<u32>
    ensures { result ≡ told_word (get nat_cmp tally.now.by_address) line }
{
    let passed = first_passed(tally, line.at, line.words);
    if passed.is_some() {
        return passed;
    }
    first_reached(tally, line.at, line.words)
}

// What the walk takes at an address, with the ticks of all words of a line.
fn taken_on(tally: &WalkTally, line: PlacedLine, at: u32) -> Option<Taken>
    ensures { result ≡ taken_on (get nat_cmp tally.now.by_address) line at }
{
    let taken = tally.at(at)?;
    Some(Taken {
        ticks: ticks_in(tally, line.at, line.words),
        ..taken
    })
}

/// What the row of a line tells.
#[derive(Clone, Copy)]
pub(crate) struct Told {
    /// The address of the word of which it tells: the first of the line's words that the walk passes; if it
    /// passes none, the first at which the graph has a place; and if it has none there, the first.
    pub(crate) at: u32,
    /// What the walk takes on the line: it passes the line as often as that word. None where the graph has no
    /// place on the line.
    pub(crate) taken: Option<Taken>,
}

/// What the row of a line tells.
pub(crate) fn told_of(tally: &WalkTally, line: PlacedLine) -> Told
    ensures at { result.at ≡ told_at (get nat_cmp tally.now.by_address) line }
    ensures taken { result.taken ≡ line_taken (get nat_cmp tally.now.by_address) line }
{
    match told_word(tally, line) {
        Some(at) => Told {
            at,
            taken: taken_on(tally, line, at),
        },
        None => Told {
            at: line.at,
            taken: None,
        },
    }
}
