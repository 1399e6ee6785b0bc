//! Where a run that keeps its statement and a greatest walk differ.

ghost use Rattle.std.specs.Prelude.{◌≡◌, ◌+◌, ◌++◌, ℕ, IfOk, List, OnOk, flat_map, length};
ghost use Rattle.std.specs.BTreeMap.{get};
ghost use Rattle.std.specs.Ordering.{nat_cmp};
ghost use Rattle.kept_runs.specs.Passing.{IsTally, Pass};
ghost use Rattle.longest_walk.specs.Folded.{unfolded};
ghost use Rattle.walk_counts.specs.Counts.{capped};
ghost use Rattle.follow_reports.specs.Differences.{Adds, HasAdded, access_cause, agree};
ghost use Rattle.follow_reports.specs.Differences.{capped_at, cause_of, compared_in, differences_at};
ghost use Rattle.follow_reports.specs.Differences.{less, more, pricing_cause, tallied, ticks_apart};
ghost use Rattle.follow_reports.specs.Differences.{IsListed, is_same_way, with_place};

use bus_ticks::Class;
use control_flow::{Graph, Place};
use kept_runs::Passed;
use longest_walk::FoldedWalk;
use loop_bounds::Handler;
use std::alloc::{AllocError, Global};
use std::cmp::Reverse;
use std::collections::BTreeMap;
use text_explained::{Granted, Pricing, WalkTally, priced};
use walk_counts::capped_sum;

/// How often an address is passed, and the ticks there, each counted up to 2^64 - 1.
#[derive(Clone, Copy)]
pub(crate) struct Numbers {
    pub(crate) passes: u64,
    /// How many of the passes do the instruction, as its condition holds.
    pub(crate) done: u64,
    pub(crate) ticks: u64,
}

/// What a run and a greatest walk do at an address.
#[derive(Clone, Copy)]
pub(crate) struct Compared {
    pub(crate) run: Numbers,
    pub(crate) bound: Numbers,
}

/// Why a run and a greatest walk differ at an address.
#[derive(Clone, Copy)]
pub(crate) enum Cause {
    /// The run goes another way, or turns a loop another number of times.
    OtherWay,
    /// A multiply takes fewer cycles.
    Multiply,
    /// What is loaded or stored is of another class, or of a device of another speed.
    Access,
    /// Fetches or transfers are cheaper in memory.
    Fetches,
    /// The handler leaves to another class.
    Leaving,
}

/// A word at which a run and a greatest walk differ.
#[derive(Clone, Copy)]
pub(crate) struct Difference {
    /// Its address.
    pub(crate) at: u32,
    pub(crate) word: u32,
    pub(crate) compared: Compared,
    pub(crate) cause: Cause,
}

// What a run does at each address.
#[derive(Drop)]
struct RunTally {
    by_address: BTreeMap<u32, Numbers>,
}

// What a run and a greatest walk do at each address.
#[derive(Clone, Copy)]
struct Tallies<'a> {
    run: &'a RunTally,
    walk: &'a WalkTally,
}

fn capped_ticks(ticks: u64, more: u128) -> u64
    ensures { result ≡ capped (ticks + more) }
{
    let most = u64::MAX;
    let left = most - ticks;
    if more > u128::from(left) {
        return most;
    }
    ticks + more as u64
}

impl Numbers {
    const NONE: Numbers = Numbers {
        passes: 0,
        done: 0,
        ticks: 0,
    };

    // What is done at a place more.
    fn with_place(self, passed: Passed) -> Numbers
        ensures { result ≡ with_place self passed }
    {
        Numbers {
            passes: capped_sum(self.passes, passed.passes),
            done: capped_sum(self.done, passed.done),
            ticks: capped_ticks(self.ticks, passed.ticks),
        }
    }
}

impl RunTally {
    fn tallied(&self, address: u32) -> Numbers
        ensures { result ≡ tallied self.now address }
    {
        self.by_address
            .get(&address)
            .copied()
            .unwrap_or(Numbers::NONE)
    }

    // Adds what is done at a place.
    fn add(&mut self, place: &Place, passed: Passed) -> Result<(), AllocError>
        ensures { OnOk result (Adds place.now passed self.old self.new) }
    {
        let Place::At(_, address) = place else {
            return Ok(());
        };
        let more = self.tallied(*address).with_place(passed);
        self.by_address.insert(*address, more)?;
        Ok(())
    }

    // What is done at the places, in their order.
    fn of_places(alloc: Global, graph: &Graph, by_place: &[Passed]) -> Result<RunTally, AllocError>
        requires { length by_place.now ≡ length graph.now.places }
        ensures { IfOk result (HasAdded graph.now.places by_place.now (length graph.now.places)) }
    {
        let mut tally = RunTally {
            by_address: BTreeMap::new(alloc),
        };
        for index in 0..graph.places().len() {
            tally.add(&graph.places()[index], by_place[index])?;
        }
        Ok(tally)
    }
}

impl Compared {
    fn agree(self) -> bool
        ensures { result ≡ agree self }
    {
        self.run.passes == self.bound.passes && self.run.ticks == self.bound.ticks
    }

    // Whether the run goes the same way there.
    fn is_same_way(self) -> bool
        ensures { result ≡ is_same_way self }
    {
        self.run.passes == self.bound.passes && self.run.done == self.bound.done
    }
}

impl Tallies<'_> {
    fn compared_in(self, address: u32) -> Compared
        ensures { result ≡ compared_in self.entry.run.now self.entry.walk.now address }
    {
        let bound = match self.walk.at(address) {
            Some(taken) => Numbers {
                passes: taken.passes,
                done: taken.done,
                ticks: taken.ticks,
            },
            None => Numbers::NONE,
        };
        Compared {
            run: self.run.tallied(address),
            bound,
        }
    }
}

// What the class of a transfer has to do with it.
fn access_cause(class: Class) -> Cause
    ensures { result ≡ access_cause class }
{
    match class {
        Class::Ram | Class::Rom => Cause::Fetches,
        Class::Any | Class::Io | Class::Slow | Class::Medium | Class::Fast | Class::Synchronous =>
            Cause::Access,
    }
}

// What the price of a word takes for granted that may be otherwise.
fn pricing_cause(pricing: Pricing) -> Cause
    ensures { result ≡ pricing_cause pricing }
{
    if pricing.leave.is_some() {
        return Cause::Leaving;
    }
    match pricing.granted {
        Granted::Nothing => Cause::Fetches,
        Granted::Multiplier(_) => Cause::Multiply,
        Granted::Access(class) => access_cause(class),
    }
}

fn cause_of(pricing: Option<Pricing>, compared: Compared) -> Cause
    ensures { result ≡ cause_of pricing compared }
{
    if !compared.is_same_way() {
        return Cause::OtherWay;
    }
    match pricing {
        Some(pricing) => pricing_cause(pricing),
        None => Cause::Fetches,
    }
}

impl Difference {
    /// By how many ticks the run takes less there.
    pub(crate) fn less(&self) -> u64
        ensures { result ≡ less self.now }
    {
        self.compared
            .bound
            .ticks
            .saturating_sub(self.compared.run.ticks)
    }

    /// By how many it takes more.
    pub(crate) fn more(&self) -> u64
        ensures { result ≡ more self.now }
    {
        self.compared
            .run
            .ticks
            .saturating_sub(self.compared.bound.ticks)
    }

    fn ticks_apart(&self) -> u64
        ensures { result ≡ ticks_apart self.now }
    {
        self.compared.run.ticks.abs_diff(self.compared.bound.ticks)
    }
}

// Adds a word, if run and walk differ there.
fn push_word(
    found: &mut Vec<Difference>,
    tallies: Tallies<'_>,
    prices: &BTreeMap<u32, Pricing>,
    at: u32,
    word: u32,
) -> Result<(), AllocError>
    ensures { OnOk result
        (found.new.items
        ≡ found.old.items
        ++ differences_at (compared_in tallies.entry.run.now tallies.entry.walk.now)
        (get nat_cmp prices.now) (at, word)) }
{
    let compared = tallies.compared_in(at);
    if compared.agree() {
        return Ok(());
    }
    let cause = cause_of(prices.get(&at).copied(), compared);
    found.push(Difference {
        at,
        word,
        compared,
        cause,
    })?;
    Ok(())
}

// Those of the words at which run and walk differ, in their order.
fn found_at(
    alloc: Global,
    tallies: Tallies<'_>,
    prices: &BTreeMap<u32, Pricing>,
    words: &[(u32, u32)],
) -> Result<Vec<Difference>, AllocError>
    ensures { IfOk result
        (λ found. found.items
        ≡ flat_map (differences_at (compared_in tallies.entry.run.now tallies.entry.walk.now)
        (get nat_cmp prices.now)) words.now) }
{
    let mut found = Vec::new(alloc);
    for (at, word) in words {
        push_word(&mut found, tallies, prices, *at, *word)?;
    }
    Ok(found)
}

// The words of the handler's image at which run and walk differ, the greatest difference first.
fn listed_by(
    alloc: Global,
    handler: &Handler<'_>,
    tallies: Tallies<'_>,
) -> Result<Vec<Difference>, AllocError>
    ensures { IfOk result
        (λ list. IsListed handler.now.image.now handler.now.statement handler.now.graph
        (compared_in tallies.entry.run.now tallies.entry.walk.now) list.items) }
{
    let prices = priced(alloc, handler)?;
    let words = handler.image.listed(alloc)?;
    let mut list = found_at(alloc, tallies, &prices, &words)?;
    list.sort_by_key(|difference| Reverse(difference.ticks_apart()))?;
    Ok(list)
}

/// Where a run and a walk of the handler's graph differ: each word of its image where one passes more
/// often or takes other ticks than the other, with how often the run passes it and its ticks there, those
/// of the walk, and why they differ; the greatest difference first, and of equal ones that of the lower
/// address. `by_place` says what the run does at each place of the graph, in their order. `AllocError`: an
/// allocation failed.
pub(crate) fn differences(
    alloc: Global,
    handler: &Handler<'_>,
    by_place: &[Passed],
    walk: &FoldedWalk,
) -> Result<Vec<Difference>, AllocError>
    requires { length by_place.now ≡ length handler.now.graph.places }
    ensures { (passes : List Pass) → IsTally handler.now.graph passes by_place.now
        → IfOk result
        (λ list. IsListed handler.now.image.now handler.now.statement handler.now.graph
        (capped_at handler.now.graph passes (unfolded walk.now)) list.items) }
{
    let run_tally = RunTally::of_places(alloc, &handler.graph, by_place)?;
    let walk_tally = WalkTally::of_walk(alloc, &handler.graph, walk)?;
    let tallies = Tallies {
        run: &run_tally,
        walk: &walk_tally,
    };
    listed_by(alloc, handler, tallies)
}
