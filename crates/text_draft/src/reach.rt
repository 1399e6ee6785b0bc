ghost use Rattle.std.specs.Prelude.{◌≡◌, ◌≤◌, [], length, IfOk, OnOk, Contains};
ghost use Rattle.std.specs.List.Sorted.{IsStrictlySortedBy};
ghost use Rattle.std.specs.Ordering.{nat_cmp};
ghost use Rattle.text_draft.specs.Exploring.{HasRoom, IsFound};
ghost use Rattle.text_draft.specs.Reach.{AreReached, CallsTo, LeadsTo, StepsTo};
ghost use Rattle.word_shapes.specs.Growing.{Adds, Grows};

use crate::begun::Begun;
use crate::ways::{push_calls, push_ways};
use control_flow::MOST_PLACES;
use image::Image;
use std::alloc::{AllocError, Global};
use std::collections::BTreeSet;

/// How many addresses are looked at: as many as the flow graph of a handler has places at most.
pub(crate) const MOST_ADDRESSES: usize = MOST_PLACES;

/// What is reached from an entry, routines that are called included, as far as the words show.
#[derive(Drop)]
pub(crate) struct Reached {
    /// The addresses, ascending; also those where the image has no word.
    pub addresses: Vec<u32>,
    /// The entry and the routines that are called, ascending.
    pub roots: Vec<u32>,
    /// The steps inside of routines, each from an address to an address, ascending.
    pub leaving: Vec<(u32, u32)>,
    /// The same, each by the address at which it ends and then that from which it comes, ascending.
    pub entering: Vec<(u32, u32)>,
}

// How many pairs have a first address before this one, of pairs that ascend.
fn count_before(pairs: &[(u32, u32)], at: u32) -> usize
    ensures { result ≤ length pairs.now }
{
    pairs.partition_point(|pair| pair.0 < at)
}

/// The pairs whose first address is this one, of pairs that ascend.
pub(crate) fn pairs_at(pairs: &[(u32, u32)], at: u32) -> &[(u32, u32)] {
    let rest = &pairs[count_before(pairs, at)..];
    &rest[..count_before(rest, at.saturating_add(1))]
}

impl Reached {
    /// Whether a routine begins at an address, or the handler.
    pub(crate) fn is_root(&self, at: u32) -> bool {
        self.roots.binary_search(&at).is_ok()
    }

    /// The steps that end at an address.
    pub(crate) fn into(&self, at: u32) -> &[(u32, u32)] {
        pairs_at(&self.entering, at)
    }

    /// Whether an address is reached from the word before it alone.
    pub(crate) fn follows_alone(&self, at: u32, before: u32) -> bool {
        match self.into(at) {
            [(_, from)] => *from == before && !self.is_root(at),
            _ => false,
        }
    }
}

// The addresses that are found, and those of them at which a routine begins.
#[derive(Drop)]
struct Exploration {
    // All addresses.
    seen: BTreeSet<u32>,
    // The same, in the order in which they were found.
    order: Vec<u32>,
    // The entry and the routines that are called.
    roots: BTreeSet<u32>,
}

impl Exploration {
    // Begins with the entry.
    fn of(alloc: Global, entry: u32) -> Result<Exploration, AllocError>
        ensures found { IfOk result (λ x. IsFound x.seen x.order.items) }
        ensures begun { IfOk result (λ x. Adds HasRoom [] entry x.order.items) }
    {
        let mut found = Exploration {
            seen: BTreeSet::new(alloc),
            order: Vec::new(alloc),
            roots: BTreeSet::new(alloc),
        };
        found.add_root(entry)?;
        Ok(found)
    }

    // Adds an address, if it is new and there is room.
    fn add(&mut self, at: u32) -> Result<(), AllocError>
        requires { IsFound self.old.seen self.old.order.items }
        ensures found { OnOk result (IsFound self.new.seen self.new.order.items) }
        ensures adds { OnOk result (Adds HasRoom self.old.order.items at self.new.order.items) }
    {
        if self.order.len() >= MOST_ADDRESSES {
            return Ok(());
        }
        if self.seen.insert(at)? {
            self.order.push(at)?;
        }
        Ok(())
    }

    // Adds an address at which a routine begins.
    fn add_root(&mut self, at: u32) -> Result<(), AllocError>
        requires { IsFound self.old.seen self.old.order.items }
        ensures found { OnOk result (IsFound self.new.seen self.new.order.items) }
        ensures adds { OnOk result (Adds HasRoom self.old.order.items at self.new.order.items) }
    {
        self.roots.insert(at)?;
        self.add(at)
    }

    // Adds each of some addresses.
    fn add_all(&mut self, ways: &[u32]) -> Result<(), AllocError>
        requires { IsFound self.old.seen self.old.order.items }
        ensures found { OnOk result (IsFound self.new.seen self.new.order.items) }
        ensures grows { OnOk result
            (Grows HasRoom (Contains ways.now) self.old.order.items self.new.order.items) }
    {
        for to in ways {
            self.add(*to)?;
        }
        Ok(())
    }

    // Adds each of some addresses at which routines begin.
    fn add_roots(&mut self, routines: &[u32]) -> Result<(), AllocError>
        requires { IsFound self.old.seen self.old.order.items }
        ensures found { OnOk result (IsFound self.new.seen self.new.order.items) }
        ensures grows { OnOk result
            (Grows HasRoom (Contains routines.now) self.old.order.items self.new.order.items) }
    {
        for to in routines {
            self.add_root(*to)?;
        }
        Ok(())
    }

    // Adds the steps from the word at an address, by a list for them.
    fn add_steps(
        &mut self,
        ways: &mut Vec<u32>,
        image: &Image,
        begun: &Begun<'_>,
        at: u32,
    ) -> Result<(), AllocError>
        requires { IsFound self.old.seen self.old.order.items }
        ensures found { OnOk result (IsFound self.new.seen self.new.order.items) }
        ensures grows { OnOk result
            (Grows HasRoom (StepsTo image.now begun.now at) self.old.order.items self.new.order.items) }
    {
        ways.clear();
        push_ways(ways, image, begun, at)?;
        self.add_all(ways)
    }

    // Adds the routines that the word at an address calls, by a list for them.
    fn add_called(
        &mut self,
        ways: &mut Vec<u32>,
        image: &Image,
        begun: &Begun<'_>,
        at: u32,
    ) -> Result<(), AllocError>
        requires { IsFound self.old.seen self.old.order.items }
        ensures found { OnOk result (IsFound self.new.seen self.new.order.items) }
        ensures grows { OnOk result
            (Grows HasRoom (CallsTo image.now begun.now at) self.old.order.items self.new.order.items) }
    {
        ways.clear();
        push_calls(ways, image, begun, at)?;
        self.add_roots(ways)
    }

    // Adds all to which the word at an address leads, by a list for its ways.
    fn look_at(
        &mut self,
        ways: &mut Vec<u32>,
        image: &Image,
        begun: &Begun<'_>,
        at: u32,
    ) -> Result<(), AllocError>
        requires { IsFound self.old.seen self.old.order.items }
        ensures found { OnOk result (IsFound self.new.seen self.new.order.items) }
        ensures grows { OnOk result
            (Grows HasRoom (LeadsTo image.now begun.now at) self.old.order.items self.new.order.items) }
    {
        self.add_steps(ways, image, begun, at)?;
        self.add_called(ways, image, begun, at)
    }
}

// Finds the addresses. The list grows at its end while its next one is looked at, so each is looked at once.
fn explore(
    alloc: Global,
    image: &Image,
    begun: &Begun<'_>,
    entry: u32,
) -> Result<Exploration, AllocError>
    ensures found { IfOk result (λ x. IsFound x.seen x.order.items) }
    ensures reached { IfOk result (λ x. AreReached image.now begun.now entry x.order.items) }
{
    let mut found = Exploration::of(alloc, entry)?;
    let mut ways = Vec::new(alloc);
    for next in 0..MOST_ADDRESSES {
        if next >= found.order.len() {
            return Ok(found);
        }
        let at = found.order[next];
        found.look_at(&mut ways, image, begun, at)?;
    }
    Ok(found)
}

// The addresses of a set, ascending.
fn ascending(alloc: Global, seen: &BTreeSet<u32>) -> Result<Vec<u32>, AllocError>
    ensures keys { IfOk result (λ addresses. addresses.items ≡ seen.now.keys) }
    ensures ordered { IfOk result (λ addresses. IsStrictlySortedBy nat_cmp addresses.items) }
{
    seen.iter().copied().collect(alloc)
}

// Adds the steps from an address, by a list for where they end.
fn push_steps(
    steps: &mut Vec<(u32, u32)>,
    ways: &mut Vec<u32>,
    image: &Image,
    begun: &Begun<'_>,
    at: u32,
) -> Result<(), AllocError> {
    ways.clear();
    push_ways(ways, image, begun, at)?;
    for to in ways {
        steps.push((at, *to))?;
    }
    Ok(())
}

// The steps from each of the addresses, ascending.
fn steps_from(
    alloc: Global,
    image: &Image,
    begun: &Begun<'_>,
    addresses: &[u32],
) -> Result<Vec<(u32, u32)>, AllocError> {
    let mut steps = Vec::new(alloc);
    let mut ways = Vec::new(alloc);
    for at in addresses {
        push_steps(&mut steps, &mut ways, image, begun, *at)?;
    }
    steps.sort()?;
    Ok(steps)
}

// Each pair turned round, ascending.
fn turned(alloc: Global, pairs: &[(u32, u32)]) -> Result<Vec<(u32, u32)>, AllocError> {
    let mut turned = Vec::new(alloc);
    for (first, second) in pairs {
        turned.push((*second, *first))?;
    }
    turned.sort()?;
    Ok(turned)
}

// What the addresses that were found say of the steps between them.
fn reached_from(
    alloc: Global,
    image: &Image,
    begun: &Begun<'_>,
    found: &Exploration,
) -> Result<Reached, AllocError>
    ensures keys { IfOk result (λ reached. reached.addresses.items ≡ found.now.seen.keys) }
    ensures ascend { IfOk result (λ reached. IsStrictlySortedBy nat_cmp reached.addresses.items) }
{
    let addresses = ascending(alloc, &found.seen)?;
    let roots = ascending(alloc, &found.roots)?;
    let leaving = steps_from(alloc, image, begun, &addresses)?;
    let entering = turned(alloc, &leaving)?;
    Ok(Reached {
        addresses,
        roots,
        leaving,
        entering,
    })
}

/// What is reached from an entry.
pub(crate) fn reach(
    alloc: Global,
    image: &Image,
    begun: &Begun<'_>,
    entry: u32,
) -> Result<Reached, AllocError>
    ensures reached { IfOk result
        (λ reached. AreReached image.now begun.now entry reached.addresses.items) }
    ensures ascend { IfOk result (λ reached. IsStrictlySortedBy nat_cmp reached.addresses.items) }
{
    let found = explore(alloc, image, begun, entry)?;
    reached_from(alloc, image, begun, &found)
}
