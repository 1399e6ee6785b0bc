ghost use Rattle.std.specs.Prelude.{◌≡◌, false, All, IfOk, OnOk};
ghost use Rattle.text_draft.specs.Begun.{has_loop};

use crate::begun::Begun;
use crate::counted::turns_back;
use crate::found_loop::FoundLoop;
use crate::loop_members::{add_strangers, is_entered_in_middle, natural_loop, stretches_of};
use crate::paths::{Descent, descend};
use crate::reach::{Reached, pairs_at};
use image::Image;
use statement::{ApartStretch, MOST_LOOPS};
use std::alloc::{AllocError, Global};
use std::collections::BTreeSet;

/// The loops, outer ones before those inside them, the words that are apart from them, and the addresses to
/// which cycles turn back that no loop bounds.
#[derive(Drop)]
pub struct Loops {
    pub loops: Vec<FoundLoop>,
    pub apart: Vec<ApartStretch>,
    pub cycles: Vec<u32>,
}

// A search for the loops among what is reached.
#[derive(Drop)]
struct LoopSearch<'a> {
    reach: &'a Reached,
    descent: &'a Descent,
    // All members of loops, and the words that are set apart from loops.
    members: BTreeSet<u32>,
    apart: BTreeSet<u32>,
    cycles: Vec<u32>,
}

// Outer loops first.
fn order_of(found: &FoundLoop) -> (u32, u32) {
    (found.first, u32::MAX - found.last)
}

// Has each of the loops that goes on to where another begins end no earlier than that one. Answers how many
// they are: these lie around it.
fn widen(loops: &mut [FoundLoop], inner: &FoundLoop) -> u32 {
    let mut depth: u32 = 0;
    for outer in loops {
        if outer.last >= inner.first {
            depth = depth.saturating_add(1);
            if outer.last < inner.last {
                outer.last = inner.last;
            }
        }
    }
    depth
}

// Finds how many loops lie around each, of loops of which the outer ones come first. One that ends inside a
// later one is made to hold it.
fn nest(loops: &mut [FoundLoop]) {
    for next in 0..loops.len() {
        let inner = loops[next];
        let depth = widen(&mut loops[..next], &inner);
        loops[next].depth = depth;
    }
}

impl LoopSearch<'_> {
    // Adds the cycle that turns back to a header, unless a loop is stated for it.
    fn add_cycle(&mut self, begun: &Begun<'_>, header: u32) -> Result<(), AllocError> {
        if !begun.has_header(header) {
            self.cycles.push(header)?;
        }
        Ok(())
    }

    // Adds the loop of a header to others, as far as its members show, or its cycle.
    fn add_natural(
        &mut self,
        alloc: Global,
        begun: &Begun<'_>,
        natural: &mut Vec<FoundLoop>,
        backs: &[(u32, u32)],
    ) -> Result<(), AllocError> {
        let [(header, _), ..] = backs else {
            return Ok(());
        };
        if natural.len() >= MOST_LOOPS {
            return self.add_cycle(begun, *header);
        }
        match natural_loop(alloc, self.reach, *header, backs, &mut self.members)? {
            Some(found) => natural.push(found)?,
            None => self.add_cycle(begun, *header)?,
        }
        Ok(())
    }

    // The loops, as far as their members show. Adds the other cycles.
    fn natural_loops(
        &mut self,
        alloc: Global,
        begun: &Begun<'_>,
    ) -> Result<Vec<FoundLoop>, AllocError> {
        let descent = self.descent;
        let mut natural = Vec::new(alloc);
        let mut done = None;
        for (header, _) in &descent.backs {
            if done != Some(*header) {
                done = Some(*header);
                self.add_natural(
                    alloc,
                    begun,
                    &mut natural,
                    pairs_at(&descent.backs, *header),
                )?;
            }
        }
        natural.sort_by_key(order_of)?;
        Ok(natural)
    }

    // Whether a way leads into the middle of the loop.
    fn is_mid(&self, found: &FoundLoop) -> bool {
        is_entered_in_middle(self.reach, self.descent, found, &self.apart)
    }

    // Sets the words apart that lie in the loop and belong to none, where a way leads into its middle.
    // Whether none does then.
    fn clear(&mut self, found: &FoundLoop) -> Result<bool, AllocError> {
        if !self.is_mid(found) {
            return Ok(true);
        }
        add_strangers(
            self.reach,
            self.descent,
            found,
            &self.members,
            &mut self.apart,
        )?;
        Ok(!self.is_mid(found))
    }

    // Adds a loop to others unless it is stated, or its cycle where a way leads into its middle.
    fn add(
        &mut self,
        loops: &mut Vec<FoundLoop>,
        image: &Image,
        begun: &Begun<'_>,
        found: &FoundLoop,
    ) -> Result<(), AllocError>
        ensures { OnOk result
            (All (λ l. has_loop begun.now l ≡ false) loops.old.items
            → All (λ l. has_loop begun.now l ≡ false) loops.new.items) }
    {
        if begun.has_header(found.header) {
            return Ok(());
        }
        if !self.clear(found)? {
            return self.add_cycle(begun, found.header);
        }
        let backs = pairs_at(&self.descent.backs, found.header);
        let mut counted = *found;
        counted.turns = turns_back(image, self.reach, found, backs);
        loops.push(counted)?;
        Ok(())
    }

    // The loops that are not stated among what is reached. Adds the other cycles.
    fn all_loops(
        &mut self,
        alloc: Global,
        image: &Image,
        begun: &Begun<'_>,
    ) -> Result<Vec<FoundLoop>, AllocError>
        ensures { IfOk result (λ loops. All (λ l. has_loop begun.now l ≡ false) loops.items) }
    {
        let mut natural = self.natural_loops(alloc, begun)?;
        nest(&mut natural);
        let mut loops = Vec::new(alloc);
        for found in &natural {
            self.add(&mut loops, image, begun, found)?;
        }
        self.cycles.sort()?;
        Ok(loops)
    }
}

// Those of the addresses that are stated to be apart from loops.
fn stated_apart(
    alloc: Global,
    begun: &Begun<'_>,
    addresses: &[u32],
) -> Result<BTreeSet<u32>, AllocError> {
    let mut apart = BTreeSet::new(alloc);
    for at in addresses {
        if begun.is_apart(*at) {
            apart.insert(*at)?;
        }
    }
    Ok(apart)
}

/// The loops among what is reached whose headers no stated loop has. Where a way leads among the addresses of
/// one, the words there that belong to no loop are set apart.
pub(crate) fn find_loops(
    alloc: Global,
    image: &Image,
    begun: &Begun<'_>,
    reach: &Reached,
    entry: u32,
) -> Result<Loops, AllocError>
    ensures { IfOk result (λ found. All (λ l. has_loop begun.now l ≡ false) found.loops.items) }
{
    let descent = descend(alloc, reach, entry)?;
    let mut search = LoopSearch {
        reach,
        descent: &descent,
        members: BTreeSet::new(alloc),
        apart: stated_apart(alloc, begun, &reach.addresses)?,
        cycles: Vec::new(alloc),
    };
    let loops = search.all_loops(alloc, image, begun)?;
    let apart = stretches_of(alloc, begun, &reach.addresses, &search.apart)?;
    Ok(Loops {
        loops,
        apart,
        cycles: search.cycles,
    })
}
