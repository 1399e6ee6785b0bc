use crate::begun::Begun;
use crate::found_loop::FoundLoop;
use crate::paths::Descent;
use crate::reach::{MOST_ADDRESSES, Reached};
use statement::ApartStretch;
use std::alloc::{AllocError, Global};
use std::collections::BTreeSet;

// The members of a loop that are found.
#[derive(Drop)]
struct Members {
    // All.
    seen: BTreeSet<u32>,
    // All but the header, in the order in which they were found.
    order: Vec<u32>,
    // The first and the last.
    first: u32,
    last: u32,
}

impl Members {
    // Adds where steps come from, by where they end and where they come from.
    fn add_sources(&mut self, steps: &[(u32, u32)]) -> Result<(), AllocError> {
        for (_, from) in steps {
            if self.seen.insert(*from)? {
                self.order.push(*from)?;
                self.first = self.first.min(*from);
                self.last = self.last.max(*from);
            }
        }
        Ok(())
    }

    // Goes from the ends of the steps back to a header against all steps, as far as the header; whether no
    // routine begins on the way.
    fn gather(
        &mut self,
        reach: &Reached,
        header: u32,
        backs: &[(u32, u32)],
    ) -> Result<bool, AllocError> {
        self.seen.insert(header)?;
        self.add_sources(backs)?;
        for next in 0..MOST_ADDRESSES {
            let Some(at) = self.order.get(next).copied() else {
                return Ok(true);
            };
            if reach.is_root(at) {
                return Ok(false);
            }
            self.add_sources(reach.into(at))?;
        }
        Ok(true)
    }
}

/// The natural loop of a header and the steps back to it, or None where a way leads into its
/// middle. Its members are added to those of other loops.
pub(crate) fn natural_loop(
    alloc: Global,
    reach: &Reached,
    header: u32,
    backs: &[(u32, u32)],
    all: &mut BTreeSet<u32>,
) -> Result<Option<FoundLoop>, AllocError> {
    let mut members = Members {
        seen: BTreeSet::new(alloc),
        order: Vec::new(alloc),
        first: header,
        last: header,
    };
    if !members.gather(reach, header, backs)? {
        return Ok(None);
    }
    all.insert(header)?;
    for at in &members.order {
        all.insert(*at)?;
    }
    Ok(Some(FoundLoop {
        header,
        first: members.first.min(header),
        last: members.last.max(header),
        depth: 0,
        turns: None,
        proved: false,
    }))
}

// Whether two addresses were reached in one routine.
fn are_of_one(descent: &Descent, one: u32, other: u32) -> bool {
    descent.routines.get(&one) == descent.routines.get(&other)
}

// Whether an address of the header's routine lies from first to last, and is not the header.
fn is_in_middle(descent: &Descent, found: &FoundLoop, at: u32) -> bool {
    found.holds(at) && at != found.header && are_of_one(descent, at, found.header)
}

/// Whether a step from outside the addresses from first to last, or the beginning of a routine, lies at one
/// of them that is not the header, but for those that are apart.
pub(crate) fn is_entered_in_middle(
    reach: &Reached,
    descent: &Descent,
    found: &FoundLoop,
    apart: &BTreeSet<u32>,
) -> bool {
    let is_mid = |at| is_in_middle(descent, found, at) && !apart.contains(&at);
    for (to, from) in &reach.entering {
        let is_outside = !found.holds(*from) || apart.contains(from);
        if is_outside && is_mid(*to) {
            return true;
        }
    }
    for root in &reach.roots {
        if is_mid(*root) {
            return true;
        }
    }
    false
}

/// Adds the addresses from the first to the last of the loop, of the header's routine, that no loop has for
/// a member.
pub(crate) fn add_strangers(
    reach: &Reached,
    descent: &Descent,
    found: &FoundLoop,
    members: &BTreeSet<u32>,
    apart: &mut BTreeSet<u32>,
) -> Result<(), AllocError> {
    let first = reach.addresses.partition_point(|at| *at < found.first);
    for at in &reach.addresses[first..] {
        if !found.holds(*at) {
            return Ok(());
        }
        if is_in_middle(descent, found, *at) && !members.contains(at) {
            apart.insert(*at)?;
        }
    }
    Ok(())
}

/// The stretches of some of the addresses that are not stated, each as long as no other address lies between.
pub(crate) fn stretches_of(
    alloc: Global,
    begun: &Begun<'_>,
    addresses: &[u32],
    apart: &BTreeSet<u32>,
) -> Result<Vec<ApartStretch>, AllocError> {
    let mut stretches = Vec::new(alloc);
    let mut open: Option<ApartStretch> = None;
    for at in addresses {
        if apart.contains(at) && !begun.is_apart(*at) {
            let first = open.map_or(*at, |stretch| stretch.first);
            open = Some(ApartStretch { first, last: *at });
        } else if let Some(stretch) = open {
            stretches.push(stretch)?;
            open = None;
        }
    }
    if let Some(stretch) = open {
        stretches.push(stretch)?;
    }
    Ok(stretches)
}
