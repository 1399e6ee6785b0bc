//! The returns of which a bound takes something for granted, of those words alone that a run has done.

ghost use Rattle.std.specs.Prelude.{◌≡◌, true, IfOk};
ghost use Rattle.std.specs.BTreeSet.{contains};
ghost use Rattle.std.specs.List.{filter};
ghost use Rattle.std.specs.Ordering.{nat_cmp};
ghost use Rattle.text_explained.specs.Assumed.{AreDone, AreDoneReturns, AreSubjectTo, IsSection};
ghost use Rattle.text_explained.specs.Assumed.{caveat_heading};

use crate::assumptions::Assumption::{LeavesFlags, TakenForReturn};
use crate::caveats::Caveat;
use crate::caveats::Caveat::{Assumed, LinkLost};
use crate::links::Overwrite::{ByAddress, ByCall};
use crate::sections::section_of;
use loop_bounds::Handler;
use sources::Source;
use std::alloc::{AllocError, Global};
use std::collections::BTreeSet;
use text_rows::put;

// Those of the addresses that are done.
fn members_of(alloc: Global, all: &[u32], done: &BTreeSet<u32>) -> Result<Vec<u32>, AllocError>
    ensures { IfOk result (λ named. named.items ≡ filter (contains nat_cmp done.now) all.now) }
{
    all.iter()
        .copied()
        .filter(|at| done.contains(at))
        .collect(alloc)
}

// The words with that caveat that are done.
fn done_words(
    alloc: Global,
    handler: &Handler<'_>,
    caveat: Caveat,
    done: &BTreeSet<u32>,
) -> Result<Vec<u32>, AllocError>
    ensures { IfOk result
        (λ named. AreDone (λ a. contains nat_cmp done.now a ≡ true)
        (AreSubjectTo handler.now.image.now handler.now.statement handler.now.graph caveat) named.items) }
{
    let all = caveat.words(alloc, handler)?;
    members_of(alloc, &all, done)
}

// The section of the words with that caveat that are done.
fn done_section(
    alloc: Global,
    source: &Source<'_>,
    handler: &Handler<'_>,
    caveat: Caveat,
    done: &BTreeSet<u32>,
) -> Result<Vec<u8>, AllocError>
    ensures { IfOk result
        (λ text. IsSection source.now (caveat_heading caveat)
        (AreDone (λ a. contains nat_cmp done.now a ≡ true)
        (AreSubjectTo handler.now.image.now handler.now.statement handler.now.graph caveat)) text.items) }
{
    let named = done_words(alloc, handler, caveat, done)?;
    section_of(alloc, caveat, source, &named)
}

/// The returns and ways out of which [`assumed_text`](crate::assumed_text) warns, of those words alone whose
/// addresses are done, under the same headings. No text where there are none.
///
/// # Errors
///
/// An allocation failed.
pub fn done_text(
    alloc: Global,
    source: &Source<'_>,
    handler: &Handler<'_>,
    done: &BTreeSet<u32>,
) -> Result<Vec<u8>, AllocError>
    ensures { IfOk result
        (λ text. AreDoneReturns source.now handler.now.image.now handler.now.statement handler.now.graph
        (λ a. contains nat_cmp done.now a ≡ true) text.items) }
{
    let mut text = done_section(alloc, source, handler, Assumed(TakenForReturn), done)?;
    let flags = done_section(alloc, source, handler, Assumed(LeavesFlags), done)?;
    put(&mut text, &flags)?;
    let called = done_section(alloc, source, handler, LinkLost(ByCall), done)?;
    put(&mut text, &called)?;
    let addressed = done_section(alloc, source, handler, LinkLost(ByAddress), done)?;
    put(&mut text, &addressed)?;
    Ok(text)
}
