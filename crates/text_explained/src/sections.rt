ghost use Rattle.std.specs.Prelude.{◌≡◌, ℕ, List, IfOk};
ghost use Rattle.std.specs.List.Sorted.{IsStrictlySortedBy};
ghost use Rattle.std.specs.Ordering.{nat_cmp};
ghost use Rattle.text_explained.specs.Assumed.{AreAssumptions, AreNamedRows, AreSubjectTo, IsSection};
ghost use Rattle.text_explained.specs.Assumed.{caveat_heading};
ghost use Rattle.text_rows.specs.Rows.{section};

use crate::assumptions::Assumption::{LeavesFlags, LooseTransfer, TakenForReturn};
use crate::caveats::Caveat;
use crate::caveats::Caveat::{Assumed, LinkLost};
use crate::links::Overwrite::{ByAddress, ByCall};
use crate::named_words::named_rows;
use loop_bounds::Handler;
use sources::Source;
use std::alloc::{AllocError, Global};
use text_rows::{put, section};

/// The rows of the named words, under the heading of their caveat. `AllocError`: an allocation failed.
pub(crate) fn section_of(
    alloc: Global,
    caveat: Caveat,
    source: &Source<'_>,
    named: &[u32],
) -> Result<Vec<u8>, AllocError>
    requires { IsStrictlySortedBy nat_cmp named.now }
    ensures { IfOk result
        (λ text. (rows : List ℕ) × AreNamedRows source.now named.now rows
        × (text.items ≡ section (caveat_heading caveat) rows)) }
{
    let rows = named_rows(alloc, source, named)?;
    section(alloc, caveat.heading(), &rows)
}

// The section of the words with that caveat.
fn caveat_section(
    alloc: Global,
    source: &Source<'_>,
    handler: &Handler<'_>,
    caveat: Caveat,
) -> Result<Vec<u8>, AllocError>
    ensures { IfOk result
        (λ text. IsSection source.now (caveat_heading caveat)
        (AreSubjectTo handler.now.image.now handler.now.statement handler.now.graph caveat) text.items) }
{
    let named = caveat.words(alloc, handler)?;
    section_of(alloc, caveat, source, &named)
}

/// What a bound takes for granted of the words that its handler reaches, by the lines of its source, or by
/// the words of an image: those that count as returns but do not look like returns, those that leave the
/// handler of an interrupt and restore no flags, those that return by R14 after a call, or an address of the
/// source, has overwritten it, and then the loads and stores of which no class is stated. None has any text
/// where there are none. Words are judged by the handler's image; each word of the source that is named has a
/// row.
///
/// # Errors
///
/// An allocation failed.
pub fn assumed_text(
    alloc: Global,
    source: &Source<'_>,
    handler: &Handler<'_>,
) -> Result<Vec<u8>, AllocError>
    ensures { IfOk result
        (λ text. AreAssumptions source.now handler.now.image.now handler.now.statement handler.now.graph
        text.items) }
{
    let mut text = caveat_section(alloc, source, handler, Assumed(TakenForReturn))?;
    let flags = caveat_section(alloc, source, handler, Assumed(LeavesFlags))?;
    put(&mut text, &flags)?;
    let called = caveat_section(alloc, source, handler, LinkLost(ByCall))?;
    put(&mut text, &called)?;
    let addressed = caveat_section(alloc, source, handler, LinkLost(ByAddress))?;
    put(&mut text, &addressed)?;
    let transfers = caveat_section(alloc, source, handler, Assumed(LooseTransfer))?;
    put(&mut text, &transfers)?;
    Ok(text)
}
