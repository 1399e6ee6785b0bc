//! The longest step of a handler, and how long its own words mask interrupts, as text.

ghost use Rattle.std.specs.Prelude.{◌≡◌, ◌++◌, IfOk, OnOk};
ghost use Rattle.std.specs.List.Sorted.{IsStrictlySortedBy};
ghost use Rattle.std.specs.Ordering.{nat_cmp};
ghost use Rattle.loop_bounds.specs.Handler.{HasItsTree};
ghost use Rattle.text_masked.specs.Sections.{AreMaskSections, IsMaskSection, IsMaskText, IsStepSection};
ghost use Rattle.text_masked.specs.Sections.{mask_name, most_text, step_heading, time_text};

use crate::marked::setters;
use crate::shown::Mask;
use crate::steps::{left_at_cost, longest_ticks};
use crate::stretches::{MaskedTime, masked_time};
use control_flow::Graph;
use loop_bounds::Handler;
use sources::Source;
use std::alloc::{AllocError, Global};
use text_explained::named_rows;
use text_rows::{put, put_decimal, section};

const ROUND: &[u8] = b" is set here, and a loop goes on while it is set; bound the stretch by a\n\
    statement of its own (respond --masked-by):\n";

fn step_heading(alloc: Global, ticks: u32) -> Result<Vec<u8>, AllocError>
    ensures { IfOk result (λ text. text.items ≡ step_heading ticks) }
{
    let mut out = Vec::new(alloc);
    put(&mut out, b"\nThe longest step, ")?;
    put_decimal(&mut out, u64::from(ticks))?;
    put(&mut out, b" ticks:\n")?;
    Ok(out)
}

// The words of the longest step, under its ticks.
fn step_section(alloc: Global, source: &Source<'_>, graph: &Graph) -> Result<Vec<u8>, AllocError>
    ensures { IfOk result (λ text. IsStepSection source.now graph.now text.items) }
{
    let ticks = longest_ticks(graph.edges());
    let named = left_at_cost(alloc, graph.edges(), ticks)?;
    let rows = named_rows(alloc, source, &named)?;
    let heading = step_heading(alloc, ticks)?;
    section(alloc, &heading, &rows)
}

impl Mask {
    // Its letter, on a line of its own.
    fn name(self) -> &'static [u8]
        ensures { result.now ≡ mask_name self }
    {
        match self {
            Mask::Irq => b"\nI",
            Mask::Fiq => b"\nF",
        }
    }
}

// Adds that it is set for so many ticks at most.
fn put_most(out: &mut Vec<u8>, ticks: u64) -> Result<(), AllocError>
    ensures { OnOk result (out.new.items ≡ out.old.items ++ most_text ticks) }
{
    put(out, b" is set here, at most ")?;
    put_decimal(out, ticks)?;
    put(out, b" ticks at a time:\n")
}

// Adds how long it is set.
fn put_time(out: &mut Vec<u8>, time: MaskedTime) -> Result<(), AllocError>
    ensures { OnOk result (out.new.items ≡ out.old.items ++ time_text time) }
{
    match time {
        MaskedTime::AtMost(ticks) => put_most(out, ticks),
        MaskedTime::TooLong => put(out, b" is set here, maybe 2^63 ticks or more at a time:\n"),
        MaskedTime::GoesRound => put(out, ROUND),
    }
}

// The words that set the mask, under how long it is set at a time.
fn mask_text(
    alloc: Global,
    source: &Source<'_>,
    handler: &Handler<'_>,
    mask: Mask,
    named: &[u32],
) -> Result<Vec<u8>, AllocError>
    requires tree { HasItsTree handler.now }
    requires ascending { IsStrictlySortedBy nat_cmp named.now }
    ensures { IfOk result
        (λ text. IsMaskText source.now handler.now.image.now handler.now.statement.loops handler.now.graph
        mask named.now text.items) }
{
    let mut out = Vec::new(alloc);
    if let [] = named {
        return Ok(out);
    }
    let time = masked_time(alloc, handler, mask)?;
    put(&mut out, mask.name())?;
    put_time(&mut out, time)?;
    let rows = named_rows(alloc, source, named)?;
    put(&mut out, &rows)?;
    Ok(out)
}

fn mask_section(
    alloc: Global,
    source: &Source<'_>,
    handler: &Handler<'_>,
    mask: Mask,
) -> Result<Vec<u8>, AllocError>
    requires { HasItsTree handler.now }
    ensures { IfOk result
        (λ text. IsMaskSection source.now handler.now.image.now handler.now.statement.loops handler.now.graph
        mask text.items) }
{
    let named = setters(alloc, handler.image, mask, &handler.graph)?;
    mask_text(alloc, source, handler, mask, &named)
}

/// The longest step of a handler, in ticks, and the words that take it; and, first for I and then for F, how
/// many ticks at most the mask is set at a time by the handler's own words, and the words that set it;
/// nothing for a mask that none sets. A word shows a mask if it is TEQP PC,#n; it is set from the step after
/// one that sets it up to and with one that clears it, or as long as the handler goes on. Where a loop in
/// which it is set turns back before it is cleared, no number is given. Words are those of the handler's
/// image, and have their rows by the lines of its source, or by the words of an image.
///
/// # Errors
///
/// An allocation failed.
pub fn masks_text(
    alloc: Global,
    source: &Source<'_>,
    handler: &Handler<'_>,
) -> Result<Vec<u8>, AllocError>
    requires { HasItsTree handler.now }
    ensures { IfOk result
        (λ text. AreMaskSections source.now handler.now.image.now handler.now.statement.loops
        handler.now.graph text.items) }
{
    let mut text = step_section(alloc, source, &handler.graph)?;
    let irq = mask_section(alloc, source, handler, Mask::Irq)?;
    put(&mut text, &irq)?;
    let fiq = mask_section(alloc, source, handler, Mask::Fiq)?;
    put(&mut text, &fiq)?;
    Ok(text)
}
