//! What is said of a row under the pointer.

ghost use Rattle.std.specs.Prelude.{◌≡◌, ◌++◌, OnOk, option_map};
ghost use Rattle.std.specs.List.{flat_map};
ghost use Rattle.text_page.specs.Noting.{noted_in};
ghost use Rattle.text_page.specs.Rows.{begins_at, begins_text, bound_text, destination, each_ticks};
ghost use Rattle.text_page.specs.Rows.{hover_text, is_one_tick, kind_text, line_text, loop_bound};
ghost use Rattle.text_page.specs.Rows.{passes_text, priced_text, stated_text, taken_text, target_text};

use crate::cells::put_hex;
use crate::html::put_escaped;
use crate::notes::Notes;
use statement::{Target, TargetKind};
use std::alloc::AllocError;
use text_explained::{Costs, Pricing, RowLine, TableRow, Taken, put_each, put_pricing};
use text_rows::{put, put_decimal, section};

// Adds the number of a source's line.
fn put_line(out: &mut Vec<u8>, line: &RowLine<'_>) -> Result<(), AllocError>
    ensures { OnOk result (out.new.items ≡ out.old.items ++ line_text line.now) }
{
    match line {
        RowLine::Text(line) => {
            put(out, b"line ")?;
            put_decimal(out, line.number)?;
            put(out, b": ")
        }
        RowLine::Word(_) => Ok(()),
    }
}

// Whether a pass takes one tick.
fn is_one_tick(costs: Option<Costs>) -> bool
    ensures { result ≡ is_one_tick costs }
{
    match costs {
        Some(costs) => costs.least == 1 && costs.greatest == 1,
        None => false,
    }
}

// Adds the ticks of a pass.
fn put_each_ticks(out: &mut Vec<u8>, taken: Taken) -> Result<(), AllocError>
    ensures { OnOk result (out.new.items ≡ out.old.items ++ each_ticks taken) }
{
    put_each(out, taken)?;
    if is_one_tick(taken.costs.or(taken.prices)) {
        return put(out, b" tick");
    }
    put(out, b" ticks")
}

// Adds how often the walk passes.
fn put_passes(out: &mut Vec<u8>, passes: u64) -> Result<(), AllocError>
    ensures { OnOk result (out.new.items ≡ out.old.items ++ passes_text passes) }
{
    if passes == 0 {
        return put(out, b"off the path, each time ");
    }
    if passes == 1 {
        return put(out, b"once, ");
    }
    put_decimal(out, passes)?;
    put(out, b" passes, each ")
}

// Adds that with the ticks of a pass, or that no walk ever comes there.
fn put_taken(out: &mut Vec<u8>, taken: Option<Taken>) -> Result<(), AllocError>
    ensures { OnOk result (out.new.items ≡ out.old.items ++ taken_text taken) }
{
    match taken {
        Some(taken) => {
            put_passes(out, taken.passes)?;
            put_each_ticks(out, taken)
        }
        None => put(out, b"never reached"),
    }
}

// Adds what a price takes for granted, if it does anything.
fn put_priced(out: &mut Vec<u8>, pricing: Option<Pricing>) -> Result<(), AllocError>
    ensures { OnOk result (out.new.items ≡ out.old.items ++ priced_text pricing) }
{
    let alloc = *out.allocator();
    let mut text = Vec::new(alloc);
    put_pricing(&mut text, pricing)?;
    let mut shown = Vec::new(alloc);
    put_escaped(&mut shown, &text)?;
    let said = section(alloc, b", priced as ", &shown)?;
    put(out, &said)
}

// Adds the tick by which a word begins at the latest.
fn put_begins_at(out: &mut Vec<u8>, ticks: u64) -> Result<(), AllocError>
    ensures { OnOk result (out.new.items ≡ out.old.items ++ begins_at ticks) }
{
    put(out, b", begins by tick ")?;
    put_decimal(out, ticks)
}

// Adds that, if the graph has a place there.
fn put_begins(out: &mut Vec<u8>, latest: Option<u64>) -> Result<(), AllocError>
    ensures { OnOk result (out.new.items ≡ out.old.items ++ begins_text latest) }
{
    match latest {
        Some(ticks) => put_begins_at(out, ticks),
        None => Ok(()),
    }
}

// Adds the bound of a loop.
fn put_loop_bound(out: &mut Vec<u8>, bound: u32) -> Result<(), AllocError>
    ensures { OnOk result (out.new.items ≡ out.old.items ++ loop_bound bound) }
{
    put(out, b", loop bound ")?;
    put_decimal(out, u64::from(bound))
}

// Adds that of the loop whose header a word is.
fn put_bound(out: &mut Vec<u8>, bound: Option<u32>) -> Result<(), AllocError>
    ensures { OnOk result (out.new.items ≡ out.old.items ++ bound_text bound) }
{
    match bound {
        Some(bound) => put_loop_bound(out, bound),
        None => Ok(()),
    }
}

fn kind_text(kind: TargetKind) -> &'static [u8]
    ensures { result.now ≡ kind_text kind }
{
    match kind {
        TargetKind::Jump => b", jumps to",
        TargetKind::Call => b", calls",
        TargetKind::Return => b", returns",
        TargetKind::Leave => b", leaves",
    }
}

// Adds an address after a blank.
fn put_destination(out: &mut Vec<u8>, at: u32) -> Result<(), AllocError>
    ensures { OnOk result (out.new.items ≡ out.old.items ++ destination at) }
{
    put(out, b" ")?;
    put_hex(out, at)
}

// Adds addresses so.
fn put_addresses(out: &mut Vec<u8>, addresses: &[u32]) -> Result<(), AllocError>
    ensures { OnOk result (out.new.items ≡ out.old.items ++ flat_map destination addresses.now) }
{
    for at in addresses {
        put_destination(out, *at)?;
    }
    Ok(())
}

// Adds what a word is stated to do, with the destinations.
fn put_target(out: &mut Vec<u8>, target: Option<&Target>) -> Result<(), AllocError>
    ensures { OnOk result
        (out.new.items ≡ out.old.items ++ target_text (option_map (λ t. t.now) target.entry)) }
{
    match target {
        Some(target) => {
            put(out, kind_text(target.kind()))?;
            put_addresses(out, target.to())
        }
        None => Ok(()),
    }
}

// Adds what is stated of the word at an address.
fn put_stated(out: &mut Vec<u8>, notes: &Notes<'_, '_>, at: u32) -> Result<(), AllocError>
    ensures { OnOk result (out.new.items ≡ out.old.items ++ stated_text (noted_in notes.now) at) }
{
    put_bound(out, notes.bounds.get(&at).copied())?;
    put_target(out, notes.statement.target_at(at))
}

/// Adds what is said of a row. `AllocError`: an allocation failed.
pub(crate) fn put_hover(
    out: &mut Vec<u8>,
    notes: &Notes<'_, '_>,
    row: &TableRow<'_>,
) -> Result<(), AllocError>
    ensures { OnOk result (out.new.items ≡ out.old.items ++ hover_text (noted_in notes.now) row.now) }
{
    put_line(out, &row.line)?;
    put_taken(out, row.figures.taken)?;
    put_priced(out, row.figures.pricing)?;
    put_begins(out, row.figures.latest)?;
    put_stated(out, notes, row.at)
}
