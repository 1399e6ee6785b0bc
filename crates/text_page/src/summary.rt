//! What stands for a stretch that is folded.

ghost use Rattle.std.specs.Prelude.{◌≡◌, ◌++◌, OnOk};
ghost use Rattle.text_page.specs.Noting.{noted_in};
ghost use Rattle.text_page.specs.Rows.{begin_text, name_text, part_text, summary, ticks_text, turns_text};

use crate::cells::{put_hex, put_share};
use crate::folds::{Fold, Part};
use crate::html::put_escaped;
use crate::notes::Notes;
use std::alloc::AllocError;
use text_rows::{put, put_decimal};

// Adds a label, or the address where there is none.
fn put_name(out: &mut Vec<u8>, label: &[u8], at: u32) -> Result<(), AllocError>
    ensures { OnOk result (out.new.items ≡ out.old.items ++ name_text label.now at) }
{
    match label {
        [] => put_hex(out, at),
        _ => put_escaped(out, label),
    }
}

fn part_text(part: Part) -> &'static [u8]
    ensures { result.now ≡ part_text part }
{
    match part {
        Part::Routine => b"routine ",
        Part::Loop(_) => b"loop ",
    }
}

// Adds the bound of a loop.
fn put_turns(out: &mut Vec<u8>, part: Part) -> Result<(), AllocError>
    ensures { OnOk result (out.new.items ≡ out.old.items ++ turns_text part) }
{
    match part {
        Part::Routine => Ok(()),
        Part::Loop(bound) => {
            put(out, b", bound ")?;
            put_decimal(out, u64::from(bound))
        }
    }
}

fn put_ticks(out: &mut Vec<u8>, ticks: u64) -> Result<(), AllocError>
    ensures { OnOk result (out.new.items ≡ out.old.items ++ ticks_text ticks) }
{
    put_decimal(out, ticks)?;
    if ticks == 1 {
        return put(out, b" tick, ");
    }
    put(out, b" ticks, ")
}

fn put_summary(
    out: &mut Vec<u8>,
    notes: &Notes<'_, '_>,
    bound: u64,
    fold: Fold,
    ticks: u64,
) -> Result<(), AllocError>
    ensures { OnOk result
        (out.new.items ≡ out.old.items ++ summary (noted_in notes.now) bound fold ticks) }
{
    put(out, part_text(fold.part))?;
    put_name(out, notes.label_at(fold.name), fold.name)?;
    put_turns(out, fold.part)?;
    put(out, b": ")?;
    put_ticks(out, ticks)?;
    put_share(out, ticks, bound)
}

/// Begins a stretch that hides rows of so many ticks of the bound. `AllocError`: an allocation failed.
pub(crate) fn put_begin(
    out: &mut Vec<u8>,
    notes: &Notes<'_, '_>,
    bound: u64,
    fold: Fold,
    ticks: u64,
) -> Result<(), AllocError>
    ensures { OnOk result
        (out.new.items ≡ out.old.items ++ begin_text (noted_in notes.now) bound fold ticks) }
{
    put(out, b"<details open><summary>")?;
    put_summary(out, notes, bound, fold, ticks)?;
    put(out, b"</summary>\n")
}
