//! Stretches of words apart from loops that have no effect on a bound.

ghost use Rattle.std.specs.Prelude.{◌≡◌, ◌++◌, OnOk};
ghost use Rattle.std.specs.List.{list_any};
ghost use Rattle.asm_text.specs.Appended.{Appends};
ghost use Rattle.text_explained.specs.Idle.{IsStretchRow, ends_text, reaches, stretch_row};
ghost use Rattle.text_rows.specs.Rows.{AreRows};

use asm_text::hex8;
use statement::{ApartStretch, Loop};
use std::alloc::AllocError;
use text_rows::put;

// Whether an address from the loop's first to its last is in the stretch.
fn reaches(stretch: &ApartStretch, stated: &Loop) -> bool
    ensures { result ≡ reaches stretch.now stated.now }
{
    stated.first <= stretch.last && stretch.first <= stated.last
}

fn is_reached(loops: &[Loop], stretch: &ApartStretch) -> bool
    ensures { result ≡ list_any (reaches stretch.now) loops.now }
{
    loops.iter().any(|stated| reaches(stretch, stated))
}

// Adds its first and its last address.
fn put_ends(out: &mut Vec<u8>, stretch: &ApartStretch) -> Result<(), AllocError>
    ensures { OnOk result (out.new.items ≡ out.old.items ++ ends_text stretch.now) }
{
    put(out, &hex8(stretch.first))?;
    put(out, b" to ")?;
    put(out, &hex8(stretch.last))
}

fn put_stretch_row(out: &mut Vec<u8>, stretch: &ApartStretch) -> Result<(), AllocError>
    ensures { OnOk result (out.new.items ≡ out.old.items ++ stretch_row stretch.now) }
{
    put(out, b"  apart   ")?;
    put_ends(out, stretch)?;
    put(out, b"  lies among no loop's addresses\n")
}

// Adds the row of a stretch, if it has no effect.
fn put_stretch(out: &mut Vec<u8>, loops: &[Loop], stretch: &ApartStretch) -> Result<(), AllocError>
    ensures { OnOk result
        (Appends (IsStretchRow loops.now stretch.now) out.old.items out.new.items) }
{
    if is_reached(loops, stretch) {
        return Ok(());
    }
    put_stretch_row(out, stretch)
}

/// Adds the rows of those of the stretches, apart from the loops, that have no effect.
pub(crate) fn put_stretches(
    out: &mut Vec<u8>,
    loops: &[Loop],
    stretches: &[ApartStretch],
) -> Result<(), AllocError>
    ensures { OnOk result
        (Appends (AreRows (IsStretchRow loops.now) stretches.now) out.old.items out.new.items) }
{
    for stretch in stretches {
        put_stretch(out, loops, stretch)?;
    }
    Ok(())
}
