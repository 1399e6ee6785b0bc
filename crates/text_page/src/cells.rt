//! The cells of a row up to the text of its line.

ghost use Rattle.std.specs.Prelude.{◌≡◌, ◌++◌, OnOk, decimal};
ghost use Rattle.asm_text.specs.Hex.{hex};
ghost use Rattle.text_explained.specs.Columns.{share_text};
ghost use Rattle.text_page.specs.Rows.{address_link, anchor, bar, cell, cells, row_class, row_front};
ghost use Rattle.text_page.specs.Rows.{row_link};
ghost use Rattle.text_page.specs.Noting.{noted_in};
ghost use Rattle.text_page.specs.Rows.{row_tag, taken_cells};

use crate::hover::put_hover;
use crate::notes::Notes;
use asm_text::hex;
use std::alloc::AllocError;
use text_explained::{TableRow, Taken, share_text};
use text_graph::share_fill;
use text_rows::{put, put_decimal};

/// Adds an address. `AllocError`: an allocation failed.
pub(crate) fn put_hex(out: &mut Vec<u8>, at: u32) -> Result<(), AllocError>
    ensures { OnOk result (out.new.items ≡ out.old.items ++ hex at) }
{
    put(out, &hex(u64::from(at)))
}

/// Adds what part of the bound the ticks are. `AllocError`: an allocation failed.
pub(crate) fn put_share(out: &mut Vec<u8>, ticks: u64, bound: u64) -> Result<(), AllocError>
    ensures { OnOk result (out.new.items ≡ out.old.items ++ share_text ticks bound) }
{
    let share = share_text(*out.allocator(), ticks, bound)?;
    put(out, share.as_bytes())
}

// Adds a number as a cell.
fn put_number(out: &mut Vec<u8>, number: u64) -> Result<(), AllocError>
    ensures { OnOk result (out.new.items ≡ out.old.items ++ cell (decimal number)) }
{
    put(out, b"<span>")?;
    put_decimal(out, number)?;
    put(out, b"</span>")
}

// Adds a share as a cell.
fn put_share_cell(out: &mut Vec<u8>, ticks: u64, bound: u64) -> Result<(), AllocError>
    ensures { OnOk result (out.new.items ≡ out.old.items ++ cell (share_text ticks bound)) }
{
    put(out, b"<span>")?;
    put_share(out, ticks, bound)?;
    put(out, b"</span>")
}

// Adds a share as a bar.
fn put_bar(out: &mut Vec<u8>, ticks: u64, bound: u64) -> Result<(), AllocError>
    ensures { OnOk result (out.new.items ≡ out.old.items ++ bar ticks bound) }
{
    put(out, b"<span class=\"bar\"><i style=\"width:")?;
    put_share(out, ticks, bound)?;
    put(out, b";background:")?;
    put(out, share_fill(ticks, bound))?;
    put(out, b"\"></i></span>")
}

// Adds the cells of what the walk takes.
fn put_taken_cells(out: &mut Vec<u8>, bound: u64, taken: Taken) -> Result<(), AllocError>
    ensures { OnOk result (out.new.items ≡ out.old.items ++ taken_cells bound taken) }
{
    put_number(out, taken.passes)?;
    put_number(out, taken.ticks)?;
    put_share_cell(out, taken.ticks, bound)?;
    put_bar(out, taken.ticks, bound)
}

// Adds those, or empty ones where no walk ever comes.
fn put_cells(out: &mut Vec<u8>, bound: u64, taken: Option<Taken>) -> Result<(), AllocError>
    ensures { OnOk result (out.new.items ≡ out.old.items ++ cells bound taken) }
{
    match taken {
        Some(taken) => put_taken_cells(out, bound, taken),
        None => put(out, b"<span></span><span></span><span></span><span></span>"),
    }
}

// The class of a row, by what the walk takes there.
fn row_class(taken: Option<Taken>) -> &'static [u8]
    ensures { result.now ≡ row_class taken }
{
    match taken {
        None => b"row never",
        Some(taken) => {
            if taken.passes == 0 {
                b"row off"
            } else {
                b"row"
            }
        }
    }
}

fn put_anchor(out: &mut Vec<u8>, at: u32) -> Result<(), AllocError>
    ensures { OnOk result (out.new.items ≡ out.old.items ++ anchor at) }
{
    put(out, b"a")?;
    put_hex(out, at)
}

/// Adds the beginning of a link to a row. `AllocError`: an allocation failed.
pub(crate) fn put_row_link(out: &mut Vec<u8>, at: u32) -> Result<(), AllocError>
    ensures { OnOk result (out.new.items ≡ out.old.items ++ row_link at) }
{
    put(out, b"<a href=\"#")?;
    put_anchor(out, at)?;
    put(out, b"\">")
}

/// Adds an address as a link to its row. `AllocError`: an allocation failed.
pub(crate) fn put_address_link(out: &mut Vec<u8>, at: u32) -> Result<(), AllocError>
    ensures { OnOk result (out.new.items ≡ out.old.items ++ address_link at) }
{
    put_row_link(out, at)?;
    put_hex(out, at)?;
    put(out, b"</a>")
}

// Adds the tag with which a row begins.
fn put_row_tag(
    out: &mut Vec<u8>,
    notes: &Notes<'_, '_>,
    row: &TableRow<'_>,
) -> Result<(), AllocError>
    ensures { OnOk result (out.new.items ≡ out.old.items ++ row_tag (noted_in notes.now) row.now) }
{
    put(out, b"<div class=\"")?;
    put(out, row_class(row.figures.taken))?;
    put(out, b"\" id=\"")?;
    put_anchor(out, row.at)?;
    put(out, b"\" title=\"")?;
    put_hover(out, notes, row)?;
    put(out, b"\">")
}

/// Adds a row up to the text of its line. `AllocError`: an allocation failed.
pub(crate) fn put_row_front(
    out: &mut Vec<u8>,
    notes: &Notes<'_, '_>,
    row: &TableRow<'_>,
) -> Result<(), AllocError>
    ensures { OnOk result (out.new.items ≡ out.old.items ++ row_front (noted_in notes.now) row.now) }
{
    put_row_tag(out, notes, row)?;
    put_address_link(out, row.at)?;
    put_cells(out, row.figures.bound, row.figures.taken)?;
    put(out, b"<code>")
}
