//! The rows of a page.

ghost use Rattle.std.specs.Prelude.{◌≡◌, ◌++◌, OnOk};
ghost use Rattle.std.specs.List.{filter};
ghost use Rattle.asm_text.specs.Appended.{Appends};
ghost use Rattle.text_rows.specs.Rows.{AreRows};
ghost use Rattle.text_page.specs.Page.{is_shown};
ghost use Rattle.text_page.specs.Noting.{noted_in};
ghost use Rattle.text_page.specs.Rows.{IsLine, IsLinePart, IsRow, IsShownPart, link_begin};
ghost use Rattle.text_page.specs.Rows.{link_end};

use crate::cells::{put_row_front, put_row_link};
use crate::html::put_escaped;
use crate::notes::Notes;
use crate::page_lines::PageLine;
use crate::summary::put_begin;
use assembler::disassemble;
use std::alloc::AllocError;
use text_explained::{RowLine, TableRow};
use text_graph::{Extent, is_drawn};
use text_rows::put;

// Adds the text of a row's line, or what its word says.
fn put_shown(out: &mut Vec<u8>, row: &TableRow<'_>) -> Result<(), AllocError>
    ensures { OnOk result (Appends (IsShownPart row.now) out.old.items out.new.items) }
{
    match &row.line {
        RowLine::Text(line) => put_escaped(out, line.text),
        RowLine::Word(word) => {
            let line = disassemble(*word, row.at);
            put_escaped(out, line.items())
        }
    }
}

// Begins a link, if there is one.
fn put_link_begin(out: &mut Vec<u8>, link: Option<u32>) -> Result<(), AllocError>
    ensures { OnOk result (out.new.items ≡ out.old.items ++ link_begin link) }
{
    match link {
        Some(at) => put_row_link(out, at),
        None => Ok(()),
    }
}

// Ends it.
fn put_link_end(out: &mut Vec<u8>, link: Option<u32>) -> Result<(), AllocError>
    ensures { OnOk result (out.new.items ≡ out.old.items ++ link_end link) }
{
    match link {
        Some(_) => put(out, b"</a>"),
        None => Ok(()),
    }
}

// Adds the text of a row's line, as a link where its word is a branch to a row.
fn put_line_text(
    out: &mut Vec<u8>,
    notes: &Notes<'_, '_>,
    row: &TableRow<'_>,
) -> Result<(), AllocError>
    ensures { OnOk result
        (Appends (IsLinePart (noted_in notes.now) row.now) out.old.items out.new.items) }
{
    let link = notes.link_at(row.at);
    put_link_begin(out, link)?;
    put_shown(out, row)?;
    put_link_end(out, link)
}

// Adds a row.
fn put_row(out: &mut Vec<u8>, notes: &Notes<'_, '_>, row: &TableRow<'_>) -> Result<(), AllocError>
    ensures { OnOk result (Appends (IsRow (noted_in notes.now) row.now) out.old.items out.new.items) }
{
    put_row_front(out, notes, row)?;
    put_line_text(out, notes, row)?;
    put(out, b"</code></div>\n")
}

// Adds what a line of a page stands for.
fn put_line(
    out: &mut Vec<u8>,
    notes: &Notes<'_, '_>,
    bound: u64,
    line: &PageLine<'_>,
) -> Result<(), AllocError>
    ensures { OnOk result
        (Appends (IsLine (noted_in notes.now) bound line.now) out.old.items out.new.items) }
{
    match line {
        PageLine::Begun(fold, ticks) => put_begin(out, notes, bound, *fold, *ticks),
        PageLine::Row(row) => put_row(out, notes, row),
        PageLine::Ended => put(out, b"</details>\n"),
    }
}

/// Adds the lines of a page, by the bound, in ticks. `AllocError`: an allocation failed.
pub(crate) fn put_lines(
    out: &mut Vec<u8>,
    notes: &Notes<'_, '_>,
    bound: u64,
    lines: &[PageLine<'_>],
) -> Result<(), AllocError>
    ensures { OnOk result
        (Appends (AreRows (IsLine (noted_in notes.now) bound) lines.now) out.old.items out.new.items) }
{
    for line in lines {
        put_line(out, notes, bound, line)?;
    }
    Ok(())
}

// Whether a row is shown.
fn is_shown(extent: Extent, row: &TableRow<'_>) -> bool
    ensures { result ≡ is_shown extent row.now }
{
    let passes = match row.figures.taken {
        Some(taken) => taken.passes,
        None => 0,
    };
    is_drawn(extent, passes)
}

/// Keeps the rows that are shown.
pub(crate) fn keep_shown(rows: &mut Vec<TableRow<'_>>, extent: Extent)
    ensures { rows.new.items ≡ filter (is_shown extent) rows.old.items }
{
    rows.retain(|row| is_shown(extent, row));
}
