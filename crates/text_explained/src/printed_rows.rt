//! The lines of a table as they are printed.

ghost use Rattle.std.specs.Prelude.{◌≡◌, ◌++◌, IfOk, OnOk, length, max, string_bytes};
ghost use Rattle.asm_text.specs.Appended.{Appends};
ghost use Rattle.text_rows.specs.Rows.{AreRows};
ghost use Rattle.text_explained.specs.Columns.{in_column, share_text};
ghost use Rattle.text_explained.specs.Printed.{IsLineText, IsRowEnd, cell_text, cells, costs_text, each_text};
ghost use Rattle.text_explained.specs.Printed.{first_shown, fold_text, line_name, names_text, number_text};
ghost use Rattle.text_explained.specs.Printed.{over_cells, place_cell, row_cell, row_columns, start_text};
ghost use Rattle.text_explained.specs.Printed.{taken_cell, taken_text, things, total_cell, total_text};
ghost use Rattle.text_explained.specs.Printed.{why_folded, widest, widths_of};
ghost use Rattle.text_explained.specs.declared.folding.TableLine.TheVariants.{Row};

use crate::cost_columns::{Column, Widths, put_ending, put_in_column, share_text};
use crate::folding::{Fold, TableLine, Total};
use crate::pricing::put_pricing;
use crate::shown_texts::{put_cut, squeezed};
use crate::table_rows::{RowLine, TableRow};
use crate::walk_tally::{Costs, Taken};
use asm_text::hex;
use assembler::disassemble;
use std::alloc::{AllocError, Global};
use text_rows::{put, put_decimal};

/// How the lines of a table are laid out.
#[derive(Clone, Copy)]
pub(crate) struct Layout<'c> {
    pub(crate) widths: Widths,
    /// The columns after those of what is taken.
    pub(crate) columns: &'c [Column],
    /// The last column of a row.
    pub(crate) width: usize,
}

// The columns of what is taken, in their order.
const TAKEN_COLUMNS: [Column; 4] = [Column::Passes, Column::Each, Column::Ticks, Column::Share];

// One number, or from the least to the greatest.
fn costs_text(alloc: Global, costs: Option<Costs>) -> Result<String, AllocError>
    ensures { IfOk result (λ text. string_bytes text ≡ costs_text costs) }
{
    let Some(costs) = costs else {
        return format!(in alloc; "-");
    };
    if costs.least == costs.greatest {
        return format!(in alloc; "{}", costs.least);
    }
    format!(in alloc; "{}-{}", costs.least, costs.greatest)
}

/// Adds the ticks of a pass, from the least to the greatest where they differ; where the walk never passes,
/// those that one may have.
///
/// # Errors
///
/// An allocation failed.
pub fn put_each(out: &mut Vec<u8>, taken: Taken) -> Result<(), AllocError>
    ensures { OnOk result (out.new.items ≡ out.old.items ++ each_text taken) }
{
    let each = costs_text(*out.allocator(), taken.costs.or(taken.prices))?;
    put(out, each.as_bytes())
}

// Adds what part of the bound the ticks are.
fn put_share(out: &mut Vec<u8>, ticks: u64, bound: u64) -> Result<(), AllocError>
    ensures { OnOk result (out.new.items ≡ out.old.items ++ share_text ticks bound) }
{
    let share = share_text(*out.allocator(), ticks, bound)?;
    put(out, share.as_bytes())
}

// Adds what a column has of what is taken.
fn put_taken_cell(
    out: &mut Vec<u8>,
    bound: u64,
    taken: Taken,
    column: Column,
) -> Result<(), AllocError>
    ensures { OnOk result (out.new.items ≡ out.old.items ++ taken_cell bound taken column) }
{
    match column {
        Column::Passes => put_decimal(out, taken.passes),
        Column::Each => put_each(out, taken),
        Column::Ticks => put_decimal(out, taken.ticks),
        Column::Share => put_share(out, taken.ticks, bound),
        Column::First | Column::Latest | Column::PricedAs | Column::Address | Column::Line => Ok(
            (),
        ),
    }
}

// Adds that, or nothing where no place is.
fn put_place_cell(
    out: &mut Vec<u8>,
    bound: u64,
    taken: Option<Taken>,
    column: Column,
) -> Result<(), AllocError>
    ensures { OnOk result (out.new.items ≡ out.old.items ++ place_cell bound taken column) }
{
    match taken {
        Some(taken) => put_taken_cell(out, bound, taken, column),
        None => Ok(()),
    }
}

// Adds the tick by which a word begins, if there is one.
fn put_start(out: &mut Vec<u8>, start: Option<u64>) -> Result<(), AllocError>
    ensures { OnOk result (out.new.items ≡ out.old.items ++ start_text start) }
{
    match start {
        Some(ticks) => put_decimal(out, ticks),
        None => Ok(()),
    }
}

// The tick by which a word begins for the first time, unless the latest is the same.
fn first_shown(first: Option<u64>, latest: Option<u64>) -> Option<u64>
    ensures { result ≡ first_shown first latest }
{
    let Some(latest) = latest else {
        return first;
    };
    match first {
        Some(ticks) => { if ticks == latest { None } else { Some(ticks) } }
        None => None,
    }
}

// Adds the number of a source's line.
fn put_line_number(out: &mut Vec<u8>, line: &RowLine<'_>) -> Result<(), AllocError>
    ensures { OnOk result (out.new.items ≡ out.old.items ++ number_text line.now) }
{
    match line {
        RowLine::Text(line) => put_decimal(out, line.number),
        RowLine::Word(_) => Ok(()),
    }
}

// Adds what a row has in a column.
fn put_row_cell(out: &mut Vec<u8>, row: &TableRow<'_>, column: Column) -> Result<(), AllocError>
    ensures { OnOk result (out.new.items ≡ out.old.items ++ row_cell row.now column) }
{
    let figures = row.figures;
    match column {
        Column::First => put_start(out, first_shown(figures.first, figures.latest)),
        Column::Latest => put_start(out, figures.latest),
        Column::PricedAs => put_pricing(out, figures.pricing),
        Column::Address => put(out, &hex(u64::from(row.at))),
        Column::Line => put_line_number(out, &row.line),
        Column::Passes | Column::Each | Column::Ticks | Column::Share => {
            put_place_cell(out, figures.bound, figures.taken, column)
        }
    }
}

// Adds what the row of all ticks has in a column.
fn put_total_cell(out: &mut Vec<u8>, total: Total, column: Column) -> Result<(), AllocError>
    ensures { OnOk result (out.new.items ≡ out.old.items ++ total_cell total column) }
{
    match column {
        Column::Ticks => put_decimal(out, total.ticks),
        Column::Share => put_share(out, total.ticks, total.bound),
        Column::Passes
        | Column::Each
        | Column::First
        | Column::Latest
        | Column::PricedAs
        | Column::Address
        | Column::Line => Ok(()),
    }
}

// Adds what a line has in a column.
fn put_cell_text(out: &mut Vec<u8>, line: &TableLine<'_>, column: Column) -> Result<(), AllocError>
    ensures { OnOk result (out.new.items ≡ out.old.items ++ cell_text line.now column) }
{
    match line {
        TableLine::Names => put(out, column.name()),
        TableLine::Row(row) => put_row_cell(out, row, column),
        TableLine::Fold(_) => Ok(()),
        TableLine::Total(total) => put_total_cell(out, *total, column),
    }
}

// Makes a buffer what a line has in a column. One buffer serves many cells, so that each takes no memory
// anew.
fn fill_cell(buffer: &mut Vec<u8>, line: &TableLine<'_>, column: Column) -> Result<(), AllocError>
    ensures { OnOk result (buffer.new.items ≡ cell_text line.now column) }
{
    buffer.clear();
    put_cell_text(buffer, line, column)
}

// How wide that is.
fn cell_width(
    buffer: &mut Vec<u8>,
    line: &TableLine<'_>,
    column: Column,
) -> Result<usize, AllocError>
    ensures { IfOk result (λ width. width ≡ length (cell_text line.now column)) }
{
    fill_cell(buffer, line, column)?;
    Ok(buffer.len())
}

fn wider(a: usize, b: usize) -> usize
    ensures { result ≡ max a b }
{
    a.max(b)
}

// The width of the widest text that the lines have in a column.
fn widest(alloc: Global, lines: &[TableLine<'_>], column: Column) -> Result<usize, AllocError>
    ensures { IfOk result (λ width. width ≡ widest lines.now column) }
{
    let mut buffer = Vec::new(alloc);
    let mut width = 0;
    for line in lines {
        width = wider(width, cell_width(&mut buffer, line, column)?);
    }
    Ok(width)
}

/// How wide the columns of the lines are: each as its widest text. `AllocError`: an allocation failed.
pub(crate) fn widths_of(alloc: Global, lines: &[TableLine<'_>]) -> Result<Widths, AllocError>
    ensures { IfOk result (λ widths. widths ≡ widths_of lines.now) }
{
    Ok(Widths {
        passes: widest(alloc, lines, Column::Passes)?,
        each: widest(alloc, lines, Column::Each)?,
        ticks: widest(alloc, lines, Column::Ticks)?,
        share: widest(alloc, lines, Column::Share)?,
        first: widest(alloc, lines, Column::First)?,
        latest: widest(alloc, lines, Column::Latest)?,
        priced_as: widest(alloc, lines, Column::PricedAs)?,
        address: widest(alloc, lines, Column::Address)?,
        line: widest(alloc, lines, Column::Line)?,
    })
}

// Adds what a line has in a column, where the column is.
fn put_cell(
    out: &mut Vec<u8>,
    buffer: &mut Vec<u8>,
    widths: &Widths,
    line: &TableLine<'_>,
    column: Column,
) -> Result<(), AllocError>
    ensures { OnOk result
        (out.new.items ≡ out.old.items ++ in_column widths.now column (cell_text line.now column)) }
{
    fill_cell(buffer, line, column)?;
    put_in_column(out, widths, column, buffer)
}

// Adds what a line has in some columns.
fn put_cells(
    out: &mut Vec<u8>,
    widths: &Widths,
    line: &TableLine<'_>,
    columns: &[Column],
) -> Result<(), AllocError>
    ensures { OnOk result (out.new.items ≡ out.old.items ++ cells widths.now line.now columns.now) }
{
    let mut buffer = Vec::new(*out.allocator());
    for column in columns {
        put_cell(out, &mut buffer, widths, line, *column)?;
    }
    Ok(())
}

// Adds a text that ends where these columns of a line do, in place of what stands in them.
fn put_over_cells(
    out: &mut Vec<u8>,
    widths: &Widths,
    line: &TableLine<'_>,
    columns: &[Column],
    text: &[u8],
) -> Result<(), AllocError>
    ensures { OnOk result
        (out.new.items ≡ out.old.items ++ over_cells widths.now line.now columns.now text.now) }
{
    let mut cells = Vec::new(*out.allocator());
    put_cells(&mut cells, widths, line, columns)?;
    put_ending(out, text, cells.len())
}

// Adds what is taken, or that no walk ever comes there.
fn put_taken(out: &mut Vec<u8>, widths: &Widths, row: &TableRow<'_>) -> Result<(), AllocError>
    ensures { OnOk result (out.new.items ≡ out.old.items ++ taken_text widths.now row.now) }
{
    let line = TableLine::Row(*row);
    if row.figures.taken.is_some() {
        return put_cells(out, widths, &line, &TAKEN_COLUMNS);
    }
    put_over_cells(out, widths, &line, &TAKEN_COLUMNS, b"never reached")
}

// Adds a row up to the text of its line.
fn put_columns(out: &mut Vec<u8>, layout: &Layout<'_>, row: &TableRow<'_>) -> Result<(), AllocError>
    ensures { OnOk result (out.new.items ≡ out.old.items ++ row_columns layout.now row.now) }
{
    put_taken(out, &layout.widths, row)?;
    put_cells(out, &layout.widths, &TableLine::Row(*row), layout.columns)?;
    put(out, b"  ")
}

// Adds as much of a row's text as there is room for.
fn put_row_end(out: &mut Vec<u8>, room: usize, row: &TableRow<'_>) -> Result<(), AllocError>
    ensures { OnOk result (Appends (IsRowEnd room row.now) out.old.items out.new.items) }
{
    match &row.line {
        RowLine::Text(line) => {
            let text = squeezed(*out.allocator(), line.text)?;
            put_cut(out, room, &text)
        }
        RowLine::Word(word) => {
            let line = disassemble(*word, row.at);
            put_cut(out, room, line.items())
        }
    }
}

// Adds a row.
fn put_row(out: &mut Vec<u8>, layout: &Layout<'_>, row: &TableRow<'_>) -> Result<(), AllocError>
    ensures { OnOk result (Appends (IsLineText layout.now (Row row.now)) out.old.items out.new.items) }
{
    let begun = out.len();
    put_columns(out, layout, row)?;
    let used = out.len() - begun;
    put_row_end(out, layout.width.saturating_sub(used), row)
}

// Adds the names of the columns.
fn put_names(out: &mut Vec<u8>, layout: &Layout<'_>) -> Result<(), AllocError>
    ensures { OnOk result (out.new.items ≡ out.old.items ++ names_text layout.now) }
{
    put_cells(out, &layout.widths, &TableLine::Names, &TAKEN_COLUMNS)?;
    put_cells(out, &layout.widths, &TableLine::Names, layout.columns)?;
    put(out, b"  text\n")
}

// Adds the row of all ticks.
fn put_total(out: &mut Vec<u8>, widths: &Widths, total: Total) -> Result<(), AllocError>
    ensures { OnOk result (out.new.items ≡ out.old.items ++ total_text widths.now total) }
{
    let line = TableLine::Total(total);
    put_over_cells(
        out,
        widths,
        &line,
        &[Column::Passes, Column::Each],
        b"total",
    )?;
    put_cells(out, widths, &line, &[Column::Ticks, Column::Share])?;
    put(out, b"\n")
}

// What the rows of lines, or of words, are.
fn things(line: &RowLine<'_>) -> &'static [u8]
    ensures { result.now ≡ things line.now }
{
    match line {
        RowLine::Text(_) => b" lines ",
        RowLine::Word(_) => b" words ",
    }
}

// Why rows are folded, by what is taken at the first.
fn why_folded(taken: Option<Taken>) -> &'static [u8]
    ensures { result.now ≡ why_folded taken }
{
    match taken {
        None => b"never reached, ",
        Some(_) => b"off the path, ",
    }
}

// Adds the number of a line, or the address of a word.
fn put_line_name(out: &mut Vec<u8>, at: u32, line: &RowLine<'_>) -> Result<(), AllocError>
    ensures { OnOk result (out.new.items ≡ out.old.items ++ line_name at line.now) }
{
    match line {
        RowLine::Text(line) => put_decimal(out, line.number),
        RowLine::Word(_) => put(out, &hex(u64::from(at))),
    }
}

// Adds the row of rows that are folded.
fn put_fold(out: &mut Vec<u8>, fold: &Fold<'_>) -> Result<(), AllocError>
    ensures { OnOk result (out.new.items ≡ out.old.items ++ fold_text fold.now) }
{
    put_decimal(out, fold.count as u64)?;
    put(out, things(&fold.first.line))?;
    put(out, why_folded(fold.first.figures.taken))?;
    put_line_name(out, fold.first.at, &fold.first.line)?;
    put(out, b" to ")?;
    put_line_name(out, fold.last.at, &fold.last.line)?;
    put(out, b"\n")
}

// Adds a line.
fn put_line(out: &mut Vec<u8>, layout: &Layout<'_>, line: &TableLine<'_>) -> Result<(), AllocError>
    ensures { OnOk result (Appends (IsLineText layout.now line.now) out.old.items out.new.items) }
{
    match line {
        TableLine::Names => put_names(out, layout),
        TableLine::Row(row) => put_row(out, layout, row),
        TableLine::Fold(fold) => put_fold(out, fold),
        TableLine::Total(total) => put_total(out, &layout.widths, *total),
    }
}

/// Adds the lines of a table. `AllocError`: an allocation failed.
pub(crate) fn put_lines(
    out: &mut Vec<u8>,
    layout: &Layout<'_>,
    lines: &[TableLine<'_>],
) -> Result<(), AllocError>
    ensures { OnOk result
        (Appends (AreRows (IsLineText layout.now) lines.now) out.old.items out.new.items) }
{
    for line in lines {
        put_line(out, layout, line)?;
    }
    Ok(())
}
