//! What the rows of a table tell, before they are printed.

ghost use Rattle.std.specs.Prelude.{◌≡◌, ◌++◌, IfOk, OnOk, map};
ghost use Rattle.asm_text.specs.Source.{lines_of};
ghost use Rattle.text_explained.specs.Costing.{figures_of};
ghost use Rattle.text_explained.specs.Table.{line_row, line_rows, row_of, source_rows, word_row};

use crate::cost_figures::{Costing, RowFigures, told_of};
use asm_text::first_line;
use assembler::PlacedLine;
use sources::{Source, SourceText};
use std::alloc::{AllocError, Global};
use text_rows::NumberedLine;

/// What a row is of.
#[derive(Clone, Copy)]
pub enum RowLine<'a> {
    /// A line of a source.
    Text(NumberedLine<'a>),
    /// A word of an image.
    Word(u32),
}

/// A row.
#[derive(Clone, Copy)]
pub struct TableRow<'a> {
    /// The address of the word of which it tells.
    pub at: u32,
    pub figures: RowFigures,
    pub line: RowLine<'a>,
}

// Adds the row of a line, if it has words.
fn add_line<'a>(
    rows: &mut Vec<TableRow<'a>>,
    costing: &Costing<'_>,
    line: NumberedLine<'a>,
    placed: PlacedLine,
) -> Result<(), AllocError>
    ensures { OnOk result (map row_of rows.new.items
        ≡ map row_of rows.old.items
        ++ line_row (figures_of costing.now) line.entry.number line.entry.text.now placed) }
{
    if placed.words == 0 {
        return Ok(());
    }
    let told = told_of(&costing.tally, placed);
    rows.push(TableRow {
        at: told.at,
        figures: costing.figures(told.taken, told.at),
        line: RowLine::Text(line),
    })?;
    Ok(())
}

// The rows of a source's lines, numbered from 1.
fn rows_of_lines<'a>(
    alloc: Global,
    costing: &Costing<'_>,
    source: &'a [u8],
    placed: &[PlacedLine],
) -> Result<Vec<TableRow<'a>>, AllocError>
    ensures { IfOk result (λ rows. map row_of rows.items
        ≡ line_rows (figures_of costing.now) 1 (lines_of source.now) placed.now) }
{
    let mut rows = Vec::new(alloc);
    let mut rest = source;
    let mut number = 1;
    for line in placed {
        let Some((text, after)) = first_line(rest) else {
            return Ok(rows);
        };
        add_line(&mut rows, costing, NumberedLine { number, text }, *line)?;
        rest = after;
        number += 1;
    }
    Ok(rows)
}

// The row of a word.
fn row_of_word<'a>(costing: &Costing<'_>, at: u32, word: u32) -> TableRow<'a>
    ensures { row_of result ≡ word_row (figures_of costing.now) (at, word) }
{
    TableRow {
        at,
        figures: costing.figures(costing.tally.at(at), at),
        line: RowLine::Word(word),
    }
}

// Those of an image's words.
fn rows_of_words<'a>(
    alloc: Global,
    costing: &Costing<'_>,
    words: &[(u32, u32)],
) -> Result<Vec<TableRow<'a>>, AllocError>
    ensures { IfOk result
        (λ rows. map row_of rows.items ≡ map (word_row (figures_of costing.now)) words.now) }
{
    let mut rows = Vec::new(alloc);
    for (at, word) in words {
        rows.push(row_of_word(costing, *at, *word))?;
    }
    Ok(rows)
}

/// The rows of a source's lines that have words, or of an image's words in the order of their addresses.
/// `AllocError`: an allocation failed.
pub(crate) fn source_rows<'a>(
    alloc: Global,
    costing: &Costing<'_>,
    source: &'a Source<'_>,
) -> Result<Vec<TableRow<'a>>, AllocError>
    ensures { IfOk result (λ rows. map row_of rows.items
        ≡ source_rows (figures_of costing.now) source.now.image source.now.text) }
{
    match &source.text {
        SourceText::Lines(bytes, placed) => rows_of_lines(alloc, costing, bytes, placed),
        SourceText::Image => {
            let words = source.image.listed(alloc)?;
            rows_of_words(alloc, costing, &words)
        }
    }
}
