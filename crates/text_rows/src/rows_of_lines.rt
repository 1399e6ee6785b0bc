ghost use Rattle.std.specs.Prelude.{◌≡◌, ◌+◌, ◌*◌, ◌++◌, ℕ, List, OnOk};
ghost use Rattle.asm_text.specs.Source.{lines_of};
ghost use Rattle.assembler.specs.declared.placed_line.PlacedLine.{PlacedLine};
ghost use Rattle.text_rows.specs.Lines.{rows_by_line, rows_by_word};

use crate::address_rows::NumberedLine;
use asm_text::first_line;
use assembler::PlacedLine;
use std::alloc::AllocError;

/// The rows of a text, line by line of a source.
pub trait LineRows {
    /// Those of a line, by its number, its text and where it is placed.
    ghost rows: { Self → ℕ → List ℕ → PlacedLine → List ℕ };

    /// Adds the rows of a line.
    ///
    /// # Errors
    ///
    /// An allocation failed.
    fn put(
        &self,
        out: &mut Vec<u8>,
        line: NumberedLine<'_>,
        placed: PlacedLine,
    ) -> Result<(), AllocError>
        ensures { OnOk result
            (out.new.items
            ≡ out.old.items ++ rows self.now line.entry.number line.entry.text.now placed) };
}

/// Adds the rows of a source's lines, numbered from 1. `placed` says where the lines are, in their order;
/// the rows end with the lines, or with the places.
///
/// # Errors
///
/// An allocation failed.
pub fn put_line_rows<R: LineRows>(
    out: &mut Vec<u8>,
    source: &[u8],
    placed: &[PlacedLine],
    rows: &R,
) -> Result<(), AllocError>
    ensures { OnOk result
        (out.new.items
        ≡ out.old.items ++ rows_by_line (R.rows rows.now) 1 (lines_of source.now) placed.now) }
{
    let mut rest = source;
    let mut number = 1;
    for line in placed {
        let Some((text, after)) = first_line(rest) else {
            return Ok(());
        };
        rows.put(out, NumberedLine { number, text }, *line)?;
        rest = after;
        number += 1;
    }
    Ok(())
}

/// The rows of a text, word by word of a source.
pub trait WordRows {
    /// That of a word, by the number and the text of its line and by its address; empty where it has none.
    ghost word_row: { Self → ℕ → List ℕ → ℕ → List ℕ };

    /// Adds the row of a word.
    ///
    /// # Errors
    ///
    /// An allocation failed.
    fn put(&self, out: &mut Vec<u8>, line: NumberedLine<'_>, at: u32) -> Result<(), AllocError>
        ensures { OnOk result
            (out.new.items
            ≡ out.old.items ++ word_row self.now line.entry.number line.entry.text.now at) };
}

// Rows word by word, for each line.
#[derive(Clone, Copy)]
struct ByWord<'r, R> {
    rows: &'r R,
}

impl<R: WordRows> LineRows for ByWord<'_, R> {
    ghost rows = { λ s. rows_by_word (R.word_row s.rows.now) };

    fn put(
        &self,
        out: &mut Vec<u8>,
        line: NumberedLine<'_>,
        placed: PlacedLine,
    ) -> Result<(), AllocError> {
        let mut at = placed.at;
        for _ in 0..placed.words {
            self.rows.put(out, line, at)?;
            at += 4;
        }
        Ok(())
    }
}

/// Adds the rows of the words of a source's lines, as [`put_line_rows`] does.
///
/// # Errors
///
/// An allocation failed.
pub fn put_word_rows<R: WordRows>(
    out: &mut Vec<u8>,
    source: &[u8],
    placed: &[PlacedLine],
    rows: &R,
) -> Result<(), AllocError>
    ensures { OnOk result
        (out.new.items
        ≡ out.old.items
        ++ rows_by_line (rows_by_word (R.word_row rows.now)) 1 (lines_of source.now) placed.now) }
{
    put_line_rows(out, source, placed, &ByWord { rows })
}
