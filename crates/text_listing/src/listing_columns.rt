ghost use Rattle.std.specs.Prelude.{◌≡◌, ◌++◌, OnOk};
ghost use Rattle.asm_text.specs.Appended.{Appends};
ghost use Rattle.text_listing.specs.Listing.{IsWordRow, line_row, word_columns};
ghost use Rattle.text_trace.specs.TraceText.{word_text};

use asm_text::hex8;
use assembler::disassemble;
use std::alloc::AllocError;
use text_rows::{NumberedLine, put, put_cut_row, put_number};

fn put_word(out: &mut Vec<u8>, word: Option<u32>) -> Result<(), AllocError>
    ensures { OnOk result (out.new.items ≡ out.old.items ++ word_text word) }
{
    match word {
        Some(word) => put(out, &hex8(word)),
        None => put(out, b"--------"),
    }
}

/// Adds an address and the word there, each in eight upper-case hexadecimal digits.
pub(crate) fn put_word_columns(
    out: &mut Vec<u8>,
    at: u32,
    word: Option<u32>,
) -> Result<(), AllocError>
    ensures { OnOk result (out.new.items ≡ out.old.items ++ word_columns at word) }
{
    put_word(out, Some(at))?;
    put(out, b"  ")?;
    put_word(out, word)
}

/// The columns of an address and of the word there.
pub(crate) const WORD_COLUMNS: usize = 18;

/// Adds the number of a line and as much of its text as there is room for after the columns of a word, and
/// ends the row.
pub(crate) fn put_line_row(out: &mut Vec<u8>, line: NumberedLine<'_>) -> Result<(), AllocError>
    ensures { OnOk result
        (out.new.items ≡ out.old.items ++ line_row line.entry.number line.entry.text.now) }
{
    let begun = out.len();
    put(out, b"  ")?;
    put_number(out, line.number, 6)?;
    put(out, b"  ")?;
    put_cut_row(
        out,
        WORD_COLUMNS.saturating_add(out.len() - begun),
        line.text,
    )
}

/// Adds the row of an image's word: its address, itself, and its line as [`disassemble`] shows it.
pub(crate) fn put_word_row(out: &mut Vec<u8>, at: u32, word: u32) -> Result<(), AllocError>
    ensures { OnOk result (Appends (IsWordRow (at, word)) out.old.items out.new.items) }
{
    put_word_columns(out, at, Some(word))?;
    put(out, b"  ")?;
    let line = disassemble(word, at);
    put_cut_row(out, WORD_COLUMNS + 2, line.items())
}
