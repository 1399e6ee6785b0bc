ghost use Rattle.std.specs.Prelude.{◌≡◌, ◌+◌, ◌<◌, ◌++◌, IfOk, OnOk};
ghost use Rattle.asm_text.specs.Appended.{Appends};
ghost use Rattle.text_rows.specs.Rows.{IsShownRow, address_column, address_row, named_row, section};

use crate::text_columns::{put, put_cut_row, put_number};
use asm_text::hex8;
use assembler::disassemble;
use std::alloc::{AllocError, Global};

/// A line of a source and its number, from 1.
#[derive(Clone, Copy)]
pub struct NumberedLine<'a> {
    pub number: u64,
    pub text: &'a [u8],
}

/// The rows under their heading, or nothing where there are none.
///
/// # Errors
///
/// An allocation failed.
pub fn section(alloc: Global, heading: &[u8], rows: &[u8]) -> Result<Vec<u8>, AllocError>
    ensures { IfOk result (λ text. text.items ≡ section heading.now rows.now) }
{
    let mut out = Vec::new(alloc);
    if let [] = rows {
        return Ok(out);
    }
    put(&mut out, heading)?;
    put(&mut out, rows)?;
    Ok(out)
}

/// Adds an address in eight upper-case hexadecimal digits, after two blanks.
///
/// # Errors
///
/// An allocation failed.
pub fn put_address(out: &mut Vec<u8>, at: u32) -> Result<(), AllocError>
    ensures { OnOk result (out.new.items ≡ out.old.items ++ address_column at) }
{
    put(out, b"  ")?;
    put(out, &hex8(at))
}

/// Adds the row of an address where no word is.
///
/// # Errors
///
/// An allocation failed.
pub fn put_address_row(out: &mut Vec<u8>, at: u32) -> Result<(), AllocError>
    ensures { OnOk result (out.new.items ≡ out.old.items ++ address_row at) }
{
    put_address(out, at)?;
    put(out, b"\n")
}

/// Adds the row of a line's word to a row that has `used` columns: its address, the number of the line, and
/// as much of the line's text as there is room for up to column 80.
///
/// # Errors
///
/// An allocation failed.
pub fn put_named_row(
    out: &mut Vec<u8>,
    used: usize,
    line: NumberedLine<'_>,
    at: u32,
) -> Result<(), AllocError>
    ensures { OnOk result
        (out.new.items ≡ out.old.items ++ named_row used at line.entry.number line.entry.text.now) }
{
    let begun = out.len();
    put_address(out, at)?;
    put(out, b" ")?;
    put_number(out, line.number, 5)?;
    put(out, b"  ")?;
    put_cut_row(out, used.saturating_add(out.len() - begun), line.text)
}

/// Adds the row of an image's word to a row that has `used` columns: its address, the word, and as much of
/// the line that [`disassemble`] shows as there is room for up to column 80.
///
/// # Errors
///
/// An allocation failed.
pub fn put_shown_row(out: &mut Vec<u8>, used: usize, at: u32, word: u32) -> Result<(), AllocError>
    ensures { OnOk result (Appends (IsShownRow used (at, word)) out.old.items out.new.items) }
{
    let begun = out.len();
    put_address(out, at)?;
    put(out, b"  ")?;
    put(out, &hex8(word))?;
    put(out, b"  ")?;
    let line = disassemble(word, at);
    put_cut_row(out, used.saturating_add(out.len() - begun), line.items())
}
