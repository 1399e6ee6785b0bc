//! How the text of a line is shown in a row.

ghost use Rattle.std.specs.Prelude.{◌≡◌, ◌++◌, IfOk, OnOk, slice_index_or};
ghost use Rattle.text_rows.specs.Columns.{cut_at, goes_on};
ghost use Rattle.text_explained.specs.ShownTexts.{byte_text, cut_text, squeezed};

use asm_text::is_blank;
use std::alloc::{AllocError, Global};
use text_rows::put;

// Adds a byte, with a blank in front of it if it comes after blanks; a blank alone adds nothing.
fn put_byte(out: &mut Vec<u8>, after_blanks: bool, byte: u8) -> Result<(), AllocError>
    ensures { OnOk result (out.new.items ≡ out.old.items ++ byte_text after_blanks byte) }
{
    if is_blank(byte) {
        return Ok(());
    }
    if after_blanks {
        return put(out, &[b' ', byte]);
    }
    put(out, &[byte])
}

/// A text in which one blank stands for each run of blanks and tabs, and for none at its end. `AllocError`:
/// an allocation failed.
pub(crate) fn squeezed(alloc: Global, text: &[u8]) -> Result<Vec<u8>, AllocError>
    ensures { IfOk result (λ shown. shown.items ≡ squeezed text.now) }
{
    let mut out = Vec::new(alloc);
    let mut after_blanks = false;
    for byte in text {
        put_byte(&mut out, after_blanks, *byte)?;
        after_blanks = is_blank(*byte);
    }
    Ok(out)
}

// Whether a byte goes on with a character of UTF-8.
fn goes_on(byte: u8) -> bool
    ensures { result ≡ goes_on byte }
{
    byte >= 128 && byte < 192
}

// The byte of a text, 0 past its end.
fn byte_at(text: &[u8], index: usize) -> u8
    ensures { result ≡ slice_index_or text.now index 0 }
{
    text.get(index).copied().unwrap_or(0)
}

// The greatest number of bytes, up to so many, after which a cut parts no character.
fn cut_at(text: &[u8], most: usize) -> usize
    ensures { result ≡ cut_at most text.now }
{
    if most == 0 {
        return 0;
    }
    if goes_on(byte_at(text, most)) {
        return cut_at(text, most - 1);
    }
    most
}

/// Ends a row with as much of a text as there is room for, so many bytes. No character of UTF-8 is parted.
/// `AllocError`: an allocation failed.
pub(crate) fn put_cut(out: &mut Vec<u8>, room: usize, text: &[u8]) -> Result<(), AllocError>
    ensures { OnOk result (out.new.items ≡ out.old.items ++ cut_text room text.now) }
{
    let most = cut_at(text, room);
    put(out, &text[..most.min(text.len())])?;
    put(out, b"\n")
}
