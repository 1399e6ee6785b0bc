ghost use Rattle.std.specs.Prelude.{◌≡◌, ◌≤◌, ◌++◌, OnOk, decimal, slice_index_or};
ghost use Rattle.text_rows.specs.Columns.{cut_at, cut_row, goes_on, in_columns};

use itoa::Buffer;
use std::alloc::AllocError;

/// The most columns at whose right end a text or a number is put.
pub const WIDEST_COLUMN: usize = 36;

// So many blanks.
const BLANKS: &[u8] = b"                                    ";

/// The columns of a row.
pub const ROW_COLUMNS: usize = 80;

/// Adds a text.
///
/// # Errors
///
/// An allocation failed.
pub fn put(out: &mut Vec<u8>, text: &[u8]) -> Result<(), AllocError>
    ensures { OnOk result (out.new.items ≡ out.old.items ++ text.now) }
{
    out.extend_from_slice(text)
}

/// Adds a number in decimal.
///
/// # Errors
///
/// An allocation failed.
pub fn put_decimal(out: &mut Vec<u8>, number: u64) -> Result<(), AllocError>
    ensures { OnOk result (out.new.items ≡ out.old.items ++ decimal number) }
{
    let mut buffer = Buffer::new();
    put(out, buffer.format(number).as_bytes())
}

/// Adds a text that ends so many columns on, up to [`WIDEST_COLUMN`]; a longer text has no blank in front.
///
/// # Errors
///
/// An allocation failed.
pub fn put_right(out: &mut Vec<u8>, text: &[u8], width: usize) -> Result<(), AllocError>
    requires { width ≤ WIDEST_COLUMN }
    ensures { OnOk result (out.new.items ≡ out.old.items ++ in_columns width text.now) }
{
    put(out, &BLANKS[..width.saturating_sub(text.len())])?;
    put(out, text)
}

/// Adds a number in decimal that ends so many columns on, up to [`WIDEST_COLUMN`].
///
/// # Errors
///
/// An allocation failed.
pub fn put_number(out: &mut Vec<u8>, number: u64, width: usize) -> Result<(), AllocError>
    requires { width ≤ WIDEST_COLUMN }
    ensures { OnOk result (out.new.items ≡ out.old.items ++ in_columns width (decimal number)) }
{
    let mut buffer = Buffer::new();
    put_right(out, buffer.format(number).as_bytes(), width)
}

// Whether a byte goes on with a character of UTF-8.
fn goes_on(byte: u8) -> bool
    ensures { result ≡ goes_on byte }
{
    byte >= 128 && byte < 192
}

// The byte of a text, 0 past its end.
fn byte_at(text: &[u8], index: usize) -> u8
    ensures { result ≡ slice_index_or text.now index 0 }
{
    text.get(index).copied().unwrap_or(0)
}

// The greatest number of bytes, up to so many, after which a cut parts no character.
fn cut_at(text: &[u8], most: usize) -> usize
    ensures { result ≡ cut_at most text.now }
{
    if most == 0 {
        return 0;
    }
    if goes_on(byte_at(text, most)) {
        return cut_at(text, most - 1);
    }
    most
}

/// Ends a row that has so many columns with a text, of which it adds as much as there is room for up to
/// column 80. No character of UTF-8 is parted.
///
/// # Errors
///
/// An allocation failed.
pub fn put_cut_row(out: &mut Vec<u8>, used: usize, text: &[u8]) -> Result<(), AllocError>
    ensures { OnOk result (out.new.items ≡ out.old.items ++ cut_row used text.now) }
{
    let most = cut_at(text, ROW_COLUMNS.saturating_sub(used));
    put(out, &text[..most.min(text.len())])?;
    put(out, b"\n")
}
