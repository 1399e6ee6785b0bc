//! Of a text that is no TOML: one of its lines.

ghost use Rattle.std.specs.Prelude.{◌≡◌, ◌≤◌, IfOk, length};
ghost use Rattle.text_refusals.specs.Refused.{IsTomlText, feeds, toml_row, toml_row_at};

use crate::word_rows::around_number;
use std::alloc::{AllocError, Global};

// How many lines end in the text.
fn feeds(text: &[u8]) -> usize
    ensures count { result ≡ feeds text.now }
    ensures within { result ≤ length text.now }
{
    text.iter().filter(|byte| **byte == b'\n').count()
}

fn toml_row(alloc: Global, number: usize) -> Result<Vec<u8>, AllocError>
    ensures { IfOk result (λ out. out.items ≡ toml_row number) }
{
    around_number(alloc, b"line ", number, b" is no TOML\n")
}

// The row of the line that holds the byte at an index, or the end of the text.
fn toml_row_at(alloc: Global, text: &[u8], at: usize) -> Result<Vec<u8>, AllocError>
    requires { at ≤ length text.now }
    ensures { IfOk result (λ out. out.items ≡ toml_row_at text.now at) }
{
    let number = feeds(&text[..at]) + 1;
    toml_row(alloc, number)
}

/// The line of a text where it is no TOML.
///
/// # Errors
///
/// An allocation failed.
pub(crate) fn no_toml_text(alloc: Global, text: &[u8]) -> Result<Vec<u8>, AllocError>
    ensures { IfOk result (λ out. IsTomlText text.now out.items) }
{
    let Err(error) = toml::table_from_slice(alloc, text) else {
        return Ok(Vec::new(alloc));
    };
    match error.span() {
        Some(span) => toml_row_at(alloc, text, span.start),
        None => Err(AllocError),
    }
}
