ghost use Rattle.std.specs.Prelude.{◌≡◌, ◌≤◌, ◌++◌, ℕ, List, OnOk, length, map, replicate};
ghost use Rattle.asm_text.specs.Hex.{hex8};
ghost use Rattle.asm_text.specs.Statements.{body_len, is_in_body};
ghost use Rattle.text_rows.specs.Addresses.{name_text};
ghost use Rattle.text_draft.specs.Rows.{line_label, remark, row, shown, without_comment};

use asm_text::hex8;
use std::alloc::AllocError;
use text_rows::{ROW_COLUMNS, SourceLine, put, put_decimal, put_labelled};

/// Adds an address in eight hexadecimal digits.
pub(crate) fn put_address(out: &mut Vec<u8>, at: u32) -> Result<(), AllocError>
    ensures { OnOk result (out.new.items ≡ out.old.items ++ hex8 at) }
{
    put(out, &hex8(at))
}

/// Adds an address as a statement has it: its label in quotes, or a number.
pub(crate) fn put_name(
    out: &mut Vec<u8>,
    line: Option<SourceLine>,
    at: u32,
) -> Result<(), AllocError>
    ensures { OnOk result (out.new.items ≡ out.old.items ++ name_text (line_label line.entry) at) }
{
    match line {
        Some(line) => put_labelled(out, line.label, at),
        None => put_labelled(out, b"", at),
    }
}

// A byte as comments have it.
fn shown(byte: u8) -> u8
    ensures { result ≡ shown byte }
{
    if byte >= b' ' && byte <= b'~' {
        byte
    } else {
        b'.'
    }
}

// Adds a text as comments have it.
fn put_shown(out: &mut Vec<u8>, text: &[u8]) -> Result<(), AllocError>
    ensures { OnOk result (out.new.items ≡ out.old.items ++ map shown text.now) }
{
    for byte in text {
        out.push(shown(*byte))?;
    }
    Ok(())
}

fn is_in_body(byte: u8) -> bool
    ensures { result ≡ is_in_body byte }
{
    byte != b';'
}

// The bytes of a line in front of its comment.
fn body_len(line: &[u8]) -> usize
    ensures len { result ≡ body_len line.now }
    ensures within { result ≤ length line.now }
{
    line.iter().take_while(|b| is_in_body(**b)).count()
}

// What a line has in front of its comment, without the blanks at its end.
fn without_comment(line: &[u8]) -> &[u8]
    ensures { result.now ≡ without_comment line.now }
{
    line[..body_len(line)].trim_ascii_end()
}

// Adds the comment with the number and the text of a line.
fn put_remark(out: &mut Vec<u8>, line: Option<SourceLine>) -> Result<(), AllocError>
    ensures { OnOk result (out.new.items ≡ out.old.items ++ remark line.entry) }
{
    let Some(line) = line else {
        return Ok(());
    };
    put(out, b"  # line ")?;
    put_decimal(out, line.number as u64)?;
    put(out, b": ")?;
    put_shown(out, without_comment(line.text))
}

/// Ends a row whose text begins at a place: by a comment with the number and the text of a line, as far as
/// they fit.
pub(crate) fn end_row(
    out: &mut Vec<u8>,
    start: usize,
    line: Option<SourceLine>,
) -> Result<(), AllocError>
    ensures { OnOk result
        ((before text : List ℕ) → out.old.items ≡ before ++ text → length before ≡ start
        → out.new.items ≡ before ++ row text line.entry) }
{
    let end = out.len();
    let room = ROW_COLUMNS.saturating_sub(end.saturating_sub(start));
    put_remark(out, line)?;
    out.truncate(end + room);
    put(out, b"\n")
}

/// Adds blanks.
pub(crate) fn put_blanks(out: &mut Vec<u8>, count: usize) -> Result<(), AllocError>
    ensures { OnOk result (out.new.items ≡ out.old.items ++ replicate count 32) }
{
    for _ in 0..count {
        put(out, b" ")?;
    }
    Ok(())
}
