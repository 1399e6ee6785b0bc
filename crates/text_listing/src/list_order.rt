//! Notes on lists of registers that are not in the order of their numbers.

ghost use Rattle.std.specs.Prelude.{◌≡◌, ◌≤◌, ◌++◌, IfOk, OnOk, length, map};
ghost use Rattle.asm_text.specs.Statements.{body_len, is_in_body};
ghost use Rattle.text_listing.specs.ListOrder.{after, before, falls_from, in_braces, is_between};
ghost use Rattle.text_listing.specs.ListOrder.{is_out_of_order, len_before, names_in, number_or};
ghost use Rattle.text_listing.specs.ListOrder.{note_row, order_note, register_or};

use crate::listing_columns::WORD_COLUMNS;
use arm2_decode::Register;
use asm_text::register_of;
use std::alloc::{AllocError, Global};
use text_rows::{put, put_right};

fn is_in_body(byte: u8) -> bool
    ensures { result ≡ is_in_body byte }
{
    byte != b';'
}

// How many bytes of a line stand in front of its comment.
fn body_len(line: &[u8]) -> usize
    ensures len { result ≡ body_len line.now }
    ensures within { result ≤ length line.now }
{
    line.iter().take_while(|byte| is_in_body(**byte)).count()
}

// How many bytes stand before the first mark: all where there is none.
fn len_before(text: &[u8], mark: u8) -> usize
    ensures len { result ≡ len_before mark text.now }
    ensures within { result ≤ length text.now }
{
    text.iter().take_while(|byte| **byte != mark).count()
}

// What stands before the first mark, or all.
fn before(text: &[u8], mark: u8) -> &[u8]
    ensures { result.now ≡ before mark text.now }
{
    &text[..len_before(text, mark)]
}

// What stands after the first mark, or nothing.
fn after(text: &[u8], mark: u8) -> &[u8]
    ensures { result.now ≡ after mark text.now }
{
    let len = len_before(text, mark);
    if text.len() <= len {
        return &[];
    }
    &text[len + 1..]
}

// What stands in the braces of a line.
fn in_braces(line: &[u8]) -> &[u8]
    ensures { result.now ≡ in_braces line.now }
{
    let body = &line[..body_len(line)];
    before(after(body, b'{'), b'}')
}

fn is_between(byte: u8) -> bool
    ensures { result ≡ is_between byte }
{
    (byte == b',' || byte == b'-') || (byte == b' ' || byte == b'\t')
}

// The names in the braces of a line.
fn names_in(alloc: Global, line: &[u8]) -> Result<Vec<&[u8]>, AllocError>
    ensures { IfOk result (λ names. map (λ n. n.now) names.items ≡ names_in line.now) }
{
    in_braces(line)
        .split(|byte| is_between(*byte))
        .collect(alloc)
}

fn register_or(before: u32, register: Option<Register>) -> u32
    ensures { result ≡ register_or before register }
{
    match register {
        Some(register) => register.number(),
        None => before,
    }
}

// The number of the register that a text names, and where it names none that of the one before.
fn number_or(before: u32, name: &[u8]) -> u32
    ensures { result ≡ number_or before name.now }
{
    register_or(before, register_of(name))
}

// Whether a register's number is below that of the one before.
fn falls(names: &[&[u8]]) -> bool
    ensures { result ≡ falls_from 0 (map (λ n. n.now) names.now) }
{
    let mut before = 0;
    let mut falls = false;
    for name in names {
        let number = number_or(before, name);
        falls = falls | (number < before);
        before = number;
    }
    falls
}

// Whether the registers of a line's list are not in the order of their numbers.
fn is_out_of_order(alloc: Global, line: &[u8]) -> Result<bool, AllocError>
    ensures { IfOk result (λ is. is ≡ is_out_of_order line.now) }
{
    let names = names_in(alloc, line)?;
    Ok(falls(&names))
}

// Adds that registers go in the order of their numbers, in a row of its own.
fn put_note(out: &mut Vec<u8>) -> Result<(), AllocError>
    ensures { OnOk result (out.new.items ≡ out.old.items ++ note_row) }
{
    put_right(out, b"", WORD_COLUMNS)?;
    put(
        out,
        b"          note: registers go in the order of their numbers\n",
    )
}

/// Adds, below a line whose registers are not in the order of their numbers, that they go in this order.
/// `AllocError`: an allocation failed.
pub(crate) fn put_order_note(out: &mut Vec<u8>, line: &[u8]) -> Result<(), AllocError>
    ensures { OnOk result (out.new.items ≡ out.old.items ++ order_note line.now) }
{
    let noted = is_out_of_order(*out.allocator(), line)?;
    if noted {
        return put_note(out);
    }
    Ok(())
}
