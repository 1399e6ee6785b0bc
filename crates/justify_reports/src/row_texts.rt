//! The rows as they are printed.

ghost use Rattle.std.specs.Prelude.{◌≡◌, ◌++◌, IfOk, OnOk, codes, decimal, length};
ghost use Rattle.asm_text.specs.Hex.{hex8};
ghost use Rattle.text_rows.specs.Rows.{named_row};
ghost use Rattle.asm_text.specs.Appended.{Appends};
ghost use Rattle.sources.specs.Lines.{AreLines};
ghost use Rattle.text_rows.specs.WordLines.{numbered_at};
ghost use Rattle.justify_reports.specs.RowTexts.{AreRowTexts, IsEnd, IsRowText, IsWordEnd, front_text};
ghost use Rattle.justify_reports.specs.RowTexts.{going_text, kind_text, link_text, range_text, reach_text};
ghost use Rattle.justify_reports.specs.RowTexts.{stated_text, verdict_text};

use crate::returns::Going;
use crate::rows::{Entry, Reach, Row, Verdict};
use asm_text::hex8;
use image::Image;
use known_words::Range;
use sources::Source;
use statement::class_name;
use std::alloc::{AllocError, Global};
use std::collections::BTreeMap;
use text_rows::{
    NumberedLine, SourceLine, put, put_address_row, put_decimal, put_named_row, put_right,
    put_shown_row,
};

// A source that was read, and its lines.
#[derive(Clone, Copy)]
struct Sight<'a, 's, 'l> {
    read: &'a Source<'s>,
    lines: &'a BTreeMap<u32, SourceLine<'l>>,
}

fn kind_text(entry: Entry) -> &'static [u8]
    ensures { result.now ≡ kind_text entry }
{
    match entry {
        Entry::Access(_) => b"  access",
        Entry::Base(_) => b"  base  ",
        Entry::Return(_) => b"  return",
        Entry::Loop(_) | Entry::Endless => b"  loop  ",
    }
}

fn put_most(out: &mut Vec<u8>, bound: u32) -> Result<(), AllocError>
    ensures { OnOk result (out.new.items ≡ out.old.items ++ stated_text (Entry.Loop bound)) }
{
    put(out, b"at most ")?;
    put_decimal(out, u64::from(bound))
}

fn put_less(out: &mut Vec<u8>, bytes: u32) -> Result<(), AllocError>
    ensures { OnOk result (out.new.items ≡ out.old.items ++ (codes " - " ++ decimal bytes)) }
{
    put(out, b" - ")?;
    put_decimal(out, u64::from(bytes))
}

fn put_link(out: &mut Vec<u8>, bytes: u32) -> Result<(), AllocError>
    ensures { OnOk result (out.new.items ≡ out.old.items ++ link_text bytes) }
{
    put(out, b"R14 at entry")?;
    if bytes == 0 {
        return Ok(());
    }
    put_less(out, bytes)
}

fn put_to(out: &mut Vec<u8>, address: u32) -> Result<(), AllocError>
    ensures { OnOk result (out.new.items ≡ out.old.items ++ (codes "to " ++ hex8 address)) }
{
    put(out, b"to ")?;
    put(out, &hex8(address))
}

// Adds where a return goes.
fn put_going(out: &mut Vec<u8>, going: Going) -> Result<(), AllocError>
    ensures { OnOk result (out.new.items ≡ out.old.items ++ going_text going) }
{
    match going {
        Going::Back(bytes) => put_link(out, bytes),
        Going::AfterCall => put(out, b"after its call"),
        Going::Out(address) => put_to(out, address),
        Going::BackInside(bytes) => put_link(out, bytes),
        Going::Unseen => put(out, b"unknown"),
        Going::Elsewhere(address) => put_to(out, address),
    }
}

fn put_span(out: &mut Vec<u8>, low: u32, high: u32) -> Result<(), AllocError>
    ensures { OnOk result (out.new.items ≡ out.old.items ++ (hex8 low ++ (codes "-" ++ hex8 high))) }
{
    put(out, &hex8(low))?;
    put(out, b"-")?;
    put(out, &hex8(high))
}

fn put_range(out: &mut Vec<u8>, range: Range) -> Result<(), AllocError>
    ensures { OnOk result (out.new.items ≡ out.old.items ++ range_text range) }
{
    if range.low == range.high {
        return put_to(out, range.low);
    }
    put_span(out, range.low, range.high)
}

// Adds the class of a word, or where it goes outside of that.
fn put_reach(out: &mut Vec<u8>, reach: Reach) -> Result<(), AllocError>
    ensures { OnOk result (out.new.items ≡ out.old.items ++ reach_text reach) }
{
    match reach {
        Reach::Of(class) => put(out, class_name(class).as_bytes()),
        Reach::Outside(range) => put_range(out, range),
    }
}

// Adds what an entry states, or where a word goes, or that no run leaves a loop.
fn put_stated(out: &mut Vec<u8>, entry: Entry) -> Result<(), AllocError>
    ensures { OnOk result (out.new.items ≡ out.old.items ++ stated_text entry) }
{
    match entry {
        Entry::Access(reach) => put_reach(out, reach),
        Entry::Base(reach) => put_reach(out, reach),
        Entry::Return(going) => put_going(out, going),
        Entry::Loop(bound) => put_most(out, bound),
        Entry::Endless => put(out, b"not left"),
    }
}

fn verdict_text(verdict: Verdict) -> &'static [u8]
    ensures { result.now ≡ verdict_text verdict }
{
    match verdict {
        Verdict::Follows => b"  follows ",
        Verdict::OnTrust => b"  ON TRUST",
        Verdict::False => b"  FALSE   ",
    }
}

// The columns of a row before its word.
fn front_of(alloc: Global, row: Row) -> Result<Vec<u8>, AllocError>
    ensures { IfOk result (λ front. front.items ≡ front_text row) }
{
    let mut stated = Vec::new(alloc);
    put_stated(&mut stated, row.entry)?;
    let mut front = Vec::new(alloc);
    put(&mut front, kind_text(row.entry))?;
    put_right(&mut front, &stated, 17)?;
    put(&mut front, verdict_text(row.verdict))?;
    Ok(front)
}

// Ends a row that has so many columns with a word of an image, or with the address where none is.
fn put_word_end(
    out: &mut Vec<u8>,
    used: usize,
    at: u32,
    word: Option<u32>,
) -> Result<(), AllocError>
    ensures { OnOk result (Appends (IsWordEnd used at word) out.old.items out.new.items) }
{
    match word {
        Some(word) => put_shown_row(out, used, at, word),
        None => put_address_row(out, at),
    }
}

// Ends such a row with a word of a text's line.
fn put_line_end(
    out: &mut Vec<u8>,
    used: usize,
    at: u32,
    line: &SourceLine<'_>,
) -> Result<(), AllocError>
    ensures { OnOk result
        (out.new.items ≡ out.old.items ++ named_row used at line.now.number line.now.text.now) }
{
    let line = NumberedLine {
        number: line.number as u64,
        text: line.text,
    };
    put_named_row(out, used, line, at)
}

// Ends the row that begins so with the word at an address.
fn put_end(
    out: &mut Vec<u8>,
    sight: Sight<'_, '_, '_>,
    front: &[u8],
    at: u32,
) -> Result<(), AllocError>
    ensures { OnOk result
        (Appends (IsEnd sight.entry.read.now.image (length front.now) at
        (numbered_at sight.entry.lines.now at)) out.old.items out.new.items) }
{
    match sight.lines.get(&at) {
        Some(line) => put_line_end(out, front.len(), at, line),
        None => put_word_end(out, front.len(), at, sight.read.image.word_at(at)),
    }
}

fn put_row(out: &mut Vec<u8>, sight: Sight<'_, '_, '_>, row: Row) -> Result<(), AllocError>
    requires { AreLines sight.read.now sight.lines.now }
    ensures { OnOk result
        (Appends (IsRowText sight.entry.read.now sight.entry.read.now.image row) out.old.items
        out.new.items) }
{
    let front = front_of(*out.allocator(), row)?;
    put(out, &front)?;
    put_end(out, sight, &front, row.at)
}

fn put_rows(out: &mut Vec<u8>, sight: Sight<'_, '_, '_>, rows: &[Row]) -> Result<(), AllocError>
    requires { AreLines sight.read.now sight.lines.now }
    ensures { OnOk result
        (Appends (AreRowTexts sight.entry.read.now sight.entry.read.now.image rows.now) out.old.items
        out.new.items) }
{
    for row in rows {
        put_row(out, sight, *row)?;
    }
    Ok(())
}

/// Adds the rows, each with its word and the line of that in the source, cut at column 80. `AllocError`: an
/// allocation failed.
pub(crate) fn put_row_texts(
    out: &mut Vec<u8>,
    read: &Source<'_>,
    rows: &[Row],
) -> Result<(), AllocError>
    ensures { OnOk result
        (Appends (AreRowTexts read.now read.now.image rows.now) out.old.items out.new.items) }
{
    let lines = read.lines(*out.allocator())?;
    let sight = Sight {
        read,
        lines: &lines,
    };
    put_rows(out, sight, rows)
}
