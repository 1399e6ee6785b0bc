ghost use Rattle.std.specs.Prelude.{◌≡◌, ◌++◌, ℕ, List, IfOk, OnOk};
ghost use Rattle.longest_walk.specs.Folded.{unfolded};
ghost use Rattle.sources.specs.Lines.{AreLines};
ghost use Rattle.asm_text.specs.Appended.{Appends};
ghost use Rattle.text_rows.specs.Rows.{AreRows};
ghost use Rattle.text_savings.specs.Sections.{AreSavingRows, IsImageEnd, IsLineEnd, IsSavingRow};
ghost use Rattle.text_savings.specs.Sections.{IsSavingsText, entry_text, front_text, line_row};
ghost use Rattle.text_savings.specs.Sections.{refinement_text, together_row, total_row};
ghost use Rattle.text_savings.specs.declared.saving.Subject.{Subject};
ghost use Rattle.text_rows.specs.WordLines.{numbered_at};

use crate::gains::{Operands, Refinement};
use crate::saving::{Saving, Subject, savings, together};
use sources::{Source, SourceText};
use statement::class_name;
use std::alloc::{AllocError, Global};
use std::collections::BTreeMap;
use text_explained::CountedWalk;
use text_rows::{
    NumberedLine, SourceLine, put, put_address_row, put_named_row, put_number, put_right,
    put_shown_row, section,
};

const HEADING: &[u8] = b"\nWhat would save most, in ticks at most (state only what is true):\n";

// Adds what the better entry says, and of what in place of what.
fn put_refinement(out: &mut Vec<u8>, refinement: Refinement) -> Result<(), AllocError>
    ensures { OnOk result (out.new.items ≡ out.old.items ++ refinement_text refinement) }
{
    match refinement {
        Refinement::Multiplier(Operands::Exchangeable) => put(out, b"m = 15 swap Rm,Rs?"),
        Refinement::Multiplier(Operands::Fixed) => put(out, b"m = 15"),
        Refinement::Addresses(change) => {
            put(out, class_name(change.better).as_bytes())?;
            put(out, b" for ")?;
            put(out, class_name(change.present).as_bytes())
        }
    }
}

fn entry_text(
    alloc: Global,
    subject: Subject,
    refinement: Refinement,
) -> Result<Vec<u8>, AllocError>
    ensures { IfOk result (λ text. text.items ≡ entry_text subject refinement) }
{
    let mut text = Vec::new(alloc);
    if let Subject::Leave = subject {
        put(&mut text, b"leave ")?;
    }
    put_refinement(&mut text, refinement)?;
    Ok(text)
}

// Adds the ticks, and what the entry would be.
fn put_front(out: &mut Vec<u8>, saving: &Saving) -> Result<(), AllocError>
    ensures { OnOk result (out.new.items ≡ out.old.items ++ front_text saving.now) }
{
    put_number(out, saving.ticks, 9)?;
    let text = entry_text(*out.allocator(), saving.subject, saving.refinement)?;
    put_right(out, &text, 19)
}

// Adds an address, and the number and the text of its line, if it has one, to a row that has so many columns.
fn put_line(
    out: &mut Vec<u8>,
    used: usize,
    lines: &BTreeMap<u32, SourceLine<'_>>,
    at: u32,
) -> Result<(), AllocError>
    ensures { OnOk result (out.new.items ≡ out.old.items ++ line_row used at (numbered_at lines.now at)) }
{
    match lines.get(&at) {
        Some(line) => {
            let numbered = NumberedLine {
                number: line.number as u64,
                text: line.text,
            };
            put_named_row(out, used, numbered, at)
        }
        None => put_address_row(out, at),
    }
}

// What follows the entry in the row of a saving.
trait RowEnds {
    // What it is for a subject in a row that has so many columns.
    ghost is_end: { Self → (used : ℕ) → Subject → List ℕ → Type 0 };

    // Adds it to such a row.
    fn put(&self, out: &mut Vec<u8>, used: usize, subject: Subject) -> Result<(), AllocError>
        ensures { OnOk result (Appends (is_end self.now used subject) out.old.items out.new.items) };
}

// By the lines of a text.
impl RowEnds for BTreeMap<u32, SourceLine<'_>> {
    ghost is_end = { λ lines. IsLineEnd (numbered_at lines) };

    fn put(&self, out: &mut Vec<u8>, used: usize, subject: Subject) -> Result<(), AllocError> {
        match subject {
            Subject::Word(at, _) => put_line(out, used, self, at),
            Subject::Leave => put(out, b"\n"),
        }
    }
}

// By the words of an image.
#[derive(Clone, Copy)]
struct ByWords;

impl RowEnds for ByWords {
    ghost is_end = { λ _. IsImageEnd };

    fn put(&self, out: &mut Vec<u8>, used: usize, subject: Subject) -> Result<(), AllocError> {
        match subject {
            Subject::Word(at, word) => put_shown_row(out, used, at, word),
            Subject::Leave => put(out, b"\n"),
        }
    }
}

fn put_row<E: RowEnds>(out: &mut Vec<u8>, ends: &E, saving: &Saving) -> Result<(), AllocError>
    ensures { OnOk result
        (Appends (IsSavingRow (E.is_end ends.now) saving.now) out.old.items out.new.items) }
{
    let begun = out.len();
    put_front(out, saving)?;
    ends.put(out, out.len() - begun, saving.subject)
}

fn rows_of<E: RowEnds>(alloc: Global, ends: &E, list: &[Saving]) -> Result<Vec<u8>, AllocError>
    ensures { IfOk result (λ rows. AreRows (IsSavingRow (E.is_end ends.now)) list.now rows.items) }
{
    let mut out = Vec::new(alloc);
    for saving in list {
        put_row(&mut out, ends, saving)?;
    }
    Ok(out)
}

// The rows by the lines of a text, or by the words of an image.
fn source_rows(
    alloc: Global,
    source: &Source<'_>,
    lines: &BTreeMap<u32, SourceLine<'_>>,
    list: &[Saving],
) -> Result<Vec<u8>, AllocError>
    ensures { AreLines source.now lines.now → IfOk result
        (λ rows. AreSavingRows source.now list.now rows.items) }
{
    match &source.text {
        SourceText::Lines(_, _) => rows_of(alloc, lines, list),
        SourceText::Image => rows_of(alloc, &ByWords, list),
    }
}

// Adds the row of what they save together.
fn put_together(out: &mut Vec<u8>, list: &[Saving]) -> Result<(), AllocError>
    ensures { OnOk result (out.new.items ≡ out.old.items ++ together_row list.now) }
{
    put_number(out, together(list), 9)?;
    put_right(out, b"together at most", 19)?;
    put(out, b"\n")
}

// Adds it where there are several.
fn put_total(out: &mut Vec<u8>, list: &[Saving]) -> Result<(), AllocError>
    ensures { OnOk result (out.new.items ≡ out.old.items ++ total_row list.now) }
{
    if list.len() <= 1 {
        return Ok(());
    }
    put_together(out, list)
}

/// What better entries of a statement would save by a greatest walk: under a heading a row for each of the
/// [`savings`], with the ticks, the better entry, and the address, the number and the text of its line,
/// or, of an image, the address, the word and the line that [`disassemble`](assembler::disassemble) shows.
/// A row ends at column 80. Below two rows or more stands what all of them save together at most. Nothing
/// where there are no savings. Words are those of the handler's image, and the lines those of the source by
/// the addresses of their words, as [`Source::lines`] makes them.
///
/// # Errors
///
/// An allocation failed.
pub fn savings_text(
    alloc: Global,
    source: &Source<'_>,
    lines: &BTreeMap<u32, SourceLine<'_>>,
    walk: CountedWalk<'_, '_>,
) -> Result<Vec<u8>, AllocError>
    ensures { AreLines source.now lines.now → IfOk result
        (λ text. IsSavingsText source.now walk.entry.handler.now.image.now
        walk.entry.handler.now.statement walk.entry.handler.now.graph
        (unfolded walk.entry.longest.now.walk) text.items) }
{
    let list = savings(alloc, walk)?;
    let mut rows = source_rows(alloc, source, lines, &list)?;
    put_total(&mut rows, &list)?;
    section(alloc, HEADING, &rows)
}
