ghost use Rattle.std.specs.Prelude.{◌≡◌, ◌++◌, [], IfOk, MatchOption, OnOk, slice_index_or};
ghost use Rattle.asm_text.specs.Source.{lines_of};
ghost use Rattle.text_refusals.specs.FaultyLines.{AreFaults, AreFaultyLines, IsAssembled, IsFaultOf};
ghost use Rattle.text_refusals.specs.FaultyLines.{keeps_label, label_left, left_after, line_left, without};
ghost use Rattle.text_rows.specs.Rows.{AreRows};
ghost use Rattle.text_refusals.specs.Texts.{IsFaultyRow, faulty_front, faulty_row, shows_text, text_at};

use crate::word_rows::MOST_LINES;
use asm_text::{TextFault, after_blanks, first_line, read_line};
use assembler::{AsmFault, LineFault, assemble};
use std::alloc::{AllocError, Global};
use text_rows::{first_word, put, put_cut_row, put_decimal};

/// A line that cannot be assembled.
#[derive(Clone, Copy)]
pub struct FaultyLine {
    /// Its number, from 1.
    pub number: usize,
    /// What is wrong with it.
    pub fault: LineFault,
}

// Whether the label of a line with the fault is not itself at fault.
fn keeps_label(fault: LineFault) -> bool
    ensures { result ≡ keeps_label fault }
{
    match fault {
        LineFault::LabelTwice => false,
        _ => true,
    }
}

// What stays of a line with the fault: its label.
fn label_left(alloc: Global, fault: LineFault, line: &[u8]) -> Result<&[u8], AllocError>
    ensures { IfOk result (λ text. text.now ≡ label_left fault line.now) }
{
    if !keeps_label(fault) {
        return Ok(b"");
    }
    let label = first_word(line);
    match read_line(alloc, label) {
        Ok(_) => Ok(label),
        Err(TextFault::Memory) => Err(AllocError),
        Err(_) => Ok(b""),
    }
}

// What stays of the line of the number.
fn line_left<'a>(
    alloc: Global,
    faulty: FaultyLine,
    number: usize,
    line: &'a [u8],
) -> Result<&'a [u8], AllocError>
    ensures { IfOk result (λ text. text.now ≡ line_left faulty number line.now) }
{
    if number == faulty.number {
        return label_left(alloc, faulty.fault, line);
    }
    Ok(line)
}

// The source with only the label of the faulty line.
#[tactic(auto, unfolding(crate::specs::FaultyLines::lines_left))]
fn without(alloc: Global, faulty: FaultyLine, source: &[u8]) -> Result<Vec<u8>, AllocError>
    ensures { IfOk result (λ text. text.items ≡ without faulty source.now) }
{
    let mut out = Vec::new(alloc);
    let mut rest = source;
    let mut number = 1;
    while let Some((line, after)) = first_line(rest) {
        put(&mut out, line_left(alloc, faulty, number, line)?)?;
        put(&mut out, b"\n")?;
        rest = after;
        number += 1;
    }
    Ok(out)
}

// Why the source cannot be assembled, and where; None where it can.
fn fault_of(alloc: Global, source: &[u8]) -> Result<Option<FaultyLine>, AllocError>
    ensures { IfOk result (λ found. MatchOption found (IsAssembled source.now) (IsFaultOf source.now)) }
{
    match assemble(alloc, source) {
        Ok(_) => Ok(None),
        Err(AsmFault::Memory) => Err(AllocError),
        Err(AsmFault::Line(fault, number)) => Ok(Some(FaultyLine { number, fault })),
    }
}

// How many faults are looked for after this one.
fn left_after(fault: LineFault, left: usize) -> usize
    ensures { result ≡ left_after fault left }
{
    match fault {
        LineFault::TooLong => 0,
        _ => left.saturating_sub(1),
    }
}

// The faults of a source in the order in which they are found.
fn faults_of(alloc: Global, source: &[u8]) -> Result<Vec<FaultyLine>, AllocError>
    ensures { IfOk result (λ found. AreFaults MOST_LINES source.now found.items) }
{
    let mut found = Vec::new(alloc);
    let mut text = Vec::from_slice(alloc, source)?;
    let mut left = MOST_LINES;
    while left > 0 {
        let Some(faulty) = fault_of(alloc, &text)? else {
            return Ok(found);
        };
        found.push(faulty)?;
        text = without(alloc, faulty, &text)?;
        left = left_after(faulty.fault, left);
    }
    Ok(found)
}

/// Why a source cannot be assembled: its faults, at most twenty, by their lines. The first that the assembler
/// answers is found first, and each further one once of the lines found before it only the labels are left:
/// their labels serve the other lines, and a line whose label is at fault too is named again. Nothing is
/// looked for after TooLong.
///
/// # Errors
///
/// An allocation failed.
pub fn faulty_lines(alloc: Global, source: &[u8]) -> Result<Vec<FaultyLine>, AllocError>
    ensures { IfOk result (λ lines. AreFaultyLines source.now lines.items) }
{
    let mut lines = faults_of(alloc, source)?;
    lines.sort_by_key(|line| line.number)?;
    Ok(lines)
}

// The line at an index; empty past the end.
fn line_at(source: &[u8], index: usize) -> &[u8]
    ensures { result.now ≡ slice_index_or (lines_of source.now) index [] }
{
    let mut rest = source;
    let mut left = index;
    while let Some((line, after)) = first_line(rest) {
        if left == 0 {
            return line;
        }
        rest = after;
        left -= 1;
    }
    b""
}

// The text of the line with a number, without the blanks in front.
fn text_at(source: &[u8], number: usize) -> &[u8]
    ensures { result.now ≡ text_at source.now number }
{
    after_blanks(line_at(source, number.saturating_sub(1)))
}

// Whether the text is shown, which is not where it may hold bytes that are none of a source's.
fn shows_text(fault: LineFault) -> bool
    ensures { result ≡ shows_text fault }
{
    match fault {
        LineFault::NotText => false,
        _ => true,
    }
}

// Adds the number of a faulty line, and what is wrong with it.
fn put_front(out: &mut Vec<u8>, line: &FaultyLine) -> Result<(), AllocError>
    ensures { OnOk result (out.new.items ≡ out.old.items ++ faulty_front line.now) }
{
    put(out, b"line ")?;
    put_decimal(out, line.number as u64)?;
    put(out, b": ")?;
    put(out, line.fault.name())
}

// Adds a line of text on a faulty line.
fn put_faulty(out: &mut Vec<u8>, source: &[u8], line: &FaultyLine) -> Result<(), AllocError>
    ensures { OnOk result (out.new.items ≡ out.old.items ++ faulty_row source.now line.now) }
{
    let begun = out.len();
    put_front(out, line)?;
    if !shows_text(line.fault) {
        return put(out, b"\n");
    }
    put(out, b": ")?;
    put_cut_row(out, out.len() - begun, text_at(source, line.number))
}

/// A line of text for each of the lines of the source, with its number, what is wrong with it, and its text,
/// cut where it would go past column 80.
///
/// # Errors
///
/// An allocation failed.
pub fn faulty_text(
    alloc: Global,
    source: &[u8],
    lines: &[FaultyLine],
) -> Result<Vec<u8>, AllocError>
    ensures { IfOk result (λ text. AreRows (IsFaultyRow source.now) lines.now text.items) }
{
    let mut out = Vec::new(alloc);
    for line in lines {
        put_faulty(&mut out, source, line)?;
    }
    Ok(out)
}
