//! What is printed of where a run and a greatest walk differ.

ghost use Rattle.std.specs.Prelude.{◌≡◌, ◌++◌, ℕ, IfOk, List, OnOk, flat_map, length, option_map};
ghost use Rattle.asm_text.specs.Appended.{Appends};
ghost use Rattle.kept_runs.specs.Passing.{IsTally, Pass};
ghost use Rattle.longest_walk.specs.Folded.{unfolded};
ghost use Rattle.sources.specs.Source.{IsSource};
ghost use Rattle.text_rows.specs.Rows.{AreRows, section};
ghost use Rattle.text_rows.specs.WordLines.{numbered_at};
ghost use Rattle.text_savings.specs.Sections.{line_row};
ghost use Rattle.follow_reports.specs.Differences.{capped_at, less, more};
ghost use Rattle.follow_reports.specs.DifferenceText.{IsDifferenceRow, IsEnd, IsTable, cause_name, cause_row};
ghost use Rattle.follow_reports.specs.DifferenceText.{compared_text, heading_of, is_same, lines_in};
ghost use Rattle.follow_reports.specs.DifferenceText.{numbers_text, sum_of, sum_row, sum_row_if, sum_rows};
ghost use Rattle.follow_reports.specs.DifferenceText.{sums_heading};
ghost use Rattle.sources.specs.File.{File};

use crate::differences::{Cause, Compared, Difference, Numbers, differences};
use kept_runs::Passed;
use longest_walk::FoldedWalk;
use loop_bounds::Handler;
use sources::{Source, SourceText};
use std::alloc::{AllocError, Global};
use std::collections::BTreeMap;
use text_rows::{
    NumberedLine, SourceLine, put, put_address_row, put_named_row, put_number, put_shown_row,
    section,
};
use walk_counts::capped_sum;

const HEADING: &[u8] = b"              run            bound
  passes    ticks  passes    ticks   address  line  text
";

const IMAGE_HEADING: &[u8] = b"              run            bound
  passes    ticks  passes    ticks   address      word  text
";

const SUMS_HEADING: &[u8] = b"    less     more  ticks of the run, by\n";

// In the order of their rows.
const CAUSES: [Cause; 5] = [
    Cause::OtherWay,
    Cause::Multiply,
    Cause::Access,
    Cause::Fetches,
    Cause::Leaving,
];

fn put_numbers(out: &mut Vec<u8>, numbers: Numbers) -> Result<(), AllocError>
    ensures { OnOk result (out.new.items ≡ out.old.items ++ numbers_text numbers) }
{
    put(out, b" ")?;
    put_number(out, numbers.passes, 7)?;
    put(out, b" ")?;
    put_number(out, numbers.ticks, 8)
}

fn put_compared(out: &mut Vec<u8>, compared: Compared) -> Result<(), AllocError>
    ensures { OnOk result (out.new.items ≡ out.old.items ++ compared_text compared) }
{
    put_numbers(out, compared.run)?;
    put_numbers(out, compared.bound)
}

// Adds an address, and the number and the text of its line, if it has one, to a row that has so many columns.
fn put_line(
    out: &mut Vec<u8>,
    used: usize,
    lines: &BTreeMap<u32, SourceLine<'_>>,
    at: u32,
) -> Result<(), AllocError>
    ensures { OnOk result (out.new.items ≡ out.old.items ++ line_row used at (numbered_at lines.now at)) }
{
    match lines.get(&at) {
        Some(line) => {
            let numbered = NumberedLine {
                number: line.number as u64,
                text: line.text,
            };
            put_named_row(out, used, numbered, at)
        }
        None => put_address_row(out, at),
    }
}

// Adds what follows the numbers, which take so many columns: by the lines of a text, or by an image's words.
fn put_end(
    out: &mut Vec<u8>,
    used: usize,
    lines: Option<&BTreeMap<u32, SourceLine<'_>>>,
    difference: &Difference,
) -> Result<(), AllocError>
    ensures { OnOk result
        (Appends (IsEnd (option_map (λ l. numbered_at l.now) lines.entry) used difference.now) out.old.items
        out.new.items) }
{
    match lines {
        Some(lines) => put_line(out, used, lines, difference.at),
        None => put_shown_row(out, used, difference.at, difference.word),
    }
}

fn put_row(
    out: &mut Vec<u8>,
    lines: Option<&BTreeMap<u32, SourceLine<'_>>>,
    difference: &Difference,
) -> Result<(), AllocError>
    ensures { OnOk result
        (Appends (IsDifferenceRow (option_map (λ l. numbered_at l.now) lines.entry) difference.now)
        out.old.items out.new.items) }
{
    let begun = out.len();
    put_compared(out, difference.compared)?;
    put_end(out, out.len() - begun, lines, difference)
}

fn rows_by(
    alloc: Global,
    lines: Option<&BTreeMap<u32, SourceLine<'_>>>,
    list: &[Difference],
) -> Result<Vec<u8>, AllocError>
    ensures { IfOk result
        (λ rows. AreRows (IsDifferenceRow (option_map (λ l. numbered_at l.now) lines.entry)) list.now
        rows.items) }
{
    let mut out = Vec::new(alloc);
    for difference in list {
        put_row(&mut out, lines, difference)?;
    }
    Ok(out)
}

// The rows by the lines of a text, or by the words of an image.
fn rows_of(alloc: Global, read: &Source<'_>, list: &[Difference]) -> Result<Vec<u8>, AllocError>
    ensures { IfOk result
        (λ rows. AreRows (IsDifferenceRow (lines_in read.now read.now.text)) list.now rows.items) }
{
    match &read.text {
        SourceText::Lines(_, _) => {
            let lines = read.lines(alloc)?;
            rows_by(alloc, Some(&lines), list)
        }
        SourceText::Image => rows_by(alloc, None, list),
    }
}

fn cause_name(cause: Cause) -> &'static [u8]
    ensures { result.now ≡ cause_name cause }
{
    match cause {
        Cause::OtherWay => b"another way, or other turns",
        Cause::Multiply => b"multiplies",
        Cause::Access => b"devices and other classes",
        Cause::Fetches => b"quads and ROM",
        Cause::Leaving => b"the way out",
    }
}

fn is_same(one: Cause, other: Cause) -> bool
    ensures { result ≡ is_same one other }
{
    match (one, other) {
        (Cause::OtherWay, Cause::OtherWay)
        | (Cause::Multiply, Cause::Multiply)
        | (Cause::Access, Cause::Access)
        | (Cause::Fetches, Cause::Fetches)
        | (Cause::Leaving, Cause::Leaving) => true,
        _ => false,
    }
}

// By how many ticks the run takes less where the cause is this.
fn less_of(cause: Cause, list: &[Difference]) -> u64
    ensures { result ≡ sum_of less cause list.now }
{
    let mut ticks = 0;
    for difference in list {
        if is_same(difference.cause, cause) {
            ticks = capped_sum(ticks, difference.less());
        }
    }
    ticks
}

// By how many it takes more.
fn more_of(cause: Cause, list: &[Difference]) -> u64
    ensures { result ≡ sum_of more cause list.now }
{
    let mut ticks = 0;
    for difference in list {
        if is_same(difference.cause, cause) {
            ticks = capped_sum(ticks, difference.more());
        }
    }
    ticks
}

fn put_sums(out: &mut Vec<u8>, less: u64, more: u64, cause: Cause) -> Result<(), AllocError>
    ensures { OnOk result (out.new.items ≡ out.old.items ++ sum_row less more cause) }
{
    put_number(out, less, 8)?;
    put(out, b" ")?;
    put_number(out, more, 8)?;
    put(out, b"  ")?;
    put(out, cause_name(cause))?;
    put(out, b"\n")
}

// Adds the row of a cause, if there is a difference in ticks.
fn put_cause(out: &mut Vec<u8>, list: &[Difference], cause: Cause) -> Result<(), AllocError>
    ensures { OnOk result (out.new.items ≡ out.old.items ++ cause_row list.now cause) }
{
    let less = less_of(cause, list);
    let more = more_of(cause, list);
    if less == 0 && more == 0 {
        return Ok(());
    }
    put_sums(out, less, more, cause)
}

// Adds the rows of the causes.
fn put_causes(out: &mut Vec<u8>, list: &[Difference], causes: &[Cause]) -> Result<(), AllocError>
    ensures { OnOk result (out.new.items ≡ out.old.items ++ flat_map (cause_row list.now) causes.now) }
{
    for cause in causes {
        put_cause(out, list, *cause)?;
    }
    Ok(())
}

// The rows of all causes.
fn sum_rows(alloc: Global, list: &[Difference]) -> Result<Vec<u8>, AllocError>
    ensures { IfOk result (λ rows. rows.items ≡ sum_rows list.now) }
{
    let mut out = Vec::new(alloc);
    put_causes(&mut out, list, &CAUSES)?;
    Ok(out)
}

fn heading_of(text: &SourceText<'_>) -> &'static [u8]
    ensures { result.now ≡ heading_of text.now }
{
    match text {
        SourceText::Lines(_, _) => HEADING,
        SourceText::Image => IMAGE_HEADING,
    }
}

// The rows under their heading, and their sums under theirs.
fn joined(
    alloc: Global,
    text: &SourceText<'_>,
    rows: &[u8],
    sums: &[u8],
) -> Result<Vec<u8>, AllocError>
    ensures { IfOk result
        (λ table. table.items ≡ section (heading_of text.now) rows.now ++ section sums_heading sums.now) }
{
    let mut table = section(alloc, heading_of(text), rows)?;
    let below = section(alloc, SUMS_HEADING, sums)?;
    table.extend_from_slice(&below)?;
    Ok(table)
}

/// A table of where a run and a walk of the handler's graph differ: of each word of a source's lines, or
/// of an image, where one passes more often or takes other ticks than the other, a row with how often the
/// run passes it and its ticks there, and those of the walk, the greatest difference first; and below them
/// by how many ticks the run takes less, and more, for each cause. `by_place` says what the run does at
/// each place of the graph, in their order. No text where the two nowhere differ. `AllocError`: an
/// allocation failed.
pub(crate) fn difference_table(
    alloc: Global,
    read: &Source<'_>,
    handler: &Handler<'_>,
    by_place: &[Passed],
    walk: &FoldedWalk,
) -> Result<Vec<u8>, AllocError>
    requires image { handler.now.image.now ≡ read.now.image }
    requires places { length by_place.now ≡ length handler.now.graph.places }
    ensures { (source : File) (passes : List Pass) → IsSource source read.now
        → IsTally handler.now.graph passes by_place.now
        → IfOk result
        (λ text. IsTable source read.now.image handler.now.statement handler.now.graph
        (capped_at handler.now.graph passes (unfolded walk.now)) text.items) }
{
    let list = differences(alloc, handler, by_place, walk)?;
    let rows = rows_of(alloc, read, &list)?;
    let sums = sum_rows(alloc, &list)?;
    joined(alloc, &read.text, &rows, &sums)
}
