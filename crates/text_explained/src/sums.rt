//! What a walk takes in all in the stated loops.

ghost use Rattle.std.specs.Prelude.{◌≡◌, ◌++◌, IfOk, OnOk};
ghost use Rattle.asm_text.specs.Appended.{Appends};
ghost use Rattle.longest_walk.specs.Folded.{unfolded};
ghost use Rattle.sources.specs.Lines.{AreLines};
ghost use Rattle.sources.specs.declared.read.Source.{Source};
ghost use Rattle.text_rows.specs.Addresses.{name_text};
ghost use Rattle.text_rows.specs.Rows.{AreRows};
ghost use Rattle.text_rows.specs.WordLines.{label_at};
ghost use Rattle.text_explained.specs.Sums.{AreLoopSums, loop_sum, sum_row};

use crate::cost_columns::{put_ending, share_text};
use crate::counted_walk::CountedWalk;
use crate::loop_table::LoopTable;
use crate::part_sums::{PartSum, PartSums};
use std::alloc::{AllocError, Global};
use std::collections::BTreeMap;
use text_rows::{SourceLine, put, put_labelled, put_number, section};

// Adds the label of an address in quotes, or its number.
fn put_name(
    out: &mut Vec<u8>,
    lines: &BTreeMap<u32, SourceLine<'_>>,
    at: u32,
) -> Result<(), AllocError>
    ensures { OnOk result (out.new.items ≡ out.old.items ++ name_text (label_at lines.now at) at) }
{
    match lines.get(&at) {
        Some(line) => put_labelled(out, line.label, at),
        None => put_labelled(out, b"", at),
    }
}

/// Adds the row of a part that is named by an address. `AllocError`: an allocation failed.
pub(crate) fn put_sum(
    out: &mut Vec<u8>,
    lines: &BTreeMap<u32, SourceLine<'_>>,
    bound: u64,
    at: u32,
    sum: PartSum,
) -> Result<(), AllocError>
    ensures { OnOk result (out.new.items ≡ out.old.items ++ sum_row lines.now bound at sum) }
{
    put_number(out, sum.times, 8)?;
    put_number(out, sum.ticks, 10)?;
    let share = share_text(*out.allocator(), sum.ticks, bound)?;
    put_ending(out, share.as_bytes(), 8)?;
    put(out, b"  ")?;
    put_name(out, lines, at)?;
    put(out, b"\n")
}

// Adds the rows of loops.
fn put_loops(
    out: &mut Vec<u8>,
    lines: &BTreeMap<u32, SourceLine<'_>>,
    table: &LoopTable<'_>,
    walk: CountedWalk<'_, '_>,
) -> Result<(), AllocError>
    ensures { OnOk result
        (Appends (AreRows (λ l row. row ≡ sum_row lines.now walk.entry.longest.now.bound l.header
        (loop_sum table.now.apart.now walk.entry.handler.now.graph (unfolded walk.entry.longest.now.walk) l))
        table.now.loops.now) out.old.items out.new.items) }
{
    let sums = PartSums::of_walk(*out.allocator(), walk, table)?;
    let loops = table.loops();
    for number in 0..loops.len() {
        let stated = &loops[number];
        let sum = sums.of_part(number);
        put_sum(out, lines, walk.longest.bound, stated.header, sum)?;
    }
    Ok(())
}

/// What a greatest walk takes of each stated loop, in the order of the statement: its turns, which are how
/// often the walk goes back to its header, the ticks at its words and at those of the routines that it
/// calls, and what part of the bound these are, with the label of its header, or the address. The lines are
/// those of a source by the addresses of their words. No text where no loop is stated.
///
/// # Errors
///
/// An allocation failed.
pub fn loop_sums(
    alloc: Global,
    lines: &BTreeMap<u32, SourceLine<'_>>,
    walk: CountedWalk<'_, '_>,
) -> Result<Vec<u8>, AllocError>
    ensures { (source : Source) → AreLines source lines.now → IfOk result
        (λ text. AreLoopSums source walk.entry.handler.now.statement.loops walk.entry.handler.now.graph
        (unfolded walk.entry.longest.now.walk) walk.entry.longest.now.bound text.items) }
{
    let loops = walk.handler.statement.loops();
    let table = LoopTable::new(alloc, loops.apart(), loops.list())?;
    let mut rows = Vec::new(alloc);
    put_loops(&mut rows, lines, &table, walk)?;
    section(
        alloc,
        b"\nLoops, with what they call:\n   turns     ticks   share  header\n",
        &rows,
    )
}
