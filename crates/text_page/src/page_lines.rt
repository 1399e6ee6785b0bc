//! The lines of a page: its rows, and where stretches that can be folded begin and end.

ghost use Rattle.std.specs.Prelude.{◌≡◌, ◌≤◌, ◌++◌, [], IfOk, OnOk, length, replicate};
ghost use Rattle.std.specs.List.{list_all, prefix_len};
ghost use Rattle.text_page.specs.Folding.{parts_in};
ghost use Rattle.text_page.specs.Folds.{begun, borders, fits, folded, holds, in_loop, kept_count};
ghost use Rattle.text_page.specs.Folds.{lines_from, opened, row_ticks, rows_ticks};
ghost use Rattle.text_page.specs.declared.page_lines.PageLine.TheVariants.{Ended};

use crate::folds::{Fold, Foldable};
use std::alloc::{AllocError, Global};
use text_explained::TableRow;
use walk_counts::capped_sum;

/// A line of a page.
#[derive(Clone, Copy)]
pub(crate) enum PageLine<'a> {
    /// A stretch begins, with the ticks of the rows that it hides.
    Begun(Fold, u64),
    Row(TableRow<'a>),
    /// The innermost stretch ends.
    Ended,
}

fn row_ticks(row: &TableRow<'_>) -> u64
    ensures { result ≡ row_ticks row.now }
{
    match row.figures.taken {
        Some(taken) => taken.ticks,
        None => 0,
    }
}

// How many of the open stretches hold an address, up to the first that does not.
fn kept_count(foldable: &Foldable, at: u32, nest: &[Fold]) -> usize
    ensures count { result ≡ kept_count (parts_in foldable.now) at nest.now }
    ensures within { result ≤ length nest.now }
{
    nest.iter()
        .take_while(|fold| foldable.holds(at, **fold))
        .count()
}

// Whether all open stretches reach as far as another.
fn fits(fold: Fold, nest: &[Fold]) -> bool
    ensures { result ≡ fits fold nest.now }
{
    nest.iter().all(|around| fold.last <= around.last)
}

// The ticks of rows.
fn rows_ticks(rows: &[TableRow<'_>]) -> u64
    ensures { result ≡ rows_ticks rows.now }
{
    let mut ticks = 0;
    for row in rows {
        ticks = capped_sum(ticks, row_ticks(row));
    }
    ticks
}

// Whether all open stretches hold a row.
fn all_hold(foldable: &Foldable, nest: &[Fold], row: &TableRow<'_>) -> bool
    ensures { result ≡ list_all (holds (parts_in foldable.now) row.now.at) nest.now }
{
    nest.iter().all(|fold| foldable.holds(row.at, *fold))
}

// How many rows all open stretches hold, up to the first that one does not.
fn held_count(foldable: &Foldable, nest: &[Fold], rows: &[TableRow<'_>]) -> usize
    ensures count { result
        ≡ prefix_len (λ r. list_all (holds (parts_in foldable.now) r.at) nest.now) rows.now }
    ensures within { result ≤ length rows.now }
{
    rows.iter()
        .take_while(|row| all_hold(foldable, nest, row))
        .count()
}

// The ticks of the rows that the innermost stretch hides, where it begins at the first.
fn fold_ticks(foldable: &Foldable, nest: &[Fold], rows: &[TableRow<'_>]) -> u64
    ensures { result ≡ rows_ticks (folded (parts_in foldable.now) nest.now rows.now) }
{
    match rows {
        [] => 0,
        [_, later @ ..] => rows_ticks(&rows[..held_count(foldable, nest, later) + 1]),
    }
}

// Ends so many stretches.
fn put_ends(lines: &mut Vec<PageLine<'_>>, count: usize) -> Result<(), AllocError>
    ensures { OnOk result (lines.new.items ≡ lines.old.items ++ replicate count Ended) }
{
    for _ in 0..count {
        lines.push(PageLine::Ended)?;
    }
    Ok(())
}

// Begins a stretch before rows, if there is one that is folded.
fn put_begun(
    lines: &mut Vec<PageLine<'_>>,
    nest: &mut Vec<Fold>,
    foldable: &Foldable,
    fold: Option<Fold>,
    rows: &[TableRow<'_>],
) -> Result<(), AllocError>
    ensures lines { OnOk result
        (lines.new.items ≡ lines.old.items ++ begun (parts_in foldable.now) nest.old.items fold rows.now) }
    ensures nest { OnOk result (nest.new.items ≡ opened nest.old.items fold) }
{
    let Some(fold) = fold else {
        return Ok(());
    };
    if fits(fold, nest) {
        nest.push(fold)?;
        lines.push(PageLine::Begun(fold, fold_ticks(foldable, nest, rows)))?;
    }
    Ok(())
}

// Ends the stretches that do not hold an address, and begins those that begin there, before rows.
fn put_borders(
    lines: &mut Vec<PageLine<'_>>,
    nest: &mut Vec<Fold>,
    foldable: &Foldable,
    at: u32,
    rows: &[TableRow<'_>],
) -> Result<(), AllocError>
    ensures lines { OnOk result
        (lines.new.items
        ≡ lines.old.items ++ borders (parts_in foldable.now) at nest.old.items rows.now) }
    ensures nest { OnOk result (nest.new.items ≡ in_loop (parts_in foldable.now) at nest.old.items) }
{
    let count = kept_count(foldable, at, nest);
    put_ends(lines, nest.len() - count)?;
    nest.truncate(count);
    put_begun(lines, nest, foldable, foldable.routine_at(at), rows)?;
    put_begun(lines, nest, foldable, foldable.loop_at(at), rows)
}

/// The lines of rows. `AllocError`: an allocation failed.
pub(crate) fn page_lines<'a>(
    alloc: Global,
    foldable: &Foldable,
    rows: &[TableRow<'a>],
) -> Result<Vec<PageLine<'a>>, AllocError>
    ensures { IfOk result (λ lines. lines.items ≡ lines_from (parts_in foldable.now) [] rows.now) }
{
    let mut lines = Vec::new(alloc);
    let mut nest = Vec::new(alloc);
    for number in 0..rows.len() {
        let row = rows[number];
        put_borders(&mut lines, &mut nest, foldable, row.at, &rows[number..])?;
        lines.push(PageLine::Row(row))?;
    }
    put_ends(&mut lines, nest.len())?;
    Ok(lines)
}
