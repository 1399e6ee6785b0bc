//! The table of a bound.

ghost use Rattle.std.specs.Prelude.{◌≡◌, IfOk};
ghost use Rattle.std.specs.BTreeMap.{get};
ghost use Rattle.std.specs.Ordering.{nat_cmp};
ghost use Rattle.longest_walk.specs.Folded.{unfolded};
ghost use Rattle.text_explained.specs.Costing.{figures_of, first_of};
ghost use Rattle.text_explained.specs.Dearest.{is_unfolded};
ghost use Rattle.text_explained.specs.Printed.{AreLines, IsTable, IsTableOf, has_lines};
ghost use Rattle.text_explained.specs.Table.{all_ticks, source_ticks, starts_of};

use crate::cost_columns::{Column, other_columns, put_bound};
use crate::cost_figures::{Costing, ticks_in};
use crate::counted_walk::CountedWalk;
use crate::dearest::keep_dearest;
use crate::folding::{TableLine, Total, put_shown};
use crate::image_rows::image_ticks;
use crate::printed_rows::{Layout, put_lines, widths_of};
use crate::starts::WorstStarts;
use crate::table_rows::{TableRow, source_rows};
use crate::walk_tally::WalkTally;
use assembler::PlacedLine;
use sources::{Source, SourceText};
use std::alloc::{AllocError, Global};
use walk_counts::capped_sum;

/// Which rows of a table are printed, and how.
#[derive(Clone, Copy)]
pub struct RowForm {
    /// Whether each row is printed: neighbours that the walk does not pass, and such that no walk ever
    /// reaches, are then not folded into one.
    pub all: bool,
    /// How many rows are printed, one by one: those with the most ticks, the dearest first, and of equals as
    /// they come; for `None` all, in the source's order.
    pub top: Option<u32>,
    /// The column past which a row is cut.
    pub width: u32,
}

// Whether no rows are folded.
fn is_unfolded(form: RowForm) -> bool
    ensures { result ≡ is_unfolded form }
{
    if form.all {
        return true;
    }
    form.top.is_some()
}

// The ticks of all lines.
fn source_ticks(tally: &WalkTally, placed: &[PlacedLine]) -> u64
    ensures { result ≡ source_ticks (get nat_cmp tally.now.by_address) placed.now }
{
    let mut ticks = 0;
    for line in placed {
        ticks = capped_sum(ticks, ticks_in(tally, line.at, line.words));
    }
    ticks
}

// The ticks of all rows.
fn all_ticks(alloc: Global, tally: &WalkTally, source: &Source<'_>) -> Result<u64, AllocError>
    ensures { IfOk result
        (λ ticks. ticks
        ≡ all_ticks (get nat_cmp tally.now.by_address) source.now.image source.now.text) }
{
    match &source.text {
        SourceText::Lines(_, placed) => Ok(source_ticks(tally, placed)),
        SourceText::Image => {
            let words = source.image.listed(alloc)?;
            Ok(image_ticks(tally, &words))
        }
    }
}

// Whether its rows are of lines, which have numbers.
fn has_lines(text: &SourceText<'_>) -> bool
    ensures { result ≡ has_lines text.now }
{
    match text {
        SourceText::Lines(_, _) => true,
        SourceText::Image => false,
    }
}

// The lines of a table: the names of the columns, what is shown of the rows, and the ticks of all rows.
fn table_lines<'a>(
    alloc: Global,
    all: bool,
    rows: &[TableRow<'a>],
    total: Total,
) -> Result<Vec<TableLine<'a>>, AllocError>
    ensures { IfOk result (λ lines. AreLines all rows.now total lines.items) }
{
    let mut lines = Vec::new(alloc);
    lines.push(TableLine::Names)?;
    put_shown(&mut lines, all, rows)?;
    lines.push(TableLine::Total(total))?;
    Ok(lines)
}

// The table, by what its lines are made of.
fn costed_table(
    alloc: Global,
    source: &Source<'_>,
    costing: &Costing<'_>,
    form: RowForm,
) -> Result<Vec<u8>, AllocError>
    ensures { IfOk result (λ text. IsTableOf (figures_of costing.now) form source.now text.items) }
{
    let total = Total {
        ticks: all_ticks(alloc, &costing.tally, source)?,
        bound: costing.bound,
    };
    let columns = other_columns(alloc, costing.has_first(), has_lines(&source.text))?;
    let mut rows = source_rows(alloc, costing, source)?;
    keep_dearest(&mut rows, form.top)?;
    let lines = table_lines(alloc, is_unfolded(form), &rows, total)?;
    let layout = Layout {
        widths: widths_of(alloc, &lines)?,
        columns: &columns,
        width: form.width as usize,
    };
    let mut out = Vec::new(alloc);
    put_lines(&mut out, &layout, &lines)?;
    put_bound(&mut out, costing.bound)?;
    Ok(out)
}

/// Where the ticks of a greatest walk go: a row for each line of the source that has words, with how often
/// the walk passes the line's word, the ticks of such a pass (from the least to the greatest, where they
/// differ; where the walk never passes, those that a pass may have by the graph), the ticks at its words,
/// what part of the bound those are, the tick by which its word begins for the first time at the latest, if
/// that is asked for and is another than the next, the tick by which it begins at the latest, what the price
/// of that word takes for granted, the word's address, the number of the line and its text; then the ticks
/// of all rows, and the bound in ticks and in microseconds. Of a line of several words that word is the
/// first that the walk passes, or, where it passes none, the first at which the graph has a place. Of an
/// image a row for each of its words, with its address and the line that
/// [`disassemble`](assembler::disassemble) shows.
///
/// Where no place of the graph is on a line, or at a word, the row says so in place of the numbers.
/// Neighbouring rows of which the walk passes none, and such where no place is, are one row that says how
/// many they are, and from which to which, unless each row is asked for; no ticks are at them. Where some
/// rows are asked for, these are those with the most ticks, and the ticks of all rows are still those of
/// all.
///
/// A column is as wide as its widest text. Of a line's text one blank stands for each run of blanks and tabs,
/// and it is cut where it would go past the last column: the source has all of it. A byte counts as a column.
///
/// The latest tick is the greatest of the starts of the places at the word's address. Ticks are counted from
/// the handler's beginning.
///
/// The price of a load or a store takes the class of what it transfers for granted, that of a multiply its
/// most cycles (m = 16, or as stated), and that of a way out of the handler the class of the addresses to
/// which it leaves, after `>`. Prices are by the words of the handler's image.
///
/// # Errors
///
/// An allocation failed.
pub fn cost_table(
    alloc: Global,
    source: &Source<'_>,
    walk: CountedWalk<'_, '_>,
    starts: WorstStarts<'_>,
    form: RowForm,
) -> Result<Vec<u8>, AllocError>
    ensures { IfOk result
        (λ text. IsTable source.now walk.entry.handler.now.image.now
        walk.entry.handler.now.statement walk.entry.handler.now.graph
        (unfolded walk.entry.longest.now.walk)
        (starts_of walk.entry.handler.now.graph.places starts.entry.latest.now
        (first_of starts.entry.first))
        walk.entry.longest.now.bound form text.items) }
{
    let costing = Costing::of_walk(alloc, walk, starts)?;
    costed_table(alloc, source, &costing, form)
}
