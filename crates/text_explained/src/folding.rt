//! Which rows of a table are folded into one.

ghost use Rattle.std.specs.Prelude.{◌≡◌, ◌<◌, ◌≤◌, [], drop, length, MatchOption, OnOk};
ghost use Rattle.asm_text.specs.Appended.{Appends};
ghost use Rattle.text_explained.specs.Folding.{AreShown, IsFirstShown, goes_with, is_one_kind, kind_of};
ghost use Rattle.text_explained.specs.Folding.{run_len, shown_run};

use crate::table_rows::TableRow;
use crate::walk_tally::Taken;
use std::alloc::AllocError;

/// Why rows are folded.
#[derive(Clone, Copy)]
pub(crate) enum FoldKind {
    /// The graph has a place there, but the walk passes none.
    OffPath,
    /// The graph has no place there.
    NeverReached,
}

/// Neighbouring rows in place of which one is printed.
#[derive(Clone, Copy)]
pub(crate) struct Fold<'a> {
    pub(crate) first: TableRow<'a>,
    pub(crate) last: TableRow<'a>,
    /// How many they are, with these two.
    pub(crate) count: usize,
}

/// The ticks of all rows, and the bound of which they are a part.
#[derive(Clone, Copy)]
pub(crate) struct Total {
    pub(crate) ticks: u64,
    pub(crate) bound: u64,
}

/// A line of the table.
#[derive(Clone, Copy)]
pub(crate) enum TableLine<'a> {
    /// The names of the columns.
    Names,
    Row(TableRow<'a>),
    Fold(Fold<'a>),
    Total(Total),
}

// Of which kind a row is, by what is taken there; None where the walk passes.
fn kind_of(taken: Option<Taken>) -> Option<FoldKind>
    ensures { result ≡ kind_of taken }
{
    match taken {
        None => Some(FoldKind::NeverReached),
        Some(taken) => {
            if taken.passes == 0 {
                Some(FoldKind::OffPath)
            } else {
                None
            }
        }
    }
}

fn is_one_kind(a: Option<FoldKind>, b: Option<FoldKind>) -> bool
    ensures { result ≡ is_one_kind a b }
{
    match (a, b) {
        (Some(FoldKind::OffPath), Some(FoldKind::OffPath)) => true,
        (Some(FoldKind::NeverReached), Some(FoldKind::NeverReached)) => true,
        _ => false,
    }
}

// Whether a row is folded with another, unless all are printed.
fn goes_with(all: bool, first: &TableRow<'_>, row: &TableRow<'_>) -> bool
    ensures { result ≡ goes_with all first.now row.now }
{
    if all {
        return false;
    }
    is_one_kind(kind_of(first.figures.taken), kind_of(row.figures.taken))
}

// How many of the rows after it are folded with a row.
fn run_len(all: bool, first: &TableRow<'_>, rows: &[TableRow<'_>]) -> usize
    ensures len { result ≡ run_len all first.now rows.now }
    ensures within { result ≤ length rows.now }
{
    rows.iter()
        .take_while(|row| goes_with(all, first, row))
        .count()
}

// What is shown of a row with these rows after it.
fn shown_run<'a>(first: &TableRow<'a>, run: &[TableRow<'a>]) -> TableLine<'a>
    ensures { result ≡ shown_run first.now run.now }
{
    match run.last() {
        None => TableLine::Row(*first),
        Some(last) => TableLine::Fold(Fold {
            first: *first,
            last: *last,
            count: run.len() + 1,
        }),
    }
}

// The first of what is shown of rows, and of how many rows it is. None where there are no rows.
fn first_run<'a>(all: bool, rows: &[TableRow<'a>]) -> Option<(TableLine<'a>, usize)>
    ensures { MatchOption result (rows.now ≡ [])
        (λ p. IsFirstShown all rows.now p.0 (drop p.1 rows.now) × (0 < p.1) × (p.1 ≤ length rows.now)) }
{
    match rows {
        [] => None,
        [first, after @ ..] => {
            let count = run_len(all, first, after);
            Some((shown_run(first, &after[..count]), count + 1))
        }
    }
}

/// Adds what is shown of rows: each by itself, or, unless all are printed, neighbours that the walk does not
/// pass, and such that it never can reach, as one. `AllocError`: an allocation failed.
pub(crate) fn put_shown<'a>(
    lines: &mut Vec<TableLine<'a>>,
    all: bool,
    rows: &[TableRow<'a>],
) -> Result<(), AllocError>
    ensures { OnOk result (Appends (AreShown all rows.now) lines.old.items lines.new.items) }
{
    let mut begun = 0;
    for _ in 0..rows.len() {
        let Some((line, count)) = first_run(all, &rows[begun..]) else {
            return Ok(());
        };
        lines.push(line)?;
        begun += count;
    }
    Ok(())
}
