//! The columns of the table of a bound, and what is said of ticks.

ghost use Rattle.std.specs.Prelude.{◌≡◌, ◌++◌, IfOk, OnOk, replicate, string_bytes};
ghost use Rattle.text_rows.specs.Columns.{in_columns};
ghost use Rattle.text_explained.specs.Columns.{bound_line, gap_text, if_asked, in_column, name_of};
ghost use Rattle.text_explained.specs.Columns.{other_columns, share_text, time_text, width_of};

use std::alloc::{AllocError, Global};
use text_rows::put;

/// A column of the table.
#[derive(Clone, Copy)]
pub(crate) enum Column {
    /// How often the walk passes.
    Passes,
    /// The ticks of a pass.
    Each,
    /// Those of all passes.
    Ticks,
    /// What part of the bound these are.
    Share,
    /// The tick by which a word begins for the first time, at the latest.
    First,
    /// The tick by which it begins at the latest.
    Latest,
    /// What the price takes for granted.
    PricedAs,
    /// The address of the word.
    Address,
    /// The number of a source's line.
    Line,
}

/// How wide each column is.
#[derive(Clone, Copy)]
pub(crate) struct Widths {
    pub(crate) passes: usize,
    pub(crate) each: usize,
    pub(crate) ticks: usize,
    pub(crate) share: usize,
    pub(crate) first: usize,
    pub(crate) latest: usize,
    pub(crate) priced_as: usize,
    pub(crate) address: usize,
    pub(crate) line: usize,
}

impl Column {
    /// The name of the column.
    pub(crate) fn name(self) -> &'static [u8]
        ensures { result.now ≡ name_of self }
    {
        match self {
            Column::Passes => b"passes",
            Column::Each => b"each",
            Column::Ticks => b"ticks",
            Column::Share => b"share",
            Column::First => b"first",
            Column::Latest => b"latest",
            Column::PricedAs => b"priced as",
            Column::Address => b"address",
            Column::Line => b"line",
        }
    }

    // What parts it from the column in front of it.
    fn gap(self) -> &'static [u8]
        ensures { result.now ≡ gap_text self }
    {
        match self {
            Column::Passes => b"",
            Column::Each
            | Column::Ticks
            | Column::Share
            | Column::First
            | Column::Latest
            | Column::PricedAs
            | Column::Address
            | Column::Line => b" ",
        }
    }
}

impl Widths {
    // That of a column.
    fn of(&self, column: Column) -> usize
        ensures { result ≡ width_of self.now column }
    {
        match column {
            Column::Passes => self.passes,
            Column::Each => self.each,
            Column::Ticks => self.ticks,
            Column::Share => self.share,
            Column::First => self.first,
            Column::Latest => self.latest,
            Column::PricedAs => self.priced_as,
            Column::Address => self.address,
            Column::Line => self.line,
        }
    }
}

// Adds a column, if it is asked for.
fn add_asked(columns: &mut Vec<Column>, asked: bool, column: Column) -> Result<(), AllocError>
    ensures { OnOk result (columns.new.items ≡ columns.old.items ++ if_asked asked column) }
{
    if !asked {
        return Ok(());
    }
    columns.push(column)?;
    Ok(())
}

/// The columns after those of what is taken: with first starts, if they are asked for, and of a source with
/// the numbers of its lines. `AllocError`: an allocation failed.
pub(crate) fn other_columns(
    alloc: Global,
    has_first: bool,
    has_lines: bool,
) -> Result<Vec<Column>, AllocError>
    ensures { IfOk result (λ columns. columns.items ≡ other_columns has_first has_lines) }
{
    let mut columns = Vec::new(alloc);
    add_asked(&mut columns, has_first, Column::First)?;
    columns.push(Column::Latest)?;
    columns.push(Column::PricedAs)?;
    columns.push(Column::Address)?;
    add_asked(&mut columns, has_lines, Column::Line)?;
    Ok(columns)
}

// Adds so many blanks.
fn put_blanks(out: &mut Vec<u8>, count: usize) -> Result<(), AllocError>
    ensures { OnOk result (out.new.items ≡ out.old.items ++ replicate count 32) }
{
    for _ in 0..count {
        out.push(b' ')?;
    }
    Ok(())
}

/// Adds a text that ends so many columns on; a longer one has no blank in front. `AllocError`: an allocation
/// failed.
pub(crate) fn put_ending(out: &mut Vec<u8>, text: &[u8], width: usize) -> Result<(), AllocError>
    ensures { OnOk result (out.new.items ≡ out.old.items ++ in_columns width text.now) }
{
    put_blanks(out, width.saturating_sub(text.len()))?;
    put(out, text)
}

/// Adds a text in a column. `AllocError`: an allocation failed.
pub(crate) fn put_in_column(
    out: &mut Vec<u8>,
    widths: &Widths,
    column: Column,
    text: &[u8],
) -> Result<(), AllocError>
    ensures { OnOk result (out.new.items ≡ out.old.items ++ in_column widths.now column text.now) }
{
    put(out, column.gap())?;
    put_ending(out, text, widths.of(column))
}

/// What part of the bound the ticks are, in per cent with one decimal, rounded down.
///
/// # Errors
///
/// An allocation failed.
pub fn share_text(alloc: Global, ticks: u64, bound: u64) -> Result<String, AllocError>
    ensures { IfOk result (λ text. string_bytes text ≡ share_text ticks bound) }
{
    let thousandths = u128::from(ticks) * 1000 / u128::from(bound.max(1));
    format!(in alloc; "{}.{}%", thousandths / 10, thousandths % 10)
}

// So many ticks of the 8 MHz processor, and in microseconds.
fn time_text(alloc: Global, ticks: u128) -> Result<String, AllocError>
    ensures { IfOk result (λ text. string_bytes text ≡ time_text ticks) }
{
    let rest = ticks % 8 * 125;
    format!(in alloc;
        "{ticks} ticks, {}.{}{}{} microseconds at 8 MHz\n",
        ticks / 8,
        rest / 100,
        rest / 10 % 10,
        rest % 10
    )
}

/// Adds so many ticks, and in microseconds at 8 MHz, up to the end of the line.
///
/// # Errors
///
/// An allocation failed.
pub fn put_time(out: &mut Vec<u8>, ticks: u128) -> Result<(), AllocError>
    ensures { OnOk result (out.new.items ≡ out.old.items ++ time_text ticks) }
{
    let time = time_text(*out.allocator(), ticks)?;
    put(out, time.as_bytes())
}

/// Adds a line that states the bound.
pub(crate) fn put_bound(out: &mut Vec<u8>, bound: u64) -> Result<(), AllocError>
    ensures { OnOk result (out.new.items ≡ out.old.items ++ bound_line bound) }
{
    put(out, b"bound ")?;
    put_time(out, u128::from(bound))
}
