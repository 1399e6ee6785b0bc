//! What a page says of words besides the figures of their rows.

ghost use Rattle.std.specs.Prelude.{◌≡◌, ◌==◌, ◌||◌, ℕ, IfOk, OnOk};
ghost use Rattle.std.specs.BTreeMap.{get};
ghost use Rattle.std.specs.BTreeSet.{contains};
ghost use Rattle.std.specs.Ordering.{nat_cmp};
ghost use Rattle.sources.specs.Lines.{AreLines};
ghost use Rattle.sources.specs.declared.read.Source.{Source};
ghost use Rattle.text_rows.specs.WordLines.{numbered_at};
ghost use Rattle.text_page.specs.Noted.{IsLink, IsLinkOf, bound_at, branch_row, has_row, label_of};
ghost use Rattle.text_page.specs.Noted.{noted, row_at};
ghost use Rattle.text_page.specs.Noting.{noted_in};

use arm2_effect::branch_target;
use control_flow::{Kind, action_of};
use image::Image;
use loop_bounds::Handler;
use statement::{Loop, Statement};
use std::alloc::{AllocError, Global};
use std::collections::{BTreeMap, BTreeSet};
use text_explained::TableRow;
use text_rows::SourceLine;

/// What is said of words: the image and the statement on it, and by addresses the lines of the source, the
/// bounds of the loops with headers there, and where the page has rows.
#[derive(Drop)]
pub(crate) struct Notes<'a, 's> {
    pub(crate) image: &'a Image,
    pub(crate) statement: &'a Statement,
    pub(crate) lines: &'a BTreeMap<u32, SourceLine<'s>>,
    pub(crate) bounds: BTreeMap<u32, u32>,
    pub(crate) rows: BTreeSet<u32>,
}

// The bounds of loops by their headers; where two have one, that of the later.
fn bounds_of(alloc: Global, loops: &[Loop]) -> Result<BTreeMap<u32, u32>, AllocError>
    ensures { IfOk result (λ bounds. (at : ℕ) → get nat_cmp bounds at ≡ bound_at loops.now at) }
{
    let mut bounds = BTreeMap::new(alloc);
    for stated in loops {
        bounds.insert(stated.header, stated.bound)?;
    }
    Ok(bounds)
}

// Adds an address.
fn note_address(found: &mut BTreeSet<u32>, at: u32) -> Result<(), AllocError>
    ensures { OnOk result
        ((a : ℕ) → contains nat_cmp found.new a ≡ (contains nat_cmp found.old a || a == at)) }
{
    found.insert(at)?;
    Ok(())
}

// The addresses of rows.
fn addresses_of(alloc: Global, rows: &[TableRow<'_>]) -> Result<BTreeSet<u32>, AllocError>
    ensures { IfOk result (λ found. (at : ℕ) → contains nat_cmp found at ≡ has_row rows.now at) }
{
    let mut found = BTreeSet::new(alloc);
    for row in rows {
        note_address(&mut found, row.at)?;
    }
    Ok(found)
}

// An address that has a row.
fn row_at(rows: &BTreeSet<u32>, at: u32) -> Option<u32>
    ensures { result ≡ row_at (contains nat_cmp rows.now) at }
{
    if rows.contains(&at) { Some(at) } else { None }
}

// To which row a word of a kind leads.
fn branch_row(rows: &BTreeSet<u32>, at: u32, kind: Kind) -> Option<u32>
    ensures { result ≡ branch_row (contains nat_cmp rows.now) at kind }
{
    match kind {
        Kind::Branch(offset) | Kind::Call(offset) => row_at(rows, branch_target(at, offset)),
        Kind::Plain | Kind::Writer | Kind::Trap | Kind::Unallocated => None,
    }
}

// To which row a word leads.
fn link_of(rows: &BTreeSet<u32>, at: u32, word: Option<u32>) -> Option<u32>
    ensures { IsLinkOf (contains nat_cmp rows.now) at word result }
{
    match word {
        Some(word) => branch_row(rows, at, action_of(word).kind),
        None => None,
    }
}

// The label of the word at an address, empty where it has none.
fn label_at<'a>(lines: &BTreeMap<u32, SourceLine<'a>>, at: u32) -> &'a [u8]
    ensures { result.now ≡ label_of (numbered_at lines.now at) }
{
    match lines.get(&at) {
        Some(line) => line.label,
        None => b"",
    }
}

impl<'a, 's> Notes<'a, 's> {
    /// Those on a handler, for a page with these rows, by the lines of its source. `AllocError`: an
    /// allocation failed.
    pub(crate) fn new(
        alloc: Global,
        handler: &'a Handler<'_>,
        lines: &'a BTreeMap<u32, SourceLine<'s>>,
        rows: &[TableRow<'_>],
    ) -> Result<Notes<'a, 's>, AllocError>
        ensures { IfOk result
            (λ notes. (source : Source) → AreLines source lines.now
            → noted_in notes ≡ noted source handler.now.image.now handler.now.statement rows.now) }
    {
        Ok(Notes {
            image: handler.image,
            statement: &handler.statement,
            lines,
            bounds: bounds_of(alloc, handler.statement.loops().list())?,
            rows: addresses_of(alloc, rows)?,
        })
    }

    /// The label of the word at an address, empty where it has none.
    pub(crate) fn label_at(&self, at: u32) -> &'s [u8]
        ensures { result.now ≡ (noted_in self.now).label at }
    {
        label_at(self.lines, at)
    }

    /// The row to which the word at an address leads, if it is a branch to a row of the page.
    pub(crate) fn link_at(&self, at: u32) -> Option<u32>
        ensures { IsLink (noted_in self.now) at result }
    {
        link_of(&self.rows, at, self.image.word_at(at))
    }
}
