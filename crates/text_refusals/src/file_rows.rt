//! The rows of a machine file, of a cycle profile or of a file of facts that is refused.

ghost use Rattle.std.specs.Prelude.{◌≡◌, ◌++◌, ◌∷◌, [], IfOk, OnOk, map, option_map};
ghost use Rattle.text_refusals.specs.FileCourses.{at_front};
ghost use Rattle.text_refusals.specs.FileRows.{absent_spots, each_row, file_rows, first_row, has_in};
ghost use Rattle.text_refusals.specs.FileRows.{item_rows};
ghost use Rattle.text_refusals.specs.FileRows.{kind_of, rows, said_of, said_value, spot_of, table_spots};
ghost use Rattle.text_refusals.specs.FileRows.{absent_row, absent_words, said_table, table_words};
ghost use Rattle.text_refusals.specs.FileRows.{value_spots, value_words};
ghost use Rattle.text_refusals.specs.Outline.{item_of, items_of, key_value_of, table_keys_of, table_of};
ghost use Rattle.text_refusals.specs.Refused.{Adds, row_if, shown};

use crate::asked_file::{AskedFile, FileKind, FileSpot};
use crate::file_course::FileCourse;
use crate::outline::{KeyValue, OutlineItem, OutlineTable, TableKeys, items_of};
use crate::report::{Report, put_name, value_text};
use crate::word_rows::MOST_LINES;
use crate::{given_spots, machine_spots, profile_spots};
use std::alloc::{AllocError, Global};

// ## Spots

// Each key that a file may lack.
fn absent_spots<'a>(alloc: Global, kind: FileKind) -> Result<Vec<FileSpot<'a>>, AllocError>
    ensures { IfOk result (λ spots. map spot_of spots.items ≡ absent_spots kind) }
{
    let mut spots = Vec::new(alloc);
    match kind {
        FileKind::Machine => machine_spots::put_absent_spots(&mut spots)?,
        FileKind::Profile => profile_spots::put_absent_spots(&mut spots)?,
        FileKind::Given => {}
    }
    Ok(spots)
}

// What a value shows.
fn value_spots<'a>(
    alloc: Global,
    kind: FileKind,
    course: &FileCourse,
    pair: &KeyValue<'a>,
) -> Result<Vec<FileSpot<'a>>, AllocError>
    ensures { IfOk result
        (λ spots. map spot_of spots.items ≡ value_spots kind course.now (key_value_of pair.now)) }
{
    let mut spots = Vec::new(alloc);
    match kind {
        FileKind::Machine => machine_spots::put_value_spots(&mut spots, course, pair)?,
        FileKind::Profile => profile_spots::put_value_spots(&mut spots, course, pair)?,
        FileKind::Given => given_spots::put_value_spots(&mut spots, course, pair)?,
    }
    Ok(spots)
}

// What a table shows.
fn table_spots<'a>(
    alloc: Global,
    kind: FileKind,
    course: &FileCourse,
    table: &OutlineTable<'a>,
) -> Result<Vec<FileSpot<'a>>, AllocError>
    ensures { IfOk result
        (λ spots. map spot_of spots.items ≡ table_spots kind course.now (table_of table.now)) }
{
    let mut spots = Vec::new(alloc);
    match kind {
        FileKind::Machine => machine_spots::put_table_spots(&mut spots, course, table)?,
        FileKind::Profile => profile_spots::put_table_spots(&mut spots, course, table)?,
        FileKind::Given => given_spots::put_table_spots(&mut spots, course, table)?,
    }
    Ok(spots)
}

// ## Words

fn put_absent_words(out: &mut Vec<u8>, spot: FileSpot<'_>) -> Result<(), AllocError>
    ensures { OnOk result (out.new.items ≡ out.old.items ++ absent_words (spot_of spot.entry)) }
{
    match spot {
        FileSpot::Machine(spot) => machine_spots::put_absent_words(out, spot),
        FileSpot::Profile(spot) => profile_spots::put_absent_words(out, spot),
        FileSpot::Given(_) => Ok(()),
    }
}

fn put_table_words(out: &mut Vec<u8>, spot: FileSpot<'_>) -> Result<(), AllocError>
    ensures { OnOk result (out.new.items ≡ out.old.items ++ table_words (spot_of spot.entry)) }
{
    match spot {
        FileSpot::Machine(spot) => machine_spots::put_table_words(out, spot),
        FileSpot::Profile(spot) => profile_spots::put_table_words(out, spot),
        FileSpot::Given(spot) => given_spots::put_table_words(out, spot),
    }
}

fn put_value_words(out: &mut Vec<u8>, spot: FileSpot<'_>) -> Result<(), AllocError>
    ensures { OnOk result (out.new.items ≡ out.old.items ++ value_words (spot_of spot.entry)) }
{
    match spot {
        FileSpot::Machine(_) => Ok(()),
        FileSpot::Profile(spot) => profile_spots::put_value_words(out, spot),
        FileSpot::Given(spot) => given_spots::put_value_words(out, spot),
    }
}

// What is said where the file lacks the spot's key.
fn absent_text(alloc: Global, spot: FileSpot<'_>) -> Result<Vec<u8>, AllocError>
    ensures { IfOk result (λ text. text.items ≡ (absent_row (spot_of spot.entry)).text) }
{
    let mut out = Vec::new(alloc);
    put_absent_words(&mut out, spot)?;
    Ok(out)
}

// What is said of a table that shows the spot.
fn table_text(
    alloc: Global,
    table: &OutlineTable<'_>,
    spot: FileSpot<'_>,
) -> Result<Vec<u8>, AllocError>
    ensures { IfOk result
        (λ text. text.items ≡ (said_table (table_of table.now) (spot_of spot.entry)).text) }
{
    let mut out = Vec::new(alloc);
    put_name(&mut out, table)?;
    put_table_words(&mut out, spot)?;
    Ok(out)
}

// What is said of a value that shows the spot.
fn said_text(alloc: Global, pair: &KeyValue<'_>, spot: FileSpot<'_>) -> Result<Vec<u8>, AllocError>
    ensures { IfOk result
        (λ text. text.items ≡ (said_value (key_value_of pair.now) (spot_of spot.entry)).text) }
{
    let mut out = value_text(alloc, pair)?;
    put_value_words(&mut out, spot)?;
    Ok(out)
}

// ## Rows

impl Report {
    // Adds what is said of a table that shows the spot, or of the whole where there is none.
    fn put_said(
        &mut self,
        table: Option<&OutlineTable<'_>>,
        spot: FileSpot<'_>,
    ) -> Result<(), AllocError>
        ensures { OnOk result
            (Adds (said_of (option_map (λ t. table_of t.now) table.entry) (spot_of spot.entry) ∷ [])
            self.old self.new) }
    {
        match table {
            Some(table) => {
                let text = table_text(self.alloc, table, spot)?;
                self.put_row(table.line, &text)
            }
            None => {
                let text = absent_text(self.alloc, spot)?;
                self.put_row(1, &text)
            }
        }
    }

    // The same, where the spot has the fault.
    fn put_if_said(
        &mut self,
        asked: &AskedFile<'_>,
        table: Option<&OutlineTable<'_>>,
        spot: FileSpot<'_>,
    ) -> Result<(), AllocError>
        ensures { OnOk result
            (Adds (row_if (has_in asked.now (spot_of spot.entry))
            (said_of (option_map (λ t. table_of t.now) table.entry) (spot_of spot.entry)))
            self.old self.new) }
    {
        if asked.has(spot) {
            return self.put_said(table, spot);
        }
        Ok(())
    }

    // The same of each of the spots.
    fn put_each(
        &mut self,
        asked: &AskedFile<'_>,
        table: Option<&OutlineTable<'_>>,
        spots: &[FileSpot<'_>],
    ) -> Result<(), AllocError>
        ensures { OnOk result
            (Adds (each_row (has_in asked.now) (said_of (option_map (λ t. table_of t.now) table.entry))
            (map spot_of spots.now)) self.old self.new) }
    {
        for spot in spots {
            self.put_if_said(asked, table, *spot)?;
        }
        Ok(())
    }

    // Adds what is said of a value that shows the spot.
    fn put_said_value(&mut self, pair: &KeyValue<'_>, spot: FileSpot<'_>) -> Result<(), AllocError>
        ensures { OnOk result
            (Adds (said_value (key_value_of pair.now) (spot_of spot.entry) ∷ []) self.old self.new) }
    {
        let text = said_text(self.alloc, pair, spot)?;
        self.put_row(pair.line, &text)
    }

    // The same by the first of the spots that has the fault.
    fn put_first(
        &mut self,
        asked: &AskedFile<'_>,
        pair: &KeyValue<'_>,
        spots: &[FileSpot<'_>],
    ) -> Result<(), AllocError>
        ensures { OnOk result
            (Adds (first_row (has_in asked.now) (said_value (key_value_of pair.now))
            (map spot_of spots.now)) self.old self.new) }
    {
        for spot in spots {
            if asked.has(*spot) {
                return self.put_said_value(pair, *spot);
            }
        }
        Ok(())
    }

    // Adds what is wrong with a table or a value.
    fn put_of_file_item(
        &mut self,
        asked: &AskedFile<'_>,
        course: &FileCourse,
        item: &OutlineItem<'_>,
    ) -> Result<(), AllocError>
        ensures { OnOk result
            (Adds (item_rows (has_in asked.now) (kind_of asked.now) course.now (item_of item.now))
            self.old self.new) }
    {
        match item {
            OutlineItem::Begins(table) => {
                let spots = table_spots(self.alloc, asked.kind(), course, table)?;
                self.put_each(asked, Some(table), &spots)
            }
            OutlineItem::States(pair) => {
                let spots = value_spots(self.alloc, asked.kind(), course, pair)?;
                self.put_first(asked, pair, &spots)
            }
            OutlineItem::Ends => Ok(()),
        }
    }

    // Adds what the file lacks.
    fn put_absent(&mut self, asked: &AskedFile<'_>) -> Result<(), AllocError>
        ensures { OnOk result
            (Adds (each_row (has_in asked.now) absent_row (absent_spots (kind_of asked.now)))
            self.old self.new) }
    {
        let spots = absent_spots(self.alloc, asked.kind())?;
        self.put_each(asked, None, &spots)
    }

    // Adds what is wrong with the tables and values.
    #[tactic(auto, unfolding(crate::specs::FileRows::rows))]
    fn put_file_rows(
        &mut self,
        asked: &AskedFile<'_>,
        items: &[OutlineItem<'_>],
    ) -> Result<(), AllocError>
        ensures { OnOk result
            (Adds (rows (has_in asked.now) (kind_of asked.now) at_front (map item_of items.now))
            self.old self.new) }
    {
        let mut course = FileCourse::new();
        for item in items {
            self.put_of_file_item(asked, &course, item)?;
            course = course.after(item);
        }
        Ok(())
    }
}

/// The rows of the text where the spots of its document are that have the fault.
///
/// # Errors
///
/// An allocation failed.
#[tactic(auto, using(crate::proofs::RefusedLemmas::adds_both, crate::proofs::RefusedLemmas::all_added))]
pub(crate) fn file_text(
    alloc: Global,
    asked: &AskedFile<'_>,
    keys: TableKeys,
    text: &[u8],
) -> Result<Vec<u8>, AllocError>
    ensures { IfOk result
        (λ out. out.items
        ≡ shown MOST_LINES (file_rows (has_in asked.now) (kind_of asked.now)
        (items_of (table_keys_of keys) text.now))) }
{
    let items = items_of(alloc, keys, text)?;
    let mut report = Report::new(alloc);
    report.put_absent(asked)?;
    report.put_file_rows(asked, &items)?;
    Ok(report.text)
}
