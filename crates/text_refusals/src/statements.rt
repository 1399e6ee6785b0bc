ghost use Rattle.std.specs.Prelude.{◌≡◌, [], IfOk, OnOk, codes, map, option_map};
ghost use Rattle.image.specs.Labels.{address_of};
ghost use Rattle.statement.specs.PlaceTests.{holds_of};
ghost use Rattle.statement.specs.Places.{IsFaultAt, named_key};
ghost use Rattle.text_refusals.specs.Courses.{at_front, key_head, named_list};
ghost use Rattle.text_refusals.specs.FaultyItems.{has_in, is_faulty, lent};
ghost use Rattle.text_refusals.specs.Outline.{item_of, items_of, key_value_of, table_of};
ghost use Rattle.text_refusals.specs.Refused.{Adds, IsRowsText, IsStatementText, all_rows, entry_rows};
ghost use Rattle.text_refusals.specs.Refused.{extra_destination_row, extra_row, first_after, rows_of_limits};
ghost use Rattle.text_refusals.specs.Refused.{extra_rows, header_rows, item_rows, limit_of, list_rows};
ghost use Rattle.text_refusals.specs.Refused.{long_rows, misplaced_rows, missing_row, missing_rows};
ghost use Rattle.text_refusals.specs.Refused.{no_list_rows, value_rows};
ghost use Rattle.text_refusals.specs.Refused.{no_table_rows, reversed_rows, rows, shown, stated_at};
ghost use Rattle.text_refusals.specs.Refused.{row_if, said_row, statement_tables, value_words};
ghost use Rattle.text_refusals.specs.Refused.{table_rows, tables_in, target_rows, unknown_rows};
ghost use Rattle.text_refusals.specs.Refused.{unwanted_rows, value_table_rows, whole_rows};

use crate::asked::Asked;
use crate::course::{Course, entry_list, is_at_key, key_head, named_list};
use crate::nearest::meant_text;
use crate::no_toml::no_toml_text;
use crate::outline::{KeyValue, OutlineItem, OutlineTable, TableKeys, items_of};
use crate::report::Report;
use crate::word_rows::MOST_LINES;
use image::Labels;
use statement::{
    Document, KEYS, Key, MOST_DESTINATIONS, Part, Spot, StatementFault, TableList, key_name,
    list_key, most_of, named_key,
};
use std::alloc::{AllocError, Global};
use toml_reading::document;

// The keys of a statement whose values are tables.
const STATEMENT_TABLES: TableKeys = TableKeys {
    lists: &["loop", "target", "access", "base", "multiply", "branch"],
    tables: &[],
};

const NO_ENTRY: &[u8] = b"the statement has no entry";

/// A table that is an entry of a list, with the list and its number, from 0.
#[derive(Clone, Copy)]
pub(crate) struct RefusedEntry<'a> {
    list: TableList,
    index: usize,
    table: &'a OutlineTable<'a>,
}

/// A list, and what is said of the first of its tables after those that a statement may have.
#[derive(Clone, Copy)]
pub(crate) struct Limit {
    list: TableList,
    words: &'static [u8],
}

const LOOPS: Limit = Limit {
    list: TableList::Loops,
    words: b" comes after the 256 loops that a statement may have",
};

const TARGETS: Limit = Limit {
    list: TableList::Targets,
    words: b" comes after the 1024 targets that a statement may have",
};

const ACCESSES: Limit = Limit {
    list: TableList::Accesses,
    words: b" comes after the 4096 accesses that a statement may have",
};

const RULES: Limit = Limit {
    list: TableList::Rules,
    words: b" comes after the 256 rules that a statement may have",
};

const MULTIPLIES: Limit = Limit {
    list: TableList::Multiplies,
    words: b" comes after the 1024 multiplies that a statement may have",
};

const BRANCHES: Limit = Limit {
    list: TableList::Branches,
    words: b" comes after the 1024 branches that a statement may have",
};

// In the order in which they are looked at.
const LIMITS: &[Limit] = &[LOOPS, TARGETS, ACCESSES, RULES, MULTIPLIES, BRANCHES];

// The first table of the list after so many.
#[tactic(auto, unfolding(crate::specs::Refused::tables_in))]
fn table_after<'a>(most: usize, list: &[u8], items: &[OutlineItem<'a>]) -> Option<OutlineTable<'a>>
    ensures { option_map table_of result
        ≡ first_after most (tables_in list.now (map item_of items.now)) }
{
    let mut left = most;
    for item in items {
        let OutlineItem::Begins(table) = item else {
            continue;
        };
        if table.name != list {
            continue;
        }
        if left == 0 {
            return Some(*table);
        }
        left -= 1;
    }
    None
}

// The first value at the key, in so many arrays, after so many and before the next table.
#[tactic(auto, unfolding(crate::specs::Refused::stated_at))]
fn value_after<'a>(
    most: usize,
    depth: u8,
    key: &[u8],
    items: &[OutlineItem<'a>],
) -> Option<KeyValue<'a>>
    ensures { option_map key_value_of result
        ≡ first_after most (stated_at depth key.now (map item_of items.now)) }
{
    let mut left = most;
    for item in items {
        let OutlineItem::States(pair) = item else {
            return None;
        };
        if !is_at_key(depth, key, pair) {
            continue;
        }
        if left == 0 {
            return Some(*pair);
        }
        left -= 1;
    }
    None
}

impl Report {
    // Adds that an entry of a list has no such key, where that is a fault.
    fn put_if_missing(
        &mut self,
        asked: &Asked<'_>,
        entry: &RefusedEntry<'_>,
        key: Key,
    ) -> Result<(), AllocError>
        ensures { OnOk result
            (Adds (missing_row (has_in asked.now) entry.now.list entry.now.index
            (table_of entry.now.table.now) key) self.old self.new) }
    {
        if asked.has(Spot::Listed(entry.list, entry.index, Part::Missing(key))) {
            return self.put_table(entry.table, b" has no ", key_name(key).as_bytes());
        }
        Ok(())
    }

    // Adds the keys that an entry of a list has to have and has not.
    fn put_missing(
        &mut self,
        asked: &Asked<'_>,
        entry: &RefusedEntry<'_>,
        keys: &[Key],
    ) -> Result<(), AllocError>
        ensures { OnOk result
            (Adds (missing_rows (has_in asked.now) entry.now.list entry.now.index
            (table_of entry.now.table.now) keys.now) self.old self.new) }
    {
        for key in keys {
            self.put_if_missing(asked, entry, *key)?;
        }
        Ok(())
    }

    // Adds the first destination after those that a target may have, if there is one.
    fn put_extra_destination(&mut self, rest: &[OutlineItem<'_>]) -> Result<(), AllocError>
        ensures { OnOk result
            (Adds (extra_destination_row (first_after MOST_DESTINATIONS
            (stated_at 1 (codes "to") (map item_of rest.now)))) self.old self.new) }
    {
        let Some(pair) = value_after(MOST_DESTINATIONS, 1, b"to", rest) else {
            return Ok(());
        };
        let words = b" comes after the 64 destinations that a target may have";
        self.put_value_with(&pair, words)
    }

    // Adds that a target has destinations and may have none.
    fn put_if_unwanted(
        &mut self,
        asked: &Asked<'_>,
        entry: &RefusedEntry<'_>,
    ) -> Result<(), AllocError>
        ensures { OnOk result
            (Adds (unwanted_rows (has_in asked.now) entry.now.index (table_of entry.now.table.now))
            self.old self.new) }
    {
        if asked.has(Spot::Unwanted(entry.index)) {
            return self.put_table(entry.table, b" may have no to", b"");
        }
        Ok(())
    }

    // Adds that a target has more destinations than it may have.
    fn put_if_too_long(
        &mut self,
        asked: &Asked<'_>,
        entry: &RefusedEntry<'_>,
        rest: &[OutlineItem<'_>],
    ) -> Result<(), AllocError>
        ensures { OnOk result
            (Adds (long_rows (has_in asked.now) entry.now.index (map item_of rest.now))
            self.old self.new) }
    {
        if asked.has(Spot::TooManyDestinations(entry.index)) {
            return self.put_extra_destination(rest);
        }
        Ok(())
    }

    // Adds what is wrong with a target, but for its keys.
    #[tactic(auto, using(crate::proofs::RefusedLemmas::adds_both))]
    fn put_of_target(
        &mut self,
        asked: &Asked<'_>,
        entry: &RefusedEntry<'_>,
        rest: &[OutlineItem<'_>],
    ) -> Result<(), AllocError>
        ensures { OnOk result
            (Adds (target_rows (has_in asked.now) entry.now.index (table_of entry.now.table.now)
            (map item_of rest.now)) self.old self.new) }
    {
        self.put_if_unwanted(asked, entry)?;
        self.put_if_too_long(asked, entry, rest)
    }

    // Adds that the header of a loop lies outside it.
    fn put_if_misplaced(
        &mut self,
        asked: &Asked<'_>,
        entry: &RefusedEntry<'_>,
    ) -> Result<(), AllocError>
        ensures { OnOk result
            (Adds (misplaced_rows (has_in asked.now) entry.now.index (table_of entry.now.table.now))
            self.old self.new) }
    {
        if asked.has(Spot::Misplaced(entry.index)) {
            let words = b" has its header outside first to last, or only one of these apart";
            return self.put_table(entry.table, words, b"");
        }
        Ok(())
    }

    // Adds that a rule for a base register ends before it begins.
    fn put_if_reversed(
        &mut self,
        asked: &Asked<'_>,
        entry: &RefusedEntry<'_>,
    ) -> Result<(), AllocError>
        ensures { OnOk result
            (Adds (reversed_rows (has_in asked.now) entry.now.index (table_of entry.now.table.now))
            self.old self.new) }
    {
        if asked.has(Spot::Reversed(entry.index)) {
            return self.put_table(entry.table, b" has its last before its first", b"");
        }
        Ok(())
    }

    // Adds what is wrong with an entry of a list, but for its keys.
    fn put_of_list(
        &mut self,
        asked: &Asked<'_>,
        entry: &RefusedEntry<'_>,
        rest: &[OutlineItem<'_>],
    ) -> Result<(), AllocError>
        ensures { OnOk result
            (Adds (list_rows (has_in asked.now) entry.now.list entry.now.index
            (table_of entry.now.table.now) (map item_of rest.now)) self.old self.new) }
    {
        match entry.list {
            TableList::Loops => self.put_if_misplaced(asked, entry),
            TableList::Targets => self.put_of_target(asked, entry, rest),
            TableList::Rules => self.put_if_reversed(asked, entry),
            TableList::Accesses | TableList::Multiplies | TableList::Branches => Ok(()),
        }
    }

    // Adds what is wrong with an entry of a list.
    #[tactic(auto, using(crate::proofs::RefusedLemmas::adds_both))]
    fn put_of_entry(
        &mut self,
        asked: &Asked<'_>,
        entry: &RefusedEntry<'_>,
        rest: &[OutlineItem<'_>],
    ) -> Result<(), AllocError>
        ensures { OnOk result
            (Adds (entry_rows (has_in asked.now) entry.now.list entry.now.index
            (table_of entry.now.table.now) (map item_of rest.now)) self.old self.new) }
    {
        self.put_missing(asked, entry, KEYS)?;
        self.put_of_list(asked, entry, rest)
    }

    fn put_if_unknown(
        &mut self,
        asked: &Asked<'_>,
        table: &OutlineTable<'_>,
    ) -> Result<(), AllocError>
        ensures { OnOk result
            (Adds (unknown_rows (has_in asked.now) (table_of table.now)) self.old self.new) }
    {
        if has_unknown(asked, table) {
            let meant = meant_text(self.alloc, STATEMENT_TABLES.lists, key_head(table.name))?;
            return self.put_table(table, b" is no list of statements", &meant);
        }
        Ok(())
    }

    fn put_if_no_table(
        &mut self,
        asked: &Asked<'_>,
        table: &OutlineTable<'_>,
    ) -> Result<(), AllocError>
        ensures { OnOk result
            (Adds (no_table_rows (has_in asked.now) (table_of table.now)) self.old self.new) }
    {
        if has_key(asked, table) {
            return self.put_table(table, b" may be no table", b"");
        }
        Ok(())
    }

    fn put_if_no_list(
        &mut self,
        asked: &Asked<'_>,
        table: &OutlineTable<'_>,
    ) -> Result<(), AllocError>
        ensures { OnOk result
            (Adds (no_list_rows (has_in asked.now) (table_of table.now)) self.old self.new) }
    {
        if has_list(asked, table) {
            return self.put_table(table, b" has to be in double brackets", b"");
        }
        Ok(())
    }

    // Adds that a table stands for a value that is none.
    #[tactic(auto, using(crate::proofs::RefusedLemmas::adds_both))]
    fn put_if_table(
        &mut self,
        asked: &Asked<'_>,
        table: &OutlineTable<'_>,
    ) -> Result<(), AllocError>
        ensures { OnOk result
            (Adds (value_table_rows (has_in asked.now) (table_of table.now)) self.old self.new) }
    {
        self.put_if_no_table(asked, table)?;
        self.put_if_no_list(asked, table)
    }

    // Adds what is wrong with a table that is no entry of a list.
    #[tactic(auto, using(crate::proofs::RefusedLemmas::adds_both))]
    fn put_of_header(
        &mut self,
        asked: &Asked<'_>,
        course: &Course,
        table: &OutlineTable<'_>,
    ) -> Result<(), AllocError>
        ensures { OnOk result
            (Adds (header_rows (has_in asked.now) course.now (table_of table.now)) self.old self.new) }
    {
        self.put_if_unknown(asked, table)?;
        self.put_if_table(asked, table)?;
        self.put_stretch_header(asked, course, table)
    }

    // Adds what is wrong with a table.
    fn put_of_table(
        &mut self,
        asked: &Asked<'_>,
        course: &Course,
        table: &OutlineTable<'_>,
        rest: &[OutlineItem<'_>],
    ) -> Result<(), AllocError>
        ensures { OnOk result
            (Adds (table_rows (has_in asked.now) course.now (table_of table.now) (map item_of rest.now))
            self.old self.new) }
    {
        match entry_list(table) {
            Some(list) => {
                let entry = RefusedEntry {
                    list,
                    index: course.begun(list),
                    table,
                };
                self.put_of_entry(asked, &entry, rest)
            }
            None => self.put_of_header(asked, course, table),
        }
    }

    // Adds the value and what is said of it, if it has the fault.
    fn put_if_faulty(
        &mut self,
        asked: &Asked<'_>,
        course: &Course,
        pair: &KeyValue<'_>,
    ) -> Result<(), AllocError>
        ensures { OnOk result
            (Adds (row_if (is_faulty (has_in asked.now) course.now (key_value_of pair.now))
            (said_row (key_value_of pair.now)
            (value_words (has_in asked.now) course.now (key_value_of pair.now)))) self.old self.new) }
    {
        if asked.is_faulty(course, pair) {
            let words = asked.value_words(self.alloc, course, pair)?;
            return self.put_value_with(pair, &words);
        }
        Ok(())
    }

    // Adds what is wrong with a value.
    #[tactic(auto, using(crate::proofs::RefusedLemmas::adds_both))]
    fn put_of_value(
        &mut self,
        asked: &Asked<'_>,
        course: &Course,
        pair: &KeyValue<'_>,
    ) -> Result<(), AllocError>
        ensures { OnOk result
            (Adds (value_rows (has_in asked.now) course.now (key_value_of pair.now)) self.old self.new) }
    {
        self.put_if_faulty(asked, course, pair)?;
        self.put_of_stretch(asked, course, pair)
    }

    fn put_of_item(
        &mut self,
        asked: &Asked<'_>,
        course: &Course,
        item: &OutlineItem<'_>,
        rest: &[OutlineItem<'_>],
    ) -> Result<(), AllocError>
        ensures { OnOk result
            (Adds (item_rows (has_in asked.now) course.now (item_of item.now) (map item_of rest.now))
            self.old self.new) }
    {
        match item {
            OutlineItem::Begins(table) => self.put_of_table(asked, course, table, rest),
            OutlineItem::States(pair) => self.put_of_value(asked, course, pair),
            OutlineItem::Ends => Ok(()),
        }
    }

    // Adds what is wrong with the tables and values.
    #[tactic(auto, unfolding(crate::specs::Refused::rows))]
    fn put_rows(&mut self, asked: &Asked<'_>, items: &[OutlineItem<'_>]) -> Result<(), AllocError>
        ensures { OnOk result
            (Adds (rows (has_in asked.now) at_front (map item_of items.now)) self.old self.new) }
    {
        let mut course = Course::new();
        for index in 0..items.len() {
            self.put_of_item(asked, &course, &items[index], &items[index + 1..])?;
            course = course.after(&items[index]);
        }
        Ok(())
    }

    // Adds of a list that is too long the first table after those that there may be.
    fn put_if_too_many(
        &mut self,
        asked: &Asked<'_>,
        items: &[OutlineItem<'_>],
        limit: &Limit,
    ) -> Result<(), AllocError>
        ensures { OnOk result
            (Adds (extra_row (has_in asked.now) (limit_of limit.now) (map item_of items.now))
            self.old self.new) }
    {
        if !asked.has(Spot::TooMany(limit.list)) {
            return Ok(());
        }
        match table_after(most_of(limit.list), list_key(limit.list).as_bytes(), items) {
            Some(table) => self.put_table(&table, limit.words, b""),
            None => Ok(()),
        }
    }

    // Adds of each of the lists that is too long the first table after those that there may be.
    fn put_extra_tables(
        &mut self,
        asked: &Asked<'_>,
        items: &[OutlineItem<'_>],
        limits: &[Limit],
    ) -> Result<(), AllocError>
        ensures { OnOk result
            (Adds (rows_of_limits (has_in asked.now) (map limit_of limits.now) (map item_of items.now))
            self.old self.new) }
    {
        for limit in limits {
            self.put_if_too_many(asked, items, limit)?;
        }
        Ok(())
    }

    // Adds what there is too much of.
    #[tactic(auto, using(crate::proofs::RefusedLemmas::adds_both))]
    fn put_extra(&mut self, asked: &Asked<'_>, items: &[OutlineItem<'_>]) -> Result<(), AllocError>
        ensures { OnOk result
            (Adds (extra_rows (has_in asked.now) (map item_of items.now)) self.old self.new) }
    {
        self.put_extra_tables(asked, items, LIMITS)?;
        self.put_extra_stretch(asked, items)
    }

    // Adds what is wrong with the whole.
    fn put_of_whole(
        &mut self,
        asked: &Asked<'_>,
        items: &[OutlineItem<'_>],
    ) -> Result<(), AllocError>
        ensures { OnOk result
            (Adds (whole_rows (has_in asked.now) (map item_of items.now)) self.old self.new) }
    {
        let no_entry = asked.has(Spot::Own(Part::Missing(Key::Entry)));
        self.put_row_if(no_entry, 1, NO_ENTRY)?;
        self.put_extra(asked, items)
    }
}

// Whether the statement may not have the key that the table stands for.
fn has_unknown(asked: &Asked<'_>, table: &OutlineTable<'_>) -> bool
    ensures { result
        ≡ has_in asked.now (Spot.Own (Part.Unknown (lent (key_head (table_of table.now).name)))) }
{
    asked.has(Spot::Own(Part::Unknown(key_head(table.name))))
}

// Whether the table stands for a value that has the fault.
fn has_key(asked: &Asked<'_>, table: &OutlineTable<'_>) -> bool
    ensures { result
        ≡ holds_of (λ key. has_in asked.now (Spot.Own (Part.Value key)))
        (named_key (key_head (table_of table.now).name)) }
{
    match named_key(key_head(table.name)) {
        Some(key) => asked.has(Spot::Own(Part::Value(key))),
        None => false,
    }
}

// Whether the table stands for a list, which it is not.
fn has_list(asked: &Asked<'_>, table: &OutlineTable<'_>) -> bool
    ensures { result
        ≡ holds_of (λ list. has_in asked.now (Spot.NoList list))
        (named_list (key_head (table_of table.now).name)) }
{
    match named_list(key_head(table.name)) {
        Some(list) => asked.has(Spot::NoList(list)),
        None => false,
    }
}

/// The tables and values of a statement's text.
/// `AllocError`: an allocation failed.
pub(crate) fn statement_items(
    alloc: Global,
    text: &[u8],
) -> Result<Vec<OutlineItem<'_>>, AllocError>
    ensures { IfOk result
        (λ items. map item_of items.items ≡ items_of statement_tables text.now) }
{
    items_of(alloc, STATEMENT_TABLES, text)
}

// The rows of the text where the spots of its document are that have the fault.
#[tactic(auto, using(crate::proofs::RefusedLemmas::adds_both, crate::proofs::RefusedLemmas::all_added))]
fn rows_text(alloc: Global, asked: &Asked<'_>, text: &[u8]) -> Result<Vec<u8>, AllocError>
    ensures { IfOk result
        (λ out. out.items
        ≡ shown MOST_LINES (all_rows (has_in asked.now) (items_of statement_tables text.now))) }
{
    let items = statement_items(alloc, text)?;
    let mut report = Report::new(alloc);
    report.put_of_whole(asked, &items)?;
    report.put_rows(asked, &items)?;
    Ok(report.text)
}

// The same of a text.
fn faulty_rows(
    alloc: Global,
    text: &[u8],
    labels: &Labels,
    fault: StatementFault,
) -> Result<Vec<u8>, AllocError>
    ensures { IfOk result
        (λ out. IsRowsText (IsFaultAt (address_of labels.now)) all_rows statement_tables text.now fault
        out.items) }
{
    let Some(table) = document(alloc, text)? else {
        return Ok(Vec::new(alloc));
    };
    let document = Document::new(alloc, labels, &table)?;
    let asked = Asked {
        document: &document,
        fault,
    };
    rows_text(alloc, &asked, text)
}

/// The lines of a statement's text that show where its document has the fault: at most twenty, each with its
/// number. Of a text that is no TOML it is the line where the reader of TOML stopped. Nothing is named of
/// `Memory`.
///
/// # Errors
///
/// An allocation failed.
pub fn statement_text(
    alloc: Global,
    text: &[u8],
    labels: &Labels,
    fault: StatementFault,
) -> Result<Vec<u8>, AllocError>
    ensures { IfOk result (λ out. IsStatementText labels.now text.now fault out.items) }
{
    match fault {
        StatementFault::NotToml => no_toml_text(alloc, text),
        _ => faulty_rows(alloc, text, labels, fault),
    }
}
