//! Which stretches of words apart from loops are wrong.

ghost use Rattle.std.specs.Prelude.{◌≡◌, OnOk, map, option_map};
ghost use Rattle.text_refusals.specs.FaultyItems.{has_in};
ghost use Rattle.text_refusals.specs.Outline.{item_of, key_value_of, table_of};
ghost use Rattle.text_refusals.specs.Refused.{Adds, apart_table_rows, extra_stretch_rows};
ghost use Rattle.text_refusals.specs.Refused.{first_after, is_stretch_item, row_if, said_row};
ghost use Rattle.text_refusals.specs.Refused.{stretch_header_rows, stretch_rows, stretch_table_rows};
ghost use Rattle.text_refusals.specs.Refused.{one_stretch_rows, past_stretches_rows, stretches_in};

use crate::asked::Asked;
use crate::course::{Course, is_stretch, is_stretch_table, key_head};
use crate::outline::{KeyValue, OutlineItem, OutlineTable};
use crate::report::Report;
use statement::{MOST_STRETCHES, Spot};
use std::alloc::AllocError;

const NO_TABLE: &[u8] = b" may be no table";

const TOO_MANY: &[u8] = b" comes after the 256 stretches that a statement may have";

fn is_stretch_item(item: &OutlineItem<'_>) -> bool
    ensures { result ≡ is_stretch_item (item_of item.now) }
{
    match item {
        OutlineItem::Begins(table) => is_stretch_table(table),
        OutlineItem::States(pair) => is_stretch(pair),
        OutlineItem::Ends => false,
    }
}

// The first stretch apart after so many.
#[tactic(auto, unfolding(crate::specs::Refused::stretches_in))]
fn stretch_after<'a>(most: usize, items: &[OutlineItem<'a>]) -> Option<OutlineItem<'a>>
    ensures { option_map item_of result ≡ first_after most (stretches_in (map item_of items.now)) }
{
    let mut left = most;
    for item in items {
        if !is_stretch_item(item) {
            continue;
        }
        if left == 0 {
            return Some(*item);
        }
        left -= 1;
    }
    None
}

impl Report {
    fn put_value_with_if(
        &mut self,
        holds: bool,
        pair: &KeyValue<'_>,
        words: &[u8],
    ) -> Result<(), AllocError>
        ensures { OnOk result
            (Adds (row_if holds (said_row (key_value_of pair.now) words.now)) self.old self.new) }
    {
        if holds {
            return self.put_value_with(pair, words);
        }
        Ok(())
    }

    // Adds what is wrong with one stretch apart.
    #[tactic(auto, using(crate::proofs::RefusedLemmas::adds_both))]
    fn put_of_one_stretch(
        &mut self,
        asked: &Asked<'_>,
        course: &Course,
        pair: &KeyValue<'_>,
    ) -> Result<(), AllocError>
        ensures { OnOk result
            (Adds (one_stretch_rows (has_in asked.now) course.now (key_value_of pair.now))
            self.old self.new) }
    {
        let is_none = asked.has_no_stretch(course, pair);
        self.put_value_with_if(is_none, pair, b" has to be a list of two addresses")?;
        let is_reversed = asked.has_reversed_stretch(course, pair);
        self.put_value_with_if(is_reversed, pair, b" ends before it begins")
    }

    /// Adds what is wrong with a stretch apart, or with the list of them.
    #[tactic(auto, using(crate::proofs::RefusedLemmas::adds_both))]
    pub(crate) fn put_of_stretch(
        &mut self,
        asked: &Asked<'_>,
        course: &Course,
        pair: &KeyValue<'_>,
    ) -> Result<(), AllocError>
        ensures { OnOk result
            (Adds (stretch_rows (has_in asked.now) course.now (key_value_of pair.now))
            self.old self.new) }
    {
        let are_none = asked.has_no_stretches(pair);
        self.put_value_with_if(
            are_none,
            pair,
            b" has to be a list of lists of two addresses",
        )?;
        self.put_of_one_stretch(asked, course, pair)
    }

    // Adds that a table stands for the stretches apart.
    fn put_if_apart(
        &mut self,
        asked: &Asked<'_>,
        table: &OutlineTable<'_>,
    ) -> Result<(), AllocError>
        ensures { OnOk result
            (Adds (apart_table_rows (has_in asked.now) (table_of table.now)) self.old self.new) }
    {
        if key_head(table.name) != b"apart".as_slice() {
            return Ok(());
        }
        if asked.has(Spot::NoStretches) {
            return self.put_table(table, NO_TABLE, b"");
        }
        Ok(())
    }

    // Adds that a table stands for one of them.
    fn put_if_stretch(
        &mut self,
        asked: &Asked<'_>,
        course: &Course,
        table: &OutlineTable<'_>,
    ) -> Result<(), AllocError>
        ensures { OnOk result
            (Adds (stretch_table_rows (has_in asked.now) course.now (table_of table.now))
            self.old self.new) }
    {
        if !is_stretch_table(table) {
            return Ok(());
        }
        if asked.has(Spot::NoStretch(course.stretches)) {
            return self.put_table(table, NO_TABLE, b"");
        }
        Ok(())
    }

    /// Adds that a table stands for the stretches apart, or for one of them.
    #[tactic(auto, using(crate::proofs::RefusedLemmas::adds_both))]
    pub(crate) fn put_stretch_header(
        &mut self,
        asked: &Asked<'_>,
        course: &Course,
        table: &OutlineTable<'_>,
    ) -> Result<(), AllocError>
        ensures { OnOk result
            (Adds (stretch_header_rows (has_in asked.now) course.now (table_of table.now))
            self.old self.new) }
    {
        self.put_if_apart(asked, table)?;
        self.put_if_stretch(asked, course, table)
    }

    // Adds the item, which is a stretch apart after those that there may be.
    fn put_past_stretches(&mut self, item: &OutlineItem<'_>) -> Result<(), AllocError>
        ensures { OnOk result
            (Adds (past_stretches_rows (item_of item.now)) self.old self.new) }
    {
        match item {
            OutlineItem::Begins(table) => self.put_table(table, TOO_MANY, b""),
            OutlineItem::States(pair) => self.put_value_with(pair, TOO_MANY),
            OutlineItem::Ends => Ok(()),
        }
    }

    /// Adds the first stretch apart after those that there may be, where there are too many.
    pub(crate) fn put_extra_stretch(
        &mut self,
        asked: &Asked<'_>,
        items: &[OutlineItem<'_>],
    ) -> Result<(), AllocError>
        ensures { OnOk result
            (Adds (extra_stretch_rows (has_in asked.now) (map item_of items.now)) self.old self.new) }
    {
        if !asked.has(Spot::TooManyStretches) {
            return Ok(());
        }
        match stretch_after(MOST_STRETCHES, items) {
            Some(item) => self.put_past_stretches(&item),
            None => Ok(()),
        }
    }
}
