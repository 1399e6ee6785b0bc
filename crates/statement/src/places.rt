ghost use Rattle.std.specs.Prelude.{◌≡◌, ◌↔◌, IfOk, codes, length, nat_lt, true};
ghost use Rattle.std.specs.Result.{result_ok};
ghost use Rattle.toml.specs.Data.{get_member};
ghost use Rattle.toml.specs.View.{table_view};
ghost use Rattle.toml_reading.specs.Lowest.{entries_at};
ghost use Rattle.image.specs.Labels.{address_of};
ghost use Rattle.statement.specs.PlaceTests.{IsStored, destination_gives, entry_at, found, goes_on, holds_of};
ghost use Rattle.statement.specs.PlaceTests.{is_no_list, is_no_table, is_outside, is_reversed, is_second};
ghost use Rattle.statement.specs.PlaceTests.{is_second_destination, is_too_long, is_unwanted, part_gives};
ghost use Rattle.statement.specs.PlaceTests.{are_reversed, end_gives, is_misplaced, is_no_stretch};
ghost use Rattle.statement.specs.PlaceTests.{repeats_of, stretch_ends, stretch_entry, table_at};
ghost use Rattle.statement.specs.Statement.{apart_in};
ghost use Rattle.statement.specs.Places.{IsFaultAt, list_key, most_of};

use crate::apart::ApartWords;
use crate::faults::StatementFault;
use crate::parts::{
    are_reversed, destination_gives, end_gives, entries_at, entry_at, goes_on, is_no_list,
    is_no_stretch, is_no_table, is_outside, is_reversed, is_same, is_too_long, is_unwanted,
    part_gives, stretch_ends, stretch_entry, table_at,
};
use crate::reading::{MOST_STRETCHES, apart_in};
use crate::repeats::{all_destination_repeats, entry_repeats, is_set, rule_meetings, tests_at};
use crate::spots::{Part, Spot, TableList, list_key, most_of};
use image::Labels;
use std::alloc::{AllocError, Global};
use toml::Table;
use toml_reading::value_at;

/// The document of a statement with the labels that it may name, to be asked where its faults are.
#[derive(Drop)]
pub struct Document<'a> {
    /// The labels that the document may name.
    pub labels: &'a Labels,
    /// The document.
    pub table: &'a Table,
    // of each entry of these lists whether an earlier one is of its address
    targets: Vec<bool>,
    accesses: Vec<bool>,
    multiplies: Vec<bool>,
    branches: Vec<bool>,
    // of each rule whether an earlier one for its register shares an address with it
    rules: Vec<bool>,
    // of each target's destinations whether an earlier one is of its address
    destinations: Vec<Vec<bool>>,
    // the words apart from loops, if they are known
    apart: Option<ApartWords>,
    ghost stored: { IsStored (address_of labels.now) (table_view table.now) targets.items accesses.items
        rules.items multiplies.items branches.items destinations.items apart },
}

impl<'a> Document<'a> {
    /// The document, with labels. It takes memory, and time, by the length of its lists.
    ///
    /// # Errors
    ///
    /// An allocation failed.
    pub fn new(
        alloc: Global,
        labels: &'a Labels,
        table: &'a Table,
    ) -> Result<Document<'a>, AllocError>
        ensures labels { IfOk result (λ d. d.labels.now ≡ labels.now) }
        ensures table { IfOk result (λ d. d.table.now ≡ table.now) }
    {
        let targets = entries_at(table, "target");
        let accesses = entries_at(table, "access");
        Ok(Document {
            labels,
            table,
            targets: entry_repeats(alloc, labels, targets)?,
            accesses: entry_repeats(alloc, labels, accesses)?,
            multiplies: entry_repeats(alloc, labels, entries_at(table, "multiply"))?,
            branches: entry_repeats(alloc, labels, entries_at(table, "branch"))?,
            rules: rule_meetings(alloc, labels, entries_at(table, "base"))?,
            destinations: all_destination_repeats(alloc, labels, targets)?,
            apart: apart_in(alloc, labels, table)?.ok(),
        })
    }

    // Whether an earlier entry of the list is of the address of the entry, or shares one with it.
    fn is_second(&self, list: TableList, index: usize) -> bool
        ensures { result
            ≡ is_second (address_of self.now.labels.now) list index (table_view self.now.table.now) }
    {
        match list {
            TableList::Loops => false,
            TableList::Targets => is_set(&self.targets, index),
            TableList::Accesses => is_set(&self.accesses, index),
            TableList::Rules => is_set(&self.rules, index),
            TableList::Multiplies => is_set(&self.multiplies, index),
            TableList::Branches => is_set(&self.branches, index),
        }
    }

    // Of each destination of the target whether an earlier one is of its address.
    fn destination_repeats(&self, target: usize) -> &[bool]
        ensures { result.now
            ≡ repeats_of (address_of self.now.labels.now)
            (entry_at TableList.Targets target (table_view self.now.table.now)) }
    {
        match tests_at(&self.destinations, target) {
            Some(tests) => tests,
            None => &[],
        }
    }

    // Whether an earlier destination of the target is of the address of the destination.
    fn is_second_destination(&self, target: usize, index: usize) -> bool
        ensures { result
            ≡ is_second_destination (address_of self.now.labels.now) target index
            (table_view self.now.table.now) }
    {
        is_set(self.destination_repeats(target), index)
    }

    // Whether the part of an entry has the fault.
    fn listed_gives(
        &self,
        list: TableList,
        index: usize,
        part: Part<'_>,
        fault: StatementFault,
    ) -> bool
        ensures { result
            ≡ holds_of
            (λ table. part_gives (address_of self.now.labels.now) (Some list) part.entry table fault)
            (table_at list index (table_view self.now.table.now)) }
    {
        match table_at(self.table, list, index) {
            Some(table) => part_gives(self.labels, Some(list), table, part, fault),
            None => false,
        }
    }

    // Whether the loop's words may not be a loop's, by the stretches.
    fn lies_outside(&self, apart: &ApartWords, index: usize) -> bool
        ensures { result
            ≡ holds_of (is_outside (address_of self.now.labels.now) apart.now)
            (table_at TableList.Loops index (table_view self.now.table.now)) }
    {
        match table_at(self.table, TableList::Loops, index) {
            Some(table) => is_outside(self.labels, table, apart),
            None => false,
        }
    }

    // The same by the stretches that the document states, if they are known.
    fn is_misplaced(&self, index: usize) -> bool
        ensures { result
            ≡ is_misplaced (address_of self.now.labels.now)
            (result_ok (apart_in (address_of self.now.labels.now) (table_view self.now.table.now)))
            index (table_view self.now.table.now) }
    {
        match &self.apart {
            Some(apart) => self.lies_outside(apart, index),
            None => false,
        }
    }

    // Whether what is at `apart` is no list.
    fn has_no_stretches(&self) -> bool
        ensures { result ≡ is_no_list (get_member (codes "apart") (table_view self.now.table.now)) }
    {
        is_no_list(value_at(self.table, "apart"))
    }

    // Whether more stretches are apart than a statement may have.
    fn has_too_many_stretches(&self) -> bool
        ensures { result ≡ nat_lt 256 (length (entries_at (codes "apart") (table_view self.now.table.now))) }
    {
        MOST_STRETCHES < entries_at(self.table, "apart").len()
    }

    // Whether the entry of `apart` is no list of two values.
    fn is_no_stretch(&self, index: usize) -> bool
        ensures { result ≡ is_no_stretch (stretch_entry index (table_view self.now.table.now)) }
    {
        is_no_stretch(stretch_entry(self.table, index))
    }

    // Whether an end of the stretch has the fault.
    fn end_gives(&self, stretch: usize, index: usize, fault: StatementFault) -> bool
        ensures { result
            ≡ holds_of (λ ends. end_gives (address_of self.now.labels.now) index ends fault)
            (stretch_ends stretch (table_view self.now.table.now)) }
    {
        match stretch_ends(self.table, stretch) {
            Some(ends) => end_gives(self.labels, ends, index, fault),
            None => false,
        }
    }

    // Whether the stretch ends before it begins.
    fn are_reversed(&self, index: usize) -> bool
        ensures { result
            ≡ holds_of (are_reversed (address_of self.now.labels.now))
            (stretch_ends index (table_view self.now.table.now)) }
    {
        match stretch_ends(self.table, index) {
            Some((first, last)) => are_reversed(self.labels, first, last),
            None => false,
        }
    }

    // Whether the rule ends before it begins.
    fn is_reversed(&self, index: usize) -> bool
        ensures { result
            ≡ holds_of (is_reversed (address_of self.now.labels.now))
            (table_at TableList.Rules index (table_view self.now.table.now)) }
    {
        match table_at(self.table, TableList::Rules, index) {
            Some(table) => is_reversed(self.labels, table),
            None => false,
        }
    }

    // Whether the target has destinations and may have none.
    fn is_unwanted(&self, index: usize) -> bool
        ensures { result
            ≡ holds_of is_unwanted (table_at TableList.Targets index (table_view self.now.table.now)) }
    {
        match table_at(self.table, TableList::Targets, index) {
            Some(table) => is_unwanted(table),
            None => false,
        }
    }

    // Whether the target has more destinations than it may have.
    fn is_too_long(&self, index: usize) -> bool
        ensures { result
            ≡ holds_of is_too_long (table_at TableList.Targets index (table_view self.now.table.now)) }
    {
        match table_at(self.table, TableList::Targets, index) {
            Some(table) => is_too_long(table),
            None => false,
        }
    }

    // Whether the target is a jump or a call.
    fn goes_on(&self, index: usize) -> bool
        ensures { result
            ≡ holds_of goes_on (table_at TableList.Targets index (table_view self.now.table.now)) }
    {
        match table_at(self.table, TableList::Targets, index) {
            Some(table) => goes_on(table),
            None => false,
        }
    }

    // Whether the value of a destination has the fault.
    fn destination_gives(&self, target: usize, index: usize, fault: StatementFault) -> bool
        ensures { result
            ≡ holds_of (λ table. destination_gives (address_of self.now.labels.now) index table fault)
            (table_at TableList.Targets target (table_view self.now.table.now)) }
    {
        match table_at(self.table, TableList::Targets, target) {
            Some(table) => destination_gives(self.labels, table, index, fault),
            None => false,
        }
    }

    // Whether the destination has the fault, or an earlier one is of its address.
    fn is_faulty_destination(&self, target: usize, index: usize, fault: StatementFault) -> bool
        ensures { result
            ≡ found (address_of self.now.labels.now) (table_view self.now.table.now)
            (Spot.Destination target index) fault }
    {
        if self.destination_gives(target, index, fault) {
            return true;
        }
        is_same(StatementFault::Twice, fault)
            && self.goes_on(target)
            && self.is_second_destination(target, index)
    }

    // Whether what is at the key of a list is no list.
    fn is_no_list(&self, list: TableList) -> bool
        ensures { result ≡ is_no_list (get_member (list_key list) (table_view self.now.table.now)) }
    {
        is_no_list(value_at(self.table, list_key(list)))
    }

    // Whether the list has more entries than a statement may have.
    fn has_too_many(&self, list: TableList) -> bool
        ensures { result
            ≡ nat_lt (most_of list) (length (entries_at (list_key list) (table_view self.now.table.now))) }
    {
        most_of(list) < entries_at(self.table, list_key(list)).len()
    }

    // Whether the entry of the list is no table.
    fn is_no_table(&self, list: TableList, index: usize) -> bool
        ensures { result ≡ is_no_table (entry_at list index (table_view self.now.table.now)) }
    {
        is_no_table(entry_at(self.table, list, index))
    }

    fn found(&self, spot: Spot<'_>, fault: StatementFault) -> bool
        ensures { result
            ≡ found (address_of self.now.labels.now) (table_view self.now.table.now) spot.entry fault }
    {
        let is = |other| is_same(other, fault);
        match spot {
            Spot::Own(part) => part_gives(self.labels, None, self.table, part, fault),
            Spot::NoList(list) => is(StatementFault::WrongKind) && self.is_no_list(list),
            Spot::TooMany(list) => is(StatementFault::OutOfRange) && self.has_too_many(list),
            Spot::NoTable(list, index) => {
                is(StatementFault::WrongKind) && self.is_no_table(list, index)
            }
            Spot::Listed(list, index, part) => self.listed_gives(list, index, part, fault),
            Spot::Misplaced(index) => is(StatementFault::OutOfRange) && self.is_misplaced(index),
            Spot::Unwanted(index) => is(StatementFault::WrongKind) && self.is_unwanted(index),
            Spot::TooManyDestinations(index) => {
                is(StatementFault::OutOfRange) && self.is_too_long(index)
            }
            Spot::Destination(target, index) => self.is_faulty_destination(target, index, fault),
            Spot::Reversed(index) => is(StatementFault::OutOfRange) && self.is_reversed(index),
            Spot::NoStretches => is(StatementFault::WrongKind) && self.has_no_stretches(),
            Spot::TooManyStretches => {
                is(StatementFault::OutOfRange) && self.has_too_many_stretches()
            }
            Spot::NoStretch(index) => is(StatementFault::WrongKind) && self.is_no_stretch(index),
            Spot::StretchEnd(stretch, index) => self.end_gives(stretch, index, fault),
            Spot::ReversedStretch(index) => {
                is(StatementFault::OutOfRange) && self.are_reversed(index)
            }
            Spot::Second(list, index) => is(StatementFault::Twice) && self.is_second(list, index),
        }
    }

    /// Whether the document has the fault at the spot.
    pub fn has_fault_at(&self, spot: Spot<'_>, fault: StatementFault) -> bool
        ensures { result ≡ true
            ↔ IsFaultAt (address_of self.now.labels.now) (table_view self.now.table.now) spot.entry fault }
    {
        self.found(spot, fault)
    }
}
