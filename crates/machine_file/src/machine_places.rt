ghost use Rattle.std.specs.Prelude.{◌≡◌, ◌↔◌, IfOk, codes, option_map, true};
ghost use Rattle.toml.specs.Data.{get_member};
ghost use Rattle.toml.specs.View.{table_view, view};
ghost use Rattle.machine_file.specs.MachinePlaces.{IsMachineFaultAt, list_key, shape_in, shape_of, table_key};
ghost use Rattle.machine_file.specs.MachinePlaceTests.{IsStored, entry_at, found, has_letter_twice, holds_of};
ghost use Rattle.machine_file.specs.MachinePlaceTests.{inner_table, is_no_list, is_no_table, is_second};
ghost use Rattle.machine_file.specs.MachinePlaceTests.{is_unmappable, limit_of, part_gives, table_at};

use crate::entries::{entry_at, is_no_list, is_no_table, number_at, table_at};
use crate::faulty_keys::{inner_part_gives, is_same, listed_part_gives, own_part_gives};
use crate::flags::is_single;
use crate::machine_faults::MachineFileFault;
use crate::pages::size_in;
use crate::repeats::{is_set, number_repeats};
use crate::spots::{
    EntryNumber, MachineList, MachineSpot, MachineTable, Part, list_key, table_key,
};
use memc::PHYSICAL_PAGES;
use std::alloc::{AllocError, Global};
use toml::{Table, Value};
use toml_reading::value_at;

fn has_letter_twice(value: Option<&Value>) -> bool
    ensures { result ≡ has_letter_twice (option_map (λ v. view v.now) value.entry) }
{
    let Some(value) = value else {
        return false;
    };
    match value.as_str() {
        Some(text) => !is_single(text.as_bytes()),
        None => false,
    }
}

fn inner_table(table: &Table, inner: MachineTable) -> Option<&Table>
    ensures { option_map (λ t. table_view t.now) result ≡ inner_table inner (table_view table.now) }
{
    match value_at(table, table_key(inner)) {
        Some(value) => value.as_table(),
        None => None,
    }
}

// What a number of a mapped page has to be below, if the page's size is known.
fn limit_of(table: &Table, number: EntryNumber) -> Option<u64>
    ensures { result ≡ limit_of number (table_view table.now) }
{
    match number {
        EntryNumber::Logical => match size_in(table) {
            Ok(size) => Some(1 << (25 - size.shift())),
            Err(_) => None,
        },
        EntryNumber::Physical => Some(u64::from(PHYSICAL_PAGES)),
        EntryNumber::Level => Some(4),
        EntryNumber::Step | EntryNumber::Address => None,
    }
}

fn is_unmappable(table: &Table, number: EntryNumber, index: usize) -> bool
    ensures { result ≡ is_unmappable number index (table_view table.now) }
{
    let Some(limit) = limit_of(table, number) else {
        return false;
    };
    match number_at(table, number, index) {
        Some(n) => limit <= n,
        None => false,
    }
}

/// The document of a machine file, to be asked where its faults are.
#[derive(Drop)]
pub struct MachineDocument<'a> {
    /// The document.
    pub table: &'a Table,
    // of each entry of a list whether an earlier one has the same number
    logical: Vec<bool>,
    physical: Vec<bool>,
    steps: Vec<bool>,
    addresses: Vec<bool>,
    ghost stored: { IsStored (table_view table.now) logical.items physical.items steps.items
        addresses.items },
}

impl<'a> MachineDocument<'a> {
    /// The document. It takes memory, and time, by the length of the lists.
    ///
    /// # Errors
    ///
    /// An allocation failed.
    pub fn new(alloc: Global, table: &'a Table) -> Result<MachineDocument<'a>, AllocError>
        ensures { IfOk result (λ d. d.table.now ≡ table.now) }
    {
        Ok(MachineDocument {
            table,
            logical: number_repeats(alloc, table, EntryNumber::Logical)?,
            physical: number_repeats(alloc, table, EntryNumber::Physical)?,
            steps: number_repeats(alloc, table, EntryNumber::Step)?,
            addresses: number_repeats(alloc, table, EntryNumber::Address)?,
        })
    }

    // Whether an earlier entry of its list has the number of the entry.
    fn is_second(&self, number: EntryNumber, index: usize) -> bool
        ensures { result ≡ is_second number index (table_view self.now.table.now) }
    {
        match number {
            EntryNumber::Logical => is_set(&self.logical, index),
            EntryNumber::Physical => is_set(&self.physical, index),
            EntryNumber::Level => false,
            EntryNumber::Step => is_set(&self.steps, index),
            EntryNumber::Address => is_set(&self.addresses, index),
        }
    }

    // Whether the part of a table has the fault.
    fn inner_gives(&self, inner: MachineTable, part: Part<'_>, fault: MachineFileFault) -> bool
        ensures { result
            ≡ holds_of (λ t. part_gives (shape_of inner) part.entry t fault)
            (inner_table inner (table_view self.now.table.now)) }
    {
        match inner_table(self.table, inner) {
            Some(table) => inner_part_gives(inner, table, part, fault),
            None => false,
        }
    }

    // Whether the part of an entry has the fault.
    fn listed_gives(
        &self,
        list: MachineList,
        index: usize,
        part: Part<'_>,
        fault: MachineFileFault,
    ) -> bool
        ensures { result
            ≡ holds_of (λ t. part_gives (shape_in list) part.entry t fault)
            (table_at list index (table_view self.now.table.now)) }
    {
        match table_at(self.table, list, index) {
            Some(table) => listed_part_gives(list, table, part, fault),
            None => false,
        }
    }

    // Whether the flags have a letter twice.
    fn has_letter_twice(&self) -> bool
        ensures { result
            ≡ has_letter_twice (get_member (codes "flags") (table_view self.now.table.now)) }
    {
        has_letter_twice(value_at(self.table, "flags"))
    }

    // Whether what is at the key of a table is no table.
    fn is_no_inner(&self, inner: MachineTable) -> bool
        ensures { result ≡ is_no_table (get_member (table_key inner) (table_view self.now.table.now)) }
    {
        is_no_table(value_at(self.table, table_key(inner)))
    }

    // Whether what is at the key of a list is no list.
    fn is_no_list(&self, list: MachineList) -> bool
        ensures { result ≡ is_no_list (get_member (list_key list) (table_view self.now.table.now)) }
    {
        is_no_list(value_at(self.table, list_key(list)))
    }

    // Whether the entry of the list is no table.
    fn is_no_table(&self, list: MachineList, index: usize) -> bool
        ensures { result ≡ is_no_table (entry_at list index (table_view self.now.table.now)) }
    {
        is_no_table(entry_at(self.table, list, index))
    }

    fn found(&self, spot: MachineSpot<'_>, fault: MachineFileFault) -> bool
        ensures { result ≡ found (table_view self.now.table.now) spot.entry fault }
    {
        let is = |other| is_same(other, fault);
        match spot {
            MachineSpot::Own(part) => own_part_gives(self.table, part, fault),
            MachineSpot::FlagTwice => is(MachineFileFault::Twice) && self.has_letter_twice(),
            MachineSpot::NoInner(inner) => {
                is(MachineFileFault::WrongKind) && self.is_no_inner(inner)
            }
            MachineSpot::Inner(inner, part) => self.inner_gives(inner, part, fault),
            MachineSpot::NoList(list) => is(MachineFileFault::WrongKind) && self.is_no_list(list),
            MachineSpot::NoTable(list, index) => {
                is(MachineFileFault::WrongKind) && self.is_no_table(list, index)
            }
            MachineSpot::Listed(list, index, part) => self.listed_gives(list, index, part, fault),
            MachineSpot::Unmappable(number, index) => {
                is(MachineFileFault::OutOfRange) && is_unmappable(self.table, number, index)
            }
            MachineSpot::Second(number, index) => {
                is(MachineFileFault::Twice) && self.is_second(number, index)
            }
        }
    }

    /// Whether the document has the fault at the spot.
    pub fn has_fault_at(&self, spot: MachineSpot<'_>, fault: MachineFileFault) -> bool
        ensures { result ≡ true
            ↔ IsMachineFaultAt (table_view self.now.table.now) spot.entry fault }
    {
        self.found(spot, fault)
    }
}
