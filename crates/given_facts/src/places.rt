ghost use Rattle.std.specs.Prelude.{◌≡◌, ◌↔◌, ◌-◌, ◌^◌, IfOk, codes, map, option_map, true};
ghost use Rattle.std.specs.List.{slice_get};
ghost use Rattle.std.specs.Option.{option_and_then};
ghost use Rattle.std.specs.Result.{result_ok};
ghost use Rattle.arm2_decode.specs.Names.{register_number};
ghost use Rattle.toml.specs.Data.{as_str, get_member};
ghost use Rattle.toml.specs.View.{table_view, view};
ghost use Rattle.toml_reading.specs.Readings.{pair};
ghost use Rattle.machine_file.specs.MachinePlaceTests.{holds_of, is_outside, is_set};
ghost use Rattle.given_facts.specs.GivenFaults.{given_faults};
ghost use Rattle.given_facts.specs.GivenFile.{named_register, word_in};
ghost use Rattle.given_facts.specs.GivenPlaces.{IsGivenFaultAt, entries, number_in};
ghost use Rattle.given_facts.specs.GivenPlaceTests.{IsStored, entry_at, fact_at, found, has_unknown};
ghost use Rattle.given_facts.specs.GivenPlaceTests.{is_disordered, is_no_list, is_no_table, is_no_word};
ghost use Rattle.given_facts.specs.GivenPlaceTests.{is_same, names_none, number_gives, part_gives};
ghost use Rattle.given_facts.specs.GivenPlaceTests.{register_repeats, takes, value_gives};

use crate::facts::{FILE_KEYS, fact_keys, named_register, word_in};
use crate::faults::{GivenFault, Read};
use crate::repeats::{is_set, repeats};
use crate::spots::GivenSpot;
use machine_file::Part;
use std::alloc::{AllocError, Global};
use toml::{Table, Value};
use toml_reading::{Fault, is_one_of, pair, value_at, values_of};

// Whether the two are one fault.
fn is_same(found: GivenFault, fault: GivenFault) -> bool
    ensures { result ≡ is_same found fault }
{
    found.rank() == fault.rank()
}

// ## Values

fn is_outside(number: i64) -> bool
    ensures { result ≡ is_outside (2 ^ 32 - 1) number }
{
    u32::try_from(number).is_err()
}

fn is_no_word(value: &Value) -> bool
    ensures { result ≡ is_no_word (view value.now) }
{
    match value.as_integer() {
        Some(number) => is_outside(number),
        None => false,
    }
}

fn names_none(value: &Value) -> bool
    ensures { result ≡ names_none (view value.now) }
{
    match value.as_str() {
        Some(text) => named_register(text.as_bytes()).is_none(),
        None => true,
    }
}

fn number_gives(value: &Value, fault: GivenFault) -> bool
    ensures { result ≡ number_gives fault (view value.now) }
{
    match fault {
        GivenFault::WrongKind => value.as_integer().is_none(),
        GivenFault::OutOfRange => is_no_word(value),
        _ => false,
    }
}

// Whether the value at the key has the fault.
fn value_gives(key: &[u8], value: &Value, fault: GivenFault) -> bool
    ensures { result ≡ value_gives key.now fault (view value.now) }
{
    if key == b"register".as_slice() {
        return is_same(GivenFault::WrongKind, fault) && names_none(value);
    }
    number_gives(value, fault)
}

// ## Keys

// The value at a key, by the bytes of its name.
fn value_named<'a>(table: &'a Table, name: &[u8]) -> Option<&'a Value>
    ensures { option_map (λ v. view v.now) result ≡ get_member name.now (table_view table.now) }
{
    match str::from_utf8(name) {
        Ok(key) => value_at(table, key),
        Err(_) => None,
    }
}

// Whether the table has the key, which is none of those that it may have.
fn has_unknown(keys: &[&str], table: &Table, key: &[u8]) -> bool
    ensures { result ≡ has_unknown (map (λ k. k.now) keys.now) key.now (table_view table.now) }
{
    value_named(table, key).is_some() && !is_one_of(keys, key)
}

fn takes(table: &Table, key: &[u8]) -> bool
    ensures { result ≡ takes (table_view table.now) key.now }
{
    is_one_of(fact_keys(table), key)
}

// Whether the value at the key, if there is one, has the fault.
fn has_value(table: &Table, key: &[u8], fault: GivenFault) -> bool
    ensures { result ≡ holds_of (value_gives key.now fault) (get_member key.now (table_view table.now)) }
{
    match value_named(table, key) {
        Some(value) => value_gives(key, value, fault),
        None => false,
    }
}

// Whether the part of the fact has the fault.
fn part_gives(table: &Table, part: Part<'_>, fault: GivenFault) -> bool
    ensures { result ≡ part_gives part.entry (table_view table.now) fault }
{
    match part {
        Part::Unknown(key) => {
            is_same(GivenFault::UnknownKey, fault) && has_unknown(fact_keys(table), table, key)
        }
        Part::Value(key) => takes(table, key) && has_value(table, key, fault),
        Part::Missing(key) => {
            is_same(GivenFault::WrongKind, fault)
                && takes(table, key)
                && value_named(table, key).is_none()
        }
    }
}

// The two words, where both are there.
fn stated_ends(table: &Table) -> Option<(u32, u32)>
    ensures { result
        ≡ result_ok (pair given_faults (word_in (codes "from") (table_view table.now))
        (word_in (codes "to") (table_view table.now))) }
{
    let ends: Read<(u32, u32)> = pair(word_in(table, "from"), word_in(table, "to"));
    ends.ok()
}

fn is_disordered(table: &Table) -> bool
    ensures { result ≡ is_disordered (table_view table.now) }
{
    match stated_ends(table) {
        Some((low, high)) => high < low,
        None => false,
    }
}

// ## Entries

fn entries(table: &Table) -> &[Value]
    ensures { map view result.now ≡ entries (table_view table.now) }
{
    match value_at(table, "given") {
        Some(value) => match values_of(value) {
            Some(values) => values,
            None => &[],
        },
        None => &[],
    }
}

fn value_in(values: &[Value], index: usize) -> Option<&Value>
    ensures { option_map (λ v. view v.now) result ≡ slice_get (map view values.now) index }
{
    values.get(index)
}

fn entry_at(table: &Table, index: usize) -> Option<&Value>
    ensures { option_map (λ v. view v.now) result ≡ entry_at index (table_view table.now) }
{
    value_in(entries(table), index)
}

fn fact_at(table: &Table, index: usize) -> Option<&Table>
    ensures { option_map (λ t. table_view t.now) result ≡ fact_at index (table_view table.now) }
{
    match entry_at(table, index) {
        Some(entry) => entry.as_table(),
        None => None,
    }
}

fn is_no_list(value: Option<&Value>) -> bool
    ensures { result ≡ is_no_list (option_map (λ v. view v.now) value.entry) }
{
    match value {
        Some(value) => values_of(value).is_none(),
        None => false,
    }
}

fn is_no_table(value: Option<&Value>) -> bool
    ensures { result ≡ is_no_table (option_map (λ v. view v.now) value.entry) }
{
    match value {
        Some(value) => value.as_table().is_none(),
        None => false,
    }
}

// ## Registers

fn number_of_name(word: &[u8]) -> Option<u64>
    ensures { result ≡ option_map register_number (named_register word.now) }
{
    match named_register(word) {
        Some(register) => Some(u64::from(register.number())),
        None => None,
    }
}

fn number_named(value: &Value) -> Option<u64>
    ensures { result
        ≡ option_map register_number (option_and_then named_register (as_str (view value.now))) }
{
    match value.as_str() {
        Some(text) => number_of_name(text.as_bytes()),
        None => None,
    }
}

fn number_of_fact(table: &Table) -> Option<u64>
    ensures { result
        ≡ option_map register_number (option_and_then named_register
        (option_and_then as_str (get_member (codes "register") (table_view table.now)))) }
{
    match value_at(table, "register") {
        Some(value) => number_named(value),
        None => None,
    }
}

// The number of the register that an entry names.
fn number_in(entry: &Value) -> Option<u64>
    ensures { result ≡ number_in (view entry.now) }
{
    match entry.as_table() {
        Some(table) => number_of_fact(table),
        None => None,
    }
}

fn numbers_of(alloc: Global, entries: &[Value]) -> Result<Vec<Option<u64>>, AllocError>
    ensures { IfOk result (λ made. made.items ≡ map (λ e. number_in (view e)) entries.now) }
{
    let mut numbers = Vec::new(alloc);
    for entry in entries {
        numbers.push(number_in(entry))?;
    }
    Ok(numbers)
}

fn register_repeats(alloc: Global, table: &Table) -> Result<Vec<bool>, AllocError>
    ensures { IfOk result (λ tests. tests.items ≡ register_repeats (table_view table.now)) }
{
    let numbers = numbers_of(alloc, entries(table))?;
    repeats(alloc, &numbers)
}

// ## The file

/// The document of a file of facts, to be asked where its faults are.
#[derive(Drop)]
pub struct GivenDocument<'a> {
    /// The document.
    pub table: &'a Table,
    // of each entry whether an earlier one is on its register
    repeats: Vec<bool>,
    ghost stored: { IsStored (table_view table.now) repeats.items },
}

impl<'a> GivenDocument<'a> {
    /// The document. It takes memory, and time, by the number of facts.
    ///
    /// # Errors
    ///
    /// An allocation failed.
    pub fn new(alloc: Global, table: &'a Table) -> Result<GivenDocument<'a>, AllocError>
        ensures { IfOk result (λ d. d.table.now ≡ table.now) }
    {
        Ok(GivenDocument {
            table,
            repeats: register_repeats(alloc, table)?,
        })
    }

    // Whether an earlier entry is on the register of this one.
    fn is_second(&self, index: usize) -> bool
        ensures { result ≡ is_set (register_repeats (table_view self.now.table.now)) index }
    {
        is_set(&self.repeats, index)
    }

    fn has_no_list(&self) -> bool
        ensures { result ≡ is_no_list (get_member (codes "given") (table_view self.now.table.now)) }
    {
        is_no_list(value_at(self.table, "given"))
    }

    fn is_no_table(&self, index: usize) -> bool
        ensures { result ≡ is_no_table (entry_at index (table_view self.now.table.now)) }
    {
        is_no_table(entry_at(self.table, index))
    }

    fn is_disordered(&self, index: usize) -> bool
        ensures { result ≡ holds_of is_disordered (fact_at index (table_view self.now.table.now)) }
    {
        match fact_at(self.table, index) {
            Some(table) => is_disordered(table),
            None => false,
        }
    }

    // Whether the part of a fact has the fault.
    fn fact_gives(&self, index: usize, part: Part<'_>, fault: GivenFault) -> bool
        ensures { result
            ≡ holds_of (λ t. part_gives part.entry t fault) (fact_at index (table_view self.now.table.now)) }
    {
        match fact_at(self.table, index) {
            Some(table) => part_gives(table, part, fault),
            None => false,
        }
    }

    fn found(&self, spot: GivenSpot<'_>, fault: GivenFault) -> bool
        ensures { result ≡ found (table_view self.now.table.now) spot.entry fault }
    {
        let is = |other| is_same(other, fault);
        match spot {
            GivenSpot::Unknown(key) => {
                is(GivenFault::UnknownKey) && has_unknown(FILE_KEYS, self.table, key)
            }
            GivenSpot::NoList => is(GivenFault::WrongKind) && self.has_no_list(),
            GivenSpot::NoTable(index) => is(GivenFault::WrongKind) && self.is_no_table(index),
            GivenSpot::Fact(index, part) => self.fact_gives(index, part, fault),
            GivenSpot::Disordered(index) => {
                is(GivenFault::OutOfRange) && self.is_disordered(index)
            }
            GivenSpot::Second(index) => is(GivenFault::Twice) && self.is_second(index),
        }
    }

    /// Whether the document has the fault at the spot.
    pub fn has_fault_at(&self, spot: GivenSpot<'_>, fault: GivenFault) -> bool
        ensures { result ≡ true
            ↔ IsGivenFaultAt (table_view self.now.table.now) spot.entry fault }
    {
        self.found(spot, fault)
    }
}
