//! Whether a key of a machine file's table has a fault.

ghost use Rattle.std.specs.Prelude.{◌≡◌, is_some, map, option_map};
ghost use Rattle.std.specs.List.{list_any};
ghost use Rattle.toml.specs.Data.{get_member};
ghost use Rattle.toml.specs.View.{table_view, view};
ghost use Rattle.machine_file.specs.MachineFaultRules.{file_shape, ioc_shape, register_shape, vidc_shape};
ghost use Rattle.machine_file.specs.MachinePlaces.{shape_in, shape_of};
ghost use Rattle.machine_file.specs.MachinePlaceTests.{has_other_letters, has_unknown, is_other, is_other_kind};
ghost use Rattle.machine_file.specs.MachinePlaceTests.{is_other_number, is_outside, is_same, kind_gives};
ghost use Rattle.machine_file.specs.MachinePlaceTests.{misses_one, name_no_lines, names_no_line};
ghost use Rattle.machine_file.specs.MachinePlaceTests.{names_no_mode, part_gives, row_of, value_gives};
ghost use Rattle.machine_file.specs.MachinePlaceTests.{values_give, word_row};

use crate::events::line_named;
use crate::flags::are_letters;
use crate::ioc_settings::{IOC_KEYS, requests_of};
use crate::machine_faults::MachineFileFault;
use crate::machine_files::MACHINE_KEYS;
use crate::pages::size_of;
use crate::processor::{named_mode, start_address};
use crate::registers::NAMES;
use crate::rows::{Row, Takes, WORD, file_rows, ioc_rows, keys_in, rows_in, vidc_rows};
use crate::spots::{MachineList, MachineTable, Part};
use crate::vidc_settings::VIDC_KEYS;
use crate::words::put_address_of;
use toml::{Table, Value};
use toml_reading::{Fault, is_one_of, value_at, values_of};

/// Whether the two are one fault.
pub(crate) fn is_same(found: MachineFileFault, fault: MachineFileFault) -> bool
    ensures { result ≡ is_same found fault }
{
    found.rank() == fault.rank()
}

// ## Values

fn names_no_mode(value: &Value) -> bool
    ensures { result ≡ names_no_mode (view value.now) }
{
    value.as_str().and_then(named_mode).is_none()
}

fn has_other_letters(value: &Value) -> bool
    ensures { result ≡ has_other_letters (view value.now) }
{
    match value.as_str() {
        Some(text) => !are_letters(text.as_bytes()),
        None => true,
    }
}

fn names_no_line(value: &Value) -> bool
    ensures { result ≡ names_no_line (view value.now) }
{
    value.as_str().and_then(line_named).is_none()
}

fn one_names_no_line(values: &[Value]) -> bool
    ensures { result ≡ list_any (λ v. names_no_line (view v)) values.now }
{
    values.iter().any(|value| names_no_line(value))
}

fn name_no_lines(value: &Value) -> bool
    ensures { result ≡ name_no_lines (view value.now) }
{
    match values_of(value) {
        Some(values) => one_names_no_line(values),
        None => true,
    }
}

// Whether the value has another type than a key takes, or names nothing that it takes.
fn is_other_kind(takes: Takes, value: &Value) -> bool
    ensures { result ≡ is_other_kind takes (view value.now) }
{
    match takes {
        Takes::UpTo(_) | Takes::Address | Takes::PutAddress | Takes::Size | Takes::LatchedBits =>
            value.as_integer().is_none(),
        Takes::ModeName => names_no_mode(value),
        Takes::FlagLetters => has_other_letters(value),
        Takes::LineNames => name_no_lines(value),
    }
}

/// Whether the number is none from 0 to the limit.
pub(crate) fn is_outside(number: i64, limit: u32) -> bool
    ensures { result ≡ is_outside limit number }
{
    match u32::try_from(number) {
        Ok(n) => limit < n,
        Err(_) => true,
    }
}

// Whether the number is none that a key takes.
fn is_other(takes: Takes, number: i64) -> bool
    ensures { result ≡ is_other takes number }
{
    match takes {
        Takes::UpTo(limit) => is_outside(number, limit),
        Takes::Address => start_address(number).is_err(),
        Takes::PutAddress => put_address_of(number).is_err(),
        Takes::Size => size_of(number).is_err(),
        Takes::LatchedBits => requests_of(number).is_err(),
        Takes::ModeName | Takes::FlagLetters | Takes::LineNames => false,
    }
}

fn is_other_number(takes: Takes, value: &Value) -> bool
    ensures { result ≡ is_other_number takes (view value.now) }
{
    match value.as_integer() {
        Some(number) => is_other(takes, number),
        None => false,
    }
}

// Whether the value has the fault at a key that takes those.
fn kind_gives(takes: Takes, value: &Value, fault: MachineFileFault) -> bool
    ensures { result ≡ kind_gives takes fault (view value.now) }
{
    match fault {
        MachineFileFault::WrongKind => is_other_kind(takes, value),
        MachineFileFault::OutOfRange => is_other_number(takes, value),
        _ => false,
    }
}

// ## Keys

// Whether the value at the key, which takes those, has the fault.
fn value_gives(table: &Table, key: &str, takes: Takes, fault: MachineFileFault) -> bool
    ensures { result ≡ value_gives key.now takes (table_view table.now) fault }
{
    match value_at(table, key) {
        Some(value) => kind_gives(takes, value, fault),
        None => false,
    }
}

fn has(table: &Table, key: &str) -> bool
    ensures { result ≡ is_some (get_member key.now (table_view table.now)) }
{
    value_at(table, key).is_some()
}

/// The value at a key, by the bytes of its name.
pub(crate) fn value_named<'a>(table: &'a Table, name: &[u8]) -> Option<&'a Value>
    ensures { option_map (λ v. view v.now) result ≡ get_member name.now (table_view table.now) }
{
    match str::from_utf8(name) {
        Ok(key) => value_at(table, key),
        Err(_) => None,
    }
}

// Whether the table has the key, which is none of those that it may have.
fn has_unknown(keys: &[&str], table: &Table, key: &[u8]) -> bool
    ensures { result ≡ has_unknown (map (λ k. k.now) keys.now) key.now (table_view table.now) }
{
    value_named(table, key).is_some() && !is_one_of(keys, key)
}

// Whether the value at a key with a row has the fault.
fn values_give(rows: &[Row], table: &Table, key: &[u8], fault: MachineFileFault) -> bool
    ensures { result ≡ values_give (map row_of rows.now) key.now (table_view table.now) fault }
{
    for (name, takes, _) in rows {
        if name.as_bytes() == key && value_gives(table, name, *takes, fault) {
            return true;
        }
    }
    false
}

// The same at keys that take a word.
fn words_give(names: &[&str], table: &Table, key: &[u8], fault: MachineFileFault) -> bool
    ensures { result
        ≡ values_give (map (λ n. word_row n.now) names.now) key.now (table_view table.now) fault }
{
    for name in names {
        if name.as_bytes() == key && value_gives(table, name, WORD, fault) {
            return true;
        }
    }
    false
}

// Whether the key has a row by which it has to be there, and is not.
fn misses_one(rows: &[Row], table: &Table, key: &[u8]) -> bool
    ensures { result ≡ misses_one (map row_of rows.now) key.now (table_view table.now) }
{
    for (name, _, is_required) in rows {
        if name.as_bytes() == key && *is_required && !has(table, name) {
            return true;
        }
    }
    false
}

// ## Parts of tables

/// Whether the part of the file itself has the fault.
pub(crate) fn own_part_gives(table: &Table, part: Part<'_>, fault: MachineFileFault) -> bool
    ensures { result ≡ part_gives file_shape part.entry (table_view table.now) fault }
{
    match part {
        Part::Unknown(key) => {
            is_same(MachineFileFault::UnknownKey, fault) && has_unknown(MACHINE_KEYS, table, key)
        }
        Part::Value(key) => values_give(file_rows(), table, key, fault),
        Part::Missing(key) => {
            is_same(MachineFileFault::WrongKind, fault) && misses_one(file_rows(), table, key)
        }
    }
}

// Whether the part of the table of registers has the fault: none of them has to be there.
fn register_part_gives(table: &Table, part: Part<'_>, fault: MachineFileFault) -> bool
    ensures { result ≡ part_gives register_shape part.entry (table_view table.now) fault }
{
    match part {
        Part::Unknown(key) => {
            is_same(MachineFileFault::UnknownKey, fault) && has_unknown(&NAMES, table, key)
        }
        Part::Value(key) => words_give(&NAMES, table, key, fault),
        Part::Missing(_) => false,
    }
}

// Whether the part of IOC's table has the fault: none of its keys has to be there.
fn ioc_part_gives(table: &Table, part: Part<'_>, fault: MachineFileFault) -> bool
    ensures { result ≡ part_gives ioc_shape part.entry (table_view table.now) fault }
{
    match part {
        Part::Unknown(key) => {
            is_same(MachineFileFault::UnknownKey, fault) && has_unknown(IOC_KEYS, table, key)
        }
        Part::Value(key) => values_give(ioc_rows(), table, key, fault),
        Part::Missing(_) => false,
    }
}

// The same of VIDC's table.
fn vidc_part_gives(table: &Table, part: Part<'_>, fault: MachineFileFault) -> bool
    ensures { result ≡ part_gives vidc_shape part.entry (table_view table.now) fault }
{
    match part {
        Part::Unknown(key) => {
            is_same(MachineFileFault::UnknownKey, fault) && has_unknown(VIDC_KEYS, table, key)
        }
        Part::Value(key) => values_give(vidc_rows(), table, key, fault),
        Part::Missing(_) => false,
    }
}

/// Whether the part of one of the file's tables has the fault.
pub(crate) fn inner_part_gives(
    inner: MachineTable,
    table: &Table,
    part: Part<'_>,
    fault: MachineFileFault,
) -> bool
    ensures { result ≡ part_gives (shape_of inner) part.entry (table_view table.now) fault }
{
    match inner {
        MachineTable::Registers => register_part_gives(table, part, fault),
        MachineTable::Ioc => ioc_part_gives(table, part, fault),
        MachineTable::Vidc => vidc_part_gives(table, part, fault),
    }
}

/// Whether the part of a table of a list has the fault.
pub(crate) fn listed_part_gives(
    list: MachineList,
    table: &Table,
    part: Part<'_>,
    fault: MachineFileFault,
) -> bool
    ensures { result ≡ part_gives (shape_in list) part.entry (table_view table.now) fault }
{
    match part {
        Part::Unknown(key) => {
            is_same(MachineFileFault::UnknownKey, fault) && has_unknown(keys_in(list), table, key)
        }
        Part::Value(key) => values_give(rows_in(list), table, key, fault),
        Part::Missing(key) => {
            is_same(MachineFileFault::WrongKind, fault) && misses_one(rows_in(list), table, key)
        }
    }
}
