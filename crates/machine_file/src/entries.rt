//! The lists of a machine file, by their entries.

ghost use Rattle.std.specs.Prelude.{◌≡◌, map, option_map};
ghost use Rattle.std.specs.List.{slice_get};
ghost use Rattle.toml.specs.View.{table_view, view};
ghost use Rattle.toml_reading.specs.Lowest.{entries_at, natural, number_of_entry};
ghost use Rattle.machine_file.specs.MachinePlaceTests.{entry_at, is_no_list, is_no_table, natural_at, natural_in};
ghost use Rattle.machine_file.specs.MachinePlaceTests.{number_at, table_at};

use crate::spots::{EntryNumber, MachineList, list_key, number_key, number_list};
use toml::{Table, Value};
use toml_reading::{value_at, values_of};

/// The values of the list at a key, none where there is no list.
pub(crate) fn entries_at<'a>(table: &'a Table, key: &str) -> &'a [Value]
    ensures { map view result.now ≡ entries_at key.now (table_view table.now) }
{
    match value_at(table, key) {
        Some(value) => match values_of(value) {
            Some(values) => values,
            None => &[],
        },
        None => &[],
    }
}

/// The value with the index.
pub(crate) fn value_in(values: &[Value], index: usize) -> Option<&Value>
    ensures { option_map (λ v. view v.now) result ≡ slice_get (map view values.now) index }
{
    values.get(index)
}

/// The entry of a list, by its number from 0.
pub(crate) fn entry_at<'a>(table: &'a Table, list: MachineList, index: usize) -> Option<&'a Value>
    ensures { option_map (λ v. view v.now) result ≡ entry_at list index (table_view table.now) }
{
    value_in(entries_at(table, list_key(list)), index)
}

/// The table that an entry of a list is.
pub(crate) fn table_at<'a>(table: &'a Table, list: MachineList, index: usize) -> Option<&'a Table>
    ensures { option_map (λ t. table_view t.now) result ≡ table_at list index (table_view table.now) }
{
    match entry_at(table, list, index) {
        Some(entry) => entry.as_table(),
        None => None,
    }
}

/// Whether the value is there and no list.
pub(crate) fn is_no_list(value: Option<&Value>) -> bool
    ensures { result ≡ is_no_list (option_map (λ v. view v.now) value.entry) }
{
    match value {
        Some(value) => values_of(value).is_none(),
        None => false,
    }
}

/// Whether the value is there and no table.
pub(crate) fn is_no_table(value: Option<&Value>) -> bool
    ensures { result ≡ is_no_table (option_map (λ v. view v.now) value.entry) }
{
    match value {
        Some(value) => value.as_table().is_none(),
        None => false,
    }
}

fn natural(number: i64) -> Option<u64>
    ensures { result ≡ natural number }
{
    match u64::try_from(number) {
        Ok(natural) => Some(natural),
        Err(_) => None,
    }
}

// The number from 0 up that a value is.
fn natural_at(value: &Value) -> Option<u64>
    ensures { result ≡ natural_at (view value.now) }
{
    match value.as_integer() {
        Some(number) => natural(number),
        None => None,
    }
}

fn natural_in(table: &Table, key: &str) -> Option<u64>
    ensures { result ≡ natural_in key.now (table_view table.now) }
{
    match value_at(table, key) {
        Some(value) => natural_at(value),
        None => None,
    }
}

/// The number from 0 up at a key in an entry of a list.
pub(crate) fn number_of_entry(entry: &Value, key: &str) -> Option<u64>
    ensures { result ≡ number_of_entry key.now (view entry.now) }
{
    match entry.as_table() {
        Some(table) => natural_in(table, key),
        None => None,
    }
}

/// The same in the entry of its list, by that one's number from 0.
pub(crate) fn number_at(table: &Table, number: EntryNumber, index: usize) -> Option<u64>
    ensures { result ≡ number_at number index (table_view table.now) }
{
    match entry_at(table, number_list(number), index) {
        Some(entry) => number_of_entry(entry, number_key(number)),
        None => None,
    }
}
