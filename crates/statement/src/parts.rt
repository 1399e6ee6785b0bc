ghost use Rattle.std.specs.Prelude.{◌≡◌, is_some, map, option_map};
ghost use Rattle.std.specs.List.{slice_get};
ghost use Rattle.toml.specs.Data.{get_member};
ghost use Rattle.toml.specs.View.{table_view, view};
ghost use Rattle.toml_reading.specs.Lowest.{entries_at};
ghost use Rattle.image.specs.Labels.{address_of};
ghost use Rattle.statement.specs.PlaceTests.{access_key_gives, branch_key_gives, destination_gives};
ghost use Rattle.statement.specs.PlaceTests.{are_reversed, end_gives, ends_early, is_no_stretch};
ghost use Rattle.statement.specs.PlaceTests.{entry_at, gives, goes_on, has_no_destinations, is_no_list};
ghost use Rattle.statement.specs.PlaceTests.{is_no_table, is_outside, is_reversed, is_same, is_too_long};
ghost use Rattle.statement.specs.PlaceTests.{stretch_ends, stretch_entry};
ghost use Rattle.statement.specs.PlaceTests.{is_unwanted, key_gives, kind_goes, lies_outside, loop_key_gives};
ghost use Rattle.statement.specs.PlaceTests.{multiply_key_gives, own_key_gives, part_gives, rule_key_gives};
ghost use Rattle.statement.specs.PlaceTests.{stays, table_at, target_key_gives};
ghost use Rattle.statement.specs.Places.{has_destinations};

use crate::apart::ApartWords;
use crate::entries::{MOST_DESTINATIONS, address_at, address_in, class_in, kind_in};
use crate::facts::{cycles_in, first_in, last_in, pair_at, register_in, taken_in};
use crate::faults::{Read, StatementFault};
use crate::reading::{leave_in, returns_in};
use crate::spots::{Key, Part, TableList, key_name, keys_of, list_key};
use crate::stated::TargetKind;
use image::Labels;
use toml::{Table, Value};
use toml_reading::{Fault, is_one_of, number_in, value_at, values_of};
use walks::MOST_ROUNDS;

/// Whether the two are one fault.
pub(crate) fn is_same(found: StatementFault, fault: StatementFault) -> bool
    ensures { result ≡ is_same found fault }
{
    found.rank() == fault.rank()
}

// Whether what is read is the fault.
fn gives<T: Drop>(reading: Read<T>, fault: StatementFault) -> bool
    ensures { result ≡ gives reading fault }
{
    match reading {
        Ok(_) => false,
        Err(found) => is_same(found, fault),
    }
}

/// The values of the list at a key, none where there is no list.
pub(crate) fn entries_at<'a>(table: &'a Table, key: &str) -> &'a [Value]
    ensures { map view result.now ≡ entries_at key.now (table_view table.now) }
{
    match value_at(table, key) {
        Some(value) => match values_of(value) {
            Some(values) => values,
            None => &[],
        },
        None => &[],
    }
}

/// The entry of a list, by its number from 0.
pub(crate) fn entry_at<'a>(table: &'a Table, list: TableList, index: usize) -> Option<&'a Value>
    ensures { option_map (λ v. view v.now) result ≡ entry_at list index (table_view table.now) }
{
    value_in(entries_at(table, list_key(list)), index)
}

fn value_in(values: &[Value], index: usize) -> Option<&Value>
    ensures { option_map (λ v. view v.now) result ≡ slice_get (map view values.now) index }
{
    values.get(index)
}

/// The table that an entry of a list is.
pub(crate) fn table_at<'a>(table: &'a Table, list: TableList, index: usize) -> Option<&'a Table>
    ensures { option_map (λ t. table_view t.now) result ≡ table_at list index (table_view table.now) }
{
    match entry_at(table, list, index) {
        Some(entry) => entry.as_table(),
        None => None,
    }
}

/// Whether the value is there and no list.
pub(crate) fn is_no_list(value: Option<&Value>) -> bool
    ensures { result ≡ is_no_list (option_map (λ v. view v.now) value.entry) }
{
    match value {
        Some(value) => values_of(value).is_none(),
        None => false,
    }
}

/// Whether the value is there and no table.
pub(crate) fn is_no_table(value: Option<&Value>) -> bool
    ensures { result ≡ is_no_table (option_map (λ v. view v.now) value.entry) }
{
    match value {
        Some(value) => value.as_table().is_none(),
        None => false,
    }
}

fn has_destinations(kind: TargetKind) -> bool
    ensures { result ≡ has_destinations kind }
{
    match kind {
        TargetKind::Jump | TargetKind::Call => true,
        TargetKind::Return | TargetKind::Leave => false,
    }
}

// Whether the table's kind goes to destinations, if it is known.
fn kind_goes(table: &Table) -> Option<bool>
    ensures { result ≡ kind_goes (table_view table.now) }
{
    match kind_in(table) {
        Ok(kind) => Some(has_destinations(kind)),
        Err(_) => None,
    }
}

/// Whether the table is of a jump or a call.
pub(crate) fn goes_on(table: &Table) -> bool
    ensures { result ≡ goes_on (table_view table.now) }
{
    kind_goes(table).unwrap_or(false)
}

// Whether the table is of a return or a leave.
fn stays(table: &Table) -> bool
    ensures { result ≡ stays (table_view table.now) }
{
    !kind_goes(table).unwrap_or(true)
}

/// Whether the table has destinations and may have none.
pub(crate) fn is_unwanted(table: &Table) -> bool
    ensures { result ≡ is_unwanted (table_view table.now) }
{
    stays(table) && value_at(table, "to").is_some()
}

/// Whether the table has more destinations than it may have.
pub(crate) fn is_too_long(table: &Table) -> bool
    ensures { result ≡ is_too_long (table_view table.now) }
{
    goes_on(table) && MOST_DESTINATIONS < entries_at(table, "to").len()
}

// Whether the table has to have destinations and has none.
fn has_no_destinations(table: &Table) -> bool
    ensures { result ≡ has_no_destinations (table_view table.now) }
{
    goes_on(table) && entries_at(table, "to").is_empty()
}

fn lies_outside(apart: &ApartWords, first: Read<u32>, last: Read<u32>, header: Read<u32>) -> bool
    ensures { result ≡ lies_outside apart.now first last header }
{
    let Ok(first) = first else {
        return false;
    };
    let Ok(last) = last else {
        return false;
    };
    let Ok(header) = header else {
        return false;
    };
    !apart.may_stand(first, header, last)
}

/// Whether the words of a loop may not be a loop's, by what is apart.
pub(crate) fn is_outside(labels: &Labels, table: &Table, apart: &ApartWords) -> bool
    ensures { result ≡ is_outside (address_of labels.now) apart.now (table_view table.now) }
{
    let first = address_in(labels, table, "first");
    let last = address_in(labels, table, "last");
    lies_outside(apart, first, last, address_in(labels, table, "header"))
}

/// The entry of `apart`, by its number from 0.
pub(crate) fn stretch_entry(table: &Table, index: usize) -> Option<&Value>
    ensures { option_map (λ v. view v.now) result ≡ stretch_entry index (table_view table.now) }
{
    value_in(entries_at(table, "apart"), index)
}

/// Whether the value is there and no list of two.
pub(crate) fn is_no_stretch(value: Option<&Value>) -> bool
    ensures { result ≡ is_no_stretch (option_map (λ v. view v.now) value.entry) }
{
    match value {
        Some(value) => pair_at(value).is_none(),
        None => false,
    }
}

/// The values of an entry of `apart` that is a list of two.
pub(crate) fn stretch_ends(table: &Table, index: usize) -> Option<(&Value, &Value)>
    ensures { option_map (λ ends. (view ends.0.now, view ends.1.now)) result
        ≡ stretch_ends index (table_view table.now) }
{
    match stretch_entry(table, index) {
        Some(entry) => pair_at(entry),
        None => None,
    }
}

/// Whether the first or the last address of a stretch has the fault, by its number 0 or 1.
pub(crate) fn end_gives(
    labels: &Labels,
    ends: (&Value, &Value),
    index: usize,
    fault: StatementFault,
) -> bool
    ensures { result
        ≡ end_gives (address_of labels.now) index (view ends.entry.0.now, view ends.entry.1.now) fault }
{
    let (first, last) = ends;
    match index {
        0 => gives(address_at(labels, first), fault),
        1 => gives(address_at(labels, last), fault),
        _ => false,
    }
}

fn ends_early(first: Read<u32>, last: Read<u32>) -> bool
    ensures { result ≡ ends_early first last }
{
    let Ok(first) = first else {
        return false;
    };
    match last {
        Ok(last) => last < first,
        Err(_) => false,
    }
}

/// Whether the last address of a stretch lies before its first.
pub(crate) fn are_reversed(labels: &Labels, first: &Value, last: &Value) -> bool
    ensures { result ≡ are_reversed (address_of labels.now) (view first.now, view last.now) }
{
    ends_early(address_at(labels, first), address_at(labels, last))
}

/// Whether the last address of a rule lies before its first.
pub(crate) fn is_reversed(labels: &Labels, table: &Table) -> bool
    ensures { result ≡ is_reversed (address_of labels.now) (table_view table.now) }
{
    ends_early(first_in(labels, table), last_in(labels, table))
}

fn own_key_gives(labels: &Labels, table: &Table, key: Key, fault: StatementFault) -> bool
    ensures { result ≡ own_key_gives (address_of labels.now) key (table_view table.now) fault }
{
    match key {
        Key::Entry => gives(address_in(labels, table, "entry"), fault),
        Key::Leave => gives(leave_in(table), fault),
        Key::Returns => gives(returns_in(table), fault),
        _ => false,
    }
}

fn loop_key_gives(labels: &Labels, table: &Table, key: Key, fault: StatementFault) -> bool
    ensures { result ≡ loop_key_gives (address_of labels.now) key (table_view table.now) fault }
{
    match key {
        Key::Header => gives(address_in(labels, table, "header"), fault),
        Key::First => gives(address_in(labels, table, "first"), fault),
        Key::Last => gives(address_in(labels, table, "last"), fault),
        Key::Bound => gives(number_in(table, "bound", MOST_ROUNDS), fault),
        _ => false,
    }
}

fn target_key_gives(labels: &Labels, table: &Table, key: Key, fault: StatementFault) -> bool
    ensures { result ≡ target_key_gives (address_of labels.now) key (table_view table.now) fault }
{
    match key {
        Key::At => gives(address_in(labels, table, "at"), fault),
        Key::Kind => gives(kind_in(table), fault),
        Key::To => is_same(StatementFault::WrongKind, fault) && has_no_destinations(table),
        _ => false,
    }
}

fn access_key_gives(labels: &Labels, table: &Table, key: Key, fault: StatementFault) -> bool
    ensures { result ≡ access_key_gives (address_of labels.now) key (table_view table.now) fault }
{
    match key {
        Key::At => gives(address_in(labels, table, "at"), fault),
        Key::Class => gives(class_in(table), fault),
        _ => false,
    }
}

fn rule_key_gives(labels: &Labels, table: &Table, key: Key, fault: StatementFault) -> bool
    ensures { result ≡ rule_key_gives (address_of labels.now) key (table_view table.now) fault }
{
    match key {
        Key::Register => gives(register_in(table), fault),
        Key::Class => gives(class_in(table), fault),
        Key::First => gives(first_in(labels, table), fault),
        Key::Last => gives(last_in(labels, table), fault),
        _ => false,
    }
}

fn multiply_key_gives(labels: &Labels, table: &Table, key: Key, fault: StatementFault) -> bool
    ensures { result ≡ multiply_key_gives (address_of labels.now) key (table_view table.now) fault }
{
    match key {
        Key::At => gives(address_in(labels, table, "at"), fault),
        Key::Cycles => gives(cycles_in(table), fault),
        _ => false,
    }
}

fn branch_key_gives(labels: &Labels, table: &Table, key: Key, fault: StatementFault) -> bool
    ensures { result ≡ branch_key_gives (address_of labels.now) key (table_view table.now) fault }
{
    match key {
        Key::At => gives(address_in(labels, table, "at"), fault),
        Key::Taken => gives(taken_in(table), fault),
        _ => false,
    }
}

// Whether what is at a key of a table of the list, or that nothing is, has the fault.
fn key_gives(
    labels: &Labels,
    list: Option<TableList>,
    table: &Table,
    key: Key,
    fault: StatementFault,
) -> bool
    ensures { result ≡ key_gives (address_of labels.now) list key (table_view table.now) fault }
{
    match list {
        None => own_key_gives(labels, table, key, fault),
        Some(TableList::Loops) => loop_key_gives(labels, table, key, fault),
        Some(TableList::Targets) => target_key_gives(labels, table, key, fault),
        Some(TableList::Accesses) => access_key_gives(labels, table, key, fault),
        Some(TableList::Rules) => rule_key_gives(labels, table, key, fault),
        Some(TableList::Multiplies) => multiply_key_gives(labels, table, key, fault),
        Some(TableList::Branches) => branch_key_gives(labels, table, key, fault),
    }
}

fn has(table: &Table, key: &str) -> bool
    ensures { result ≡ is_some (get_member key.now (table_view table.now)) }
{
    value_at(table, key).is_some()
}

fn has_name(table: &Table, name: &[u8]) -> bool
    ensures { result ≡ is_some (get_member name.now (table_view table.now)) }
{
    match str::from_utf8(name) {
        Ok(key) => has(table, key),
        Err(_) => false,
    }
}

/// Whether the part of a table of the list, or of the statement itself, has the fault.
pub(crate) fn part_gives(
    labels: &Labels,
    list: Option<TableList>,
    table: &Table,
    part: Part<'_>,
    fault: StatementFault,
) -> bool
    ensures { result
        ≡ part_gives (address_of labels.now) list part.entry (table_view table.now) fault }
{
    match part {
        Part::Unknown(key) => {
            is_same(StatementFault::UnknownKey, fault)
                && has_name(table, key)
                && !is_one_of(keys_of(list), key)
        }
        Part::Value(key) => has(table, key_name(key)) && key_gives(labels, list, table, key, fault),
        Part::Missing(key) => {
            !has(table, key_name(key)) && key_gives(labels, list, table, key, fault)
        }
    }
}

/// Whether a destination of the table has the fault.
pub(crate) fn destination_gives(
    labels: &Labels,
    table: &Table,
    index: usize,
    fault: StatementFault,
) -> bool
    ensures { result
        ≡ destination_gives (address_of labels.now) index (table_view table.now) fault }
{
    match value_in(entries_at(table, "to"), index) {
        Some(value) => goes_on(table) && gives(address_at(labels, value), fault),
        None => false,
    }
}
