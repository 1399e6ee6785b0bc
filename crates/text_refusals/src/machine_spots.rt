//! Which spots of a machine file's document the tables and values of its text show.

ghost use Rattle.std.specs.Prelude.{◌≡◌, ◌++◌, ◌∷◌, [], OnOk, map, Some, None, if◌then◌else◌};
ghost use Rattle.std.specs.Str.{bytes_eq};
ghost use Rattle.machine_file.specs.MachinePlaces.{number_key};
ghost use Rattle.machine_file.specs.Names.{file_keys};
ghost use Rattle.machine_file.specs.declared.spots.MachineList.TheVariants.{Pages};
ghost use Rattle.machine_file.specs.declared.spots.MachineSpot.TheVariants.{NoInner};
ghost use Rattle.text_refusals.specs.Courses.{key_head};
ghost use Rattle.text_refusals.specs.FileRows.{machine_spot_of, spot_of};
ghost use Rattle.text_refusals.specs.MachineSpots.{absent_spots, absent_words, entry_spots, flat_value_spots};
ghost use Rattle.text_refusals.specs.MachineSpots.{held_spots, inner_spots, inner_value_spots, missing_spots};
ghost use Rattle.text_refusals.specs.MachineSpots.{named_number, named_table, no_key_words, no_list_spots};
ghost use Rattle.text_refusals.specs.MachineSpots.{no_table_spots, number_spots, own_spots, special_spots};
ghost use Rattle.text_refusals.specs.MachineSpots.{table_spots, table_words, value_spots};
ghost use Rattle.text_refusals.specs.Outline.{key_value_of, table_of};
ghost use Rattle.text_refusals.specs.declared.asked_file.FileSpot.TheVariants.{Machine};
ghost use Rattle.text_refusals.specs.declared.file_course.FileList.TheVariants.{Tables};

use crate::asked_file::FileSpot;
use crate::course::{inner_key, key_head};
use crate::file_course::{FileCourse, FileList, entry_list, named_list, value_list};
use crate::outline::{KeyValue, OutlineTable, TableKeys};
use crate::report::put_with_key;
use machine_file::{
    EntryNumber, MACHINE_KEYS, MachineList, MachineSpot, MachineTable, Part, keys_in, number_key,
    table_key,
};
use std::alloc::AllocError;
use text_rows::put;

/// The keys of a machine file whose values are tables.
pub(crate) const MACHINE_TABLES: TableKeys = TableKeys {
    lists: &["map", "event", "word"],
    tables: &["registers", "ioc", "vidc"],
};

// The table that a word names.
fn named_table(word: &[u8]) -> Option<MachineTable>
    ensures { result ≡ named_table word.now }
{
    if word == table_key(MachineTable::Registers).as_bytes() {
        return Some(MachineTable::Registers);
    }
    if word == table_key(MachineTable::Ioc).as_bytes() {
        return Some(MachineTable::Ioc);
    }
    if word == table_key(MachineTable::Vidc).as_bytes() {
        return Some(MachineTable::Vidc);
    }
    None
}

fn put_spot<'a>(spots: &mut Vec<FileSpot<'a>>, spot: MachineSpot<'a>) -> Result<(), AllocError>
    ensures { OnOk result
        (map spot_of spots.new.items
        ≡ map spot_of spots.old.items ++ Machine (machine_spot_of spot.entry) ∷ []) }
{
    spots.push(FileSpot::Machine(spot))?;
    Ok(())
}

// Adds what a key of the table shows, if it is one.
fn put_inner_spots<'a>(
    spots: &mut Vec<FileSpot<'a>>,
    table: MachineTable,
    key: &'a [u8],
) -> Result<(), AllocError>
    ensures { OnOk result
        (map spot_of spots.new.items
        ≡ map spot_of spots.old.items ++ map Machine (inner_spots table key.now)) }
{
    if key.is_empty() {
        return Ok(());
    }
    put_spot(spots, MachineSpot::Inner(table, Part::Unknown(key)))?;
    put_spot(spots, MachineSpot::Inner(table, Part::Value(key)))
}

fn put_no_list_spots<'a>(
    spots: &mut Vec<FileSpot<'a>>,
    list: Option<FileList>,
) -> Result<(), AllocError>
    ensures { OnOk result
        (map spot_of spots.new.items
        ≡ map spot_of spots.old.items ++ map Machine (no_list_spots list)) }
{
    match list {
        Some(FileList::Tables(list)) => put_spot(spots, MachineSpot::NoList(list)),
        Some(FileList::Prices(_) | FileList::Facts) | None => Ok(()),
    }
}

// Adds what the table, or a key in it, shows.
fn put_table_key_spots<'a>(
    spots: &mut Vec<FileSpot<'a>>,
    table: MachineTable,
    key: &'a [u8],
) -> Result<(), AllocError>
    ensures { OnOk result
        (map spot_of spots.new.items
        ≡ map spot_of spots.old.items ++ map Machine (NoInner table ∷ inner_spots table key.now)) }
{
    put_spot(spots, MachineSpot::NoInner(table))?;
    put_inner_spots(spots, table, key)
}

// Adds what the key of a table or a list shows beside itself.
fn put_held_spots<'a>(spots: &mut Vec<FileSpot<'a>>, key: &'a [u8]) -> Result<(), AllocError>
    ensures { OnOk result
        (map spot_of spots.new.items
        ≡ map spot_of spots.old.items ++ map Machine (held_spots (named_table (key_head key.now)) key.now)) }
{
    let head = key_head(key);
    match named_table(head) {
        Some(table) => put_table_key_spots(spots, table, inner_key(key)),
        None => put_no_list_spots(spots, named_list(head)),
    }
}

// Adds what a key of the file shows beside itself.
fn put_special_spots<'a>(spots: &mut Vec<FileSpot<'a>>, key: &'a [u8]) -> Result<(), AllocError>
    ensures { OnOk result
        (map spot_of spots.new.items
        ≡ map spot_of spots.old.items ++ map Machine (special_spots key.now)) }
{
    if key_head(key) == b"flags".as_slice() {
        return put_spot(spots, MachineSpot::FlagTwice);
    }
    put_held_spots(spots, key)
}

// Adds what a key of the file itself shows.
fn put_own_spots<'a>(spots: &mut Vec<FileSpot<'a>>, key: &'a [u8]) -> Result<(), AllocError>
    ensures { OnOk result
        (map spot_of spots.new.items
        ≡ map spot_of spots.old.items ++ map Machine (own_spots key.now)) }
{
    let head = key_head(key);
    put_spot(spots, MachineSpot::Own(Part::Unknown(head)))?;
    put_spot(spots, MachineSpot::Own(Part::Value(head)))?;
    put_special_spots(spots, key)
}

// The number of a mapped page that is at the key.
fn named_page_number(word: &[u8]) -> Option<EntryNumber>
    ensures { result ≡ named_number Pages word.now }
{
    if word == number_key(EntryNumber::Logical).as_bytes() {
        return Some(EntryNumber::Logical);
    }
    if word == number_key(EntryNumber::Physical).as_bytes() {
        return Some(EntryNumber::Physical);
    }
    if word == number_key(EntryNumber::Level).as_bytes() {
        return Some(EntryNumber::Level);
    }
    None
}

// The number, if it is at the key.
fn number_if_named(number: EntryNumber, word: &[u8]) -> Option<EntryNumber>
    ensures { result ≡ (if bytes_eq word.now (number_key number) then Some number else None) }
{
    if word == number_key(number).as_bytes() {
        return Some(number);
    }
    None
}

// The number that is at the key, in the tables of the list.
fn named_number(list: MachineList, word: &[u8]) -> Option<EntryNumber>
    ensures { result ≡ named_number list word.now }
{
    match list {
        MachineList::Pages => named_page_number(word),
        MachineList::Events => number_if_named(EntryNumber::Step, word),
        MachineList::Words => number_if_named(EntryNumber::Address, word),
    }
}

fn put_number_spots<'a>(
    spots: &mut Vec<FileSpot<'a>>,
    index: usize,
    number: Option<EntryNumber>,
) -> Result<(), AllocError>
    ensures { OnOk result
        (map spot_of spots.new.items
        ≡ map spot_of spots.old.items ++ map Machine (number_spots index number)) }
{
    let Some(number) = number else {
        return Ok(());
    };
    put_spot(spots, MachineSpot::Unmappable(number, index))?;
    put_spot(spots, MachineSpot::Second(number, index))
}

// Adds what a key of the entry of the list with the number shows.
fn put_listed_spots<'a>(
    spots: &mut Vec<FileSpot<'a>>,
    list: MachineList,
    index: usize,
    key: &'a [u8],
) -> Result<(), AllocError>
    ensures { OnOk result
        (map spot_of spots.new.items
        ≡ map spot_of spots.old.items ++ map Machine (entry_spots (Some (Tables list, index)) key.now)) }
{
    put_spot(spots, MachineSpot::Listed(list, index, Part::Unknown(key)))?;
    put_spot(spots, MachineSpot::Listed(list, index, Part::Value(key)))?;
    put_number_spots(spots, index, named_number(list, key))
}

// Adds what a key of the entry shows.
fn put_entry_spots<'a>(
    spots: &mut Vec<FileSpot<'a>>,
    entry: Option<(FileList, usize)>,
    key: &'a [u8],
) -> Result<(), AllocError>
    ensures { OnOk result
        (map spot_of spots.new.items
        ≡ map spot_of spots.old.items ++ map Machine (entry_spots entry key.now)) }
{
    match entry {
        Some((FileList::Tables(list), index)) => put_listed_spots(spots, list, index, key),
        Some((FileList::Prices(_) | FileList::Facts, _)) | None => Ok(()),
    }
}

// Adds keys that the entry of the list has not.
fn put_missing_spots(
    spots: &mut Vec<FileSpot<'_>>,
    list: MachineList,
    index: usize,
    keys: &'static [&'static str],
) -> Result<(), AllocError>
    ensures { OnOk result
        (map spot_of spots.new.items
        ≡ map spot_of spots.old.items
        ++ map Machine (missing_spots list index (map (λ k. k.now) keys.now))) }
{
    for key in keys {
        put_spot(
            spots,
            MachineSpot::Listed(list, index, Part::Missing(key.as_bytes())),
        )?;
    }
    Ok(())
}

// Adds that an entry is no table.
fn put_no_table_spots(
    spots: &mut Vec<FileSpot<'_>>,
    course: &FileCourse,
    list: Option<FileList>,
) -> Result<(), AllocError>
    ensures { OnOk result
        (map spot_of spots.new.items
        ≡ map spot_of spots.old.items ++ map Machine (no_table_spots course.now list)) }
{
    match list {
        Some(FileList::Tables(list)) => {
            let index = course.begun(FileList::Tables(list));
            put_spot(spots, MachineSpot::NoTable(list, index))
        }
        Some(FileList::Prices(_) | FileList::Facts) | None => Ok(()),
    }
}

// Adds what a value in a table of the file shows.
fn put_inner_value_spots<'a>(
    spots: &mut Vec<FileSpot<'a>>,
    course: &FileCourse,
    pair: &KeyValue<'a>,
) -> Result<(), AllocError>
    ensures { OnOk result
        (map spot_of spots.new.items
        ≡ map spot_of spots.old.items
        ++ map Machine (inner_value_spots course.now (key_value_of pair.now))) }
{
    match named_table(pair.list) {
        Some(table) => put_inner_spots(spots, table, key_head(pair.key)),
        None => put_entry_spots(spots, course.entry, key_head(pair.key)),
    }
}

// Adds what a value in no array shows.
fn put_flat_value_spots<'a>(
    spots: &mut Vec<FileSpot<'a>>,
    course: &FileCourse,
    pair: &KeyValue<'a>,
) -> Result<(), AllocError>
    ensures { OnOk result
        (map spot_of spots.new.items
        ≡ map spot_of spots.old.items
        ++ map Machine (flat_value_spots course.now (key_value_of pair.now))) }
{
    if pair.list.is_empty() {
        return put_own_spots(spots, pair.key);
    }
    put_inner_value_spots(spots, course, pair)
}

/// Adds what a value shows.
pub(crate) fn put_value_spots<'a>(
    spots: &mut Vec<FileSpot<'a>>,
    course: &FileCourse,
    pair: &KeyValue<'a>,
) -> Result<(), AllocError>
    ensures { OnOk result
        (map spot_of spots.new.items
        ≡ map spot_of spots.old.items ++ map Machine (value_spots course.now (key_value_of pair.now))) }
{
    if pair.depth == 0 {
        return put_flat_value_spots(spots, course, pair);
    }
    put_no_table_spots(spots, course, value_list(pair))
}

/// Adds what a table shows.
pub(crate) fn put_table_spots<'a>(
    spots: &mut Vec<FileSpot<'a>>,
    course: &FileCourse,
    table: &OutlineTable<'a>,
) -> Result<(), AllocError>
    ensures { OnOk result
        (map spot_of spots.new.items
        ≡ map spot_of spots.old.items ++ map Machine (table_spots course.now (table_of table.now))) }
{
    match entry_list(table) {
        Some(FileList::Tables(list)) => {
            let index = course.begun(FileList::Tables(list));
            put_missing_spots(spots, list, index, keys_in(list))
        }
        Some(FileList::Prices(_) | FileList::Facts) | None => put_own_spots(spots, table.name),
    }
}

// Adds keys that the file has not.
fn put_absent(
    spots: &mut Vec<FileSpot<'_>>,
    keys: &'static [&'static str],
) -> Result<(), AllocError>
    ensures { OnOk result
        (map spot_of spots.new.items
        ≡ map spot_of spots.old.items ++ map Machine (absent_spots (map (λ k. k.now) keys.now))) }
{
    for key in keys {
        put_spot(spots, MachineSpot::Own(Part::Missing(key.as_bytes())))?;
    }
    Ok(())
}

/// Adds each key of a file, which it may lack.
pub(crate) fn put_absent_spots(spots: &mut Vec<FileSpot<'_>>) -> Result<(), AllocError>
    ensures { OnOk result
        (map spot_of spots.new.items
        ≡ map spot_of spots.old.items ++ map Machine (absent_spots file_keys)) }
{
    put_absent(spots, MACHINE_KEYS)
}

// That the table has no such key.
fn no_key_words(table: MachineTable) -> &'static [u8]
    ensures { result.now ≡ no_key_words table }
{
    match table {
        MachineTable::Registers => b" is no register",
        MachineTable::Ioc => b" is no key of ioc",
        MachineTable::Vidc => b" is no key of vidc",
    }
}

/// Adds what is said of a table that shows the spot.
pub(crate) fn put_table_words(out: &mut Vec<u8>, spot: MachineSpot<'_>) -> Result<(), AllocError>
    ensures { OnOk result (out.new.items ≡ out.old.items ++ table_words (machine_spot_of spot.entry)) }
{
    match spot {
        MachineSpot::Own(Part::Unknown(_)) => put(out, b" is no table of machine files"),
        MachineSpot::Own(Part::Value(_)) => put(out, b" may be no table"),
        MachineSpot::Inner(table, Part::Unknown(_)) => put(out, no_key_words(table)),
        MachineSpot::Inner(_, Part::Value(_)) => put(out, b" may be no table"),
        MachineSpot::NoInner(_) => put(out, b" has to be in single brackets"),
        MachineSpot::NoList(_) => put(out, b" has to be in double brackets"),
        MachineSpot::Listed(_, _, Part::Missing(key)) => put_with_key(out, b" has no ", key),
        _ => Ok(()),
    }
}

/// Adds what is said of the file, which lacks the spot's key.
pub(crate) fn put_absent_words(out: &mut Vec<u8>, spot: MachineSpot<'_>) -> Result<(), AllocError>
    ensures { OnOk result (out.new.items ≡ out.old.items ++ absent_words (machine_spot_of spot.entry)) }
{
    match spot {
        MachineSpot::Own(Part::Missing(key)) => {
            put_with_key(out, b"the machine file has no ", key)
        }
        _ => Ok(()),
    }
}
