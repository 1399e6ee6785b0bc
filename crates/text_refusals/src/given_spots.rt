//! Which spots of the document of a file of facts the tables and values of its text show.

ghost use Rattle.std.specs.Prelude.{◌≡◌, ◌++◌, ◌∷◌, [], OnOk, Some, map};
ghost use Rattle.text_refusals.specs.FileRows.{given_spot_of, spot_of};
ghost use Rattle.text_refusals.specs.GivenSpots.{all_keys, fact_spots, flat_value_spots, missing_spots};
ghost use Rattle.text_refusals.specs.GivenSpots.{no_list_spots, no_table_spots, own_spots, special_spots};
ghost use Rattle.text_refusals.specs.GivenSpots.{table_spots, table_words, value_spots, value_words};
ghost use Rattle.text_refusals.specs.Outline.{key_value_of, table_of};
ghost use Rattle.text_refusals.specs.declared.asked_file.FileSpot.TheVariants.{Given};
ghost use Rattle.text_refusals.specs.declared.file_course.FileList.TheVariants.{Facts};

use crate::asked_file::FileSpot;
use crate::course::key_head;
use crate::file_course::{FileCourse, FileList, entry_list, named_list, value_list};
use crate::outline::{KeyValue, OutlineTable, TableKeys};
use crate::report::put_with_key;
use given_facts::GivenSpot;
use machine_file::Part;
use std::alloc::AllocError;
use text_rows::put;

/// The key of a file of facts whose value is a list of tables.
pub(crate) const GIVEN_TABLES: TableKeys = TableKeys {
    lists: &["given"],
    tables: &[],
};

// The keys that a fact may lack.
const ALL_KEYS: &[&str] = &["register", "value", "from", "to"];

fn put_spot<'a>(spots: &mut Vec<FileSpot<'a>>, spot: GivenSpot<'a>) -> Result<(), AllocError>
    ensures { OnOk result
        (map spot_of spots.new.items
        ≡ map spot_of spots.old.items ++ Given (given_spot_of spot.entry) ∷ []) }
{
    spots.push(FileSpot::Given(spot))?;
    Ok(())
}

fn put_no_list_spots<'a>(
    spots: &mut Vec<FileSpot<'a>>,
    list: Option<FileList>,
) -> Result<(), AllocError>
    ensures { OnOk result
        (map spot_of spots.new.items
        ≡ map spot_of spots.old.items ++ map Given (no_list_spots list)) }
{
    match list {
        Some(FileList::Facts) => put_spot(spots, GivenSpot::NoList),
        Some(FileList::Tables(_) | FileList::Prices(_)) | None => Ok(()),
    }
}

// Adds what a key of the file itself shows.
fn put_own_spots<'a>(spots: &mut Vec<FileSpot<'a>>, key: &'a [u8]) -> Result<(), AllocError>
    ensures { OnOk result
        (map spot_of spots.new.items
        ≡ map spot_of spots.old.items ++ map Given (own_spots key.now)) }
{
    let head = key_head(key);
    put_spot(spots, GivenSpot::Unknown(head))?;
    put_no_list_spots(spots, named_list(head))
}

// Adds what a key of the fact with the number shows beside itself.
fn put_special_spots(
    spots: &mut Vec<FileSpot<'_>>,
    index: usize,
    key: &[u8],
) -> Result<(), AllocError>
    ensures { OnOk result
        (map spot_of spots.new.items
        ≡ map spot_of spots.old.items ++ map Given (special_spots index key.now)) }
{
    if key == b"register".as_slice() {
        return put_spot(spots, GivenSpot::Second(index));
    }
    if key == b"from".as_slice() {
        return put_spot(spots, GivenSpot::Disordered(index));
    }
    Ok(())
}

// Adds what a key of the fact with the number shows.
fn put_listed_spots<'a>(
    spots: &mut Vec<FileSpot<'a>>,
    index: usize,
    key: &'a [u8],
) -> Result<(), AllocError>
    ensures { OnOk result
        (map spot_of spots.new.items
        ≡ map spot_of spots.old.items ++ map Given (fact_spots (Some (Facts, index)) key.now)) }
{
    put_spot(spots, GivenSpot::Fact(index, Part::Unknown(key)))?;
    put_spot(spots, GivenSpot::Fact(index, Part::Value(key)))?;
    put_special_spots(spots, index, key)
}

// Adds what a key of the entry shows.
fn put_fact_spots<'a>(
    spots: &mut Vec<FileSpot<'a>>,
    entry: Option<(FileList, usize)>,
    key: &'a [u8],
) -> Result<(), AllocError>
    ensures { OnOk result
        (map spot_of spots.new.items
        ≡ map spot_of spots.old.items ++ map Given (fact_spots entry key.now)) }
{
    match entry {
        Some((FileList::Facts, index)) => put_listed_spots(spots, index, key),
        Some((FileList::Tables(_) | FileList::Prices(_), _)) | None => Ok(()),
    }
}

// Adds keys that the fact with the number may lack.
fn put_missing_spots(
    spots: &mut Vec<FileSpot<'_>>,
    index: usize,
    keys: &'static [&'static str],
) -> Result<(), AllocError>
    ensures { OnOk result
        (map spot_of spots.new.items
        ≡ map spot_of spots.old.items
        ++ map Given (missing_spots index (map (λ k. k.now) keys.now))) }
{
    for key in keys {
        put_spot(spots, GivenSpot::Fact(index, Part::Missing(key.as_bytes())))?;
    }
    Ok(())
}

// Adds each key, which the fact with the number may lack.
fn put_lacking_spots(spots: &mut Vec<FileSpot<'_>>, index: usize) -> Result<(), AllocError>
    ensures { OnOk result
        (map spot_of spots.new.items
        ≡ map spot_of spots.old.items ++ map Given (missing_spots index all_keys)) }
{
    put_missing_spots(spots, index, ALL_KEYS)
}

// Adds that an entry is no table.
fn put_no_table_spots(
    spots: &mut Vec<FileSpot<'_>>,
    course: &FileCourse,
    list: Option<FileList>,
) -> Result<(), AllocError>
    ensures { OnOk result
        (map spot_of spots.new.items
        ≡ map spot_of spots.old.items ++ map Given (no_table_spots course.now list)) }
{
    match list {
        Some(FileList::Facts) => put_spot(spots, GivenSpot::NoTable(course.begun(FileList::Facts))),
        Some(FileList::Tables(_) | FileList::Prices(_)) | None => Ok(()),
    }
}

// Adds what a value in no array shows.
fn put_flat_value_spots<'a>(
    spots: &mut Vec<FileSpot<'a>>,
    course: &FileCourse,
    pair: &KeyValue<'a>,
) -> Result<(), AllocError>
    ensures { OnOk result
        (map spot_of spots.new.items
        ≡ map spot_of spots.old.items
        ++ map Given (flat_value_spots course.now (key_value_of pair.now))) }
{
    if pair.list.is_empty() {
        return put_own_spots(spots, pair.key);
    }
    put_fact_spots(spots, course.entry, key_head(pair.key))
}

/// Adds what a value shows.
pub(crate) fn put_value_spots<'a>(
    spots: &mut Vec<FileSpot<'a>>,
    course: &FileCourse,
    pair: &KeyValue<'a>,
) -> Result<(), AllocError>
    ensures { OnOk result
        (map spot_of spots.new.items
        ≡ map spot_of spots.old.items ++ map Given (value_spots course.now (key_value_of pair.now))) }
{
    if pair.depth == 0 {
        return put_flat_value_spots(spots, course, pair);
    }
    put_no_table_spots(spots, course, value_list(pair))
}

/// Adds what a table shows.
pub(crate) fn put_table_spots<'a>(
    spots: &mut Vec<FileSpot<'a>>,
    course: &FileCourse,
    table: &OutlineTable<'a>,
) -> Result<(), AllocError>
    ensures { OnOk result
        (map spot_of spots.new.items
        ≡ map spot_of spots.old.items ++ map Given (table_spots course.now (table_of table.now))) }
{
    match entry_list(table) {
        Some(FileList::Facts) => put_lacking_spots(spots, course.begun(FileList::Facts)),
        Some(FileList::Tables(_) | FileList::Prices(_)) | None => put_own_spots(spots, table.name),
    }
}

/// Adds what is said of a value that shows the spot.
pub(crate) fn put_value_words(out: &mut Vec<u8>, spot: GivenSpot<'_>) -> Result<(), AllocError>
    ensures { OnOk result (out.new.items ≡ out.old.items ++ value_words (given_spot_of spot.entry)) }
{
    match spot {
        GivenSpot::Disordered(_) => put(out, b" is above to"),
        _ => Ok(()),
    }
}

/// Adds what is said of a table that shows the spot.
pub(crate) fn put_table_words(out: &mut Vec<u8>, spot: GivenSpot<'_>) -> Result<(), AllocError>
    ensures { OnOk result (out.new.items ≡ out.old.items ++ table_words (given_spot_of spot.entry)) }
{
    match spot {
        GivenSpot::Unknown(_) => put(out, b" is no table of facts"),
        GivenSpot::NoList => put(out, b" has to be in double brackets"),
        GivenSpot::Fact(_, Part::Missing(key)) => put_with_key(out, b" has no ", key),
        _ => Ok(()),
    }
}
