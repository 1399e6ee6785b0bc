//! Which spots of a cycle profile's document the tables and values of its text show.

ghost use Rattle.std.specs.Prelude.{◌≡◌, ◌<◌, ◌++◌, ◌∷◌, [], OnOk, map};
ghost use Rattle.machine_file.specs.ProfileFile.{profile_keys};
ghost use Rattle.text_refusals.specs.FileRows.{profile_spot_of, spot_of};
ghost use Rattle.text_refusals.specs.Outline.{key_value_of, table_of};
ghost use Rattle.text_refusals.specs.ProfileSpots.{absent_spots, absent_words, entry_spots, first_price};
ghost use Rattle.text_refusals.specs.ProfileSpots.{four_spots};
ghost use Rattle.text_refusals.specs.ProfileSpots.{named_order, named_price, order_spots, order_words};
ghost use Rattle.text_refusals.specs.ProfileSpots.{own_spots, own_value_spots, price_spots, table_spots};
ghost use Rattle.text_refusals.specs.ProfileSpots.{table_words};
ghost use Rattle.text_refusals.specs.ProfileSpots.{value_spots, value_words};
ghost use Rattle.text_refusals.specs.declared.asked_file.FileSpot.TheVariants.{Profile};

use crate::asked_file::FileSpot;
use crate::course::key_head;
use crate::file_course::{FileCourse, FileList, entry_list, value_list};
use crate::outline::{KeyValue, OutlineTable, TableKeys};
use crate::report::put_with_key;
use machine_file::{PROFILE_KEYS, Part, PriceList, PriceOrder, ProfileSpot};
use std::alloc::AllocError;
use text_rows::put;

/// No value of a cycle profile is a table.
pub(crate) const PROFILE_TABLES: TableKeys = TableKeys {
    lists: &[],
    tables: &[],
};

fn put_spot<'a>(spots: &mut Vec<FileSpot<'a>>, spot: ProfileSpot<'a>) -> Result<(), AllocError>
    ensures { OnOk result
        (map spot_of spots.new.items
        ≡ map spot_of spots.old.items ++ Profile (profile_spot_of spot.entry) ∷ []) }
{
    spots.push(FileSpot::Profile(spot))?;
    Ok(())
}

// The place of the price at the key, in the order of a profile's fields, but for those of lists.
fn named_price(word: &[u8]) -> Option<usize>
    ensures { result ≡ named_price word.now }
{
    if word == b"n".as_slice() {
        return Some(0);
    }
    if word == b"s".as_slice() {
        return Some(1);
    }
    if word == b"quad".as_slice() {
        return Some(2);
    }
    if word == b"control".as_slice() {
        return Some(11);
    }
    if word == b"unfitted".as_slice() {
        return Some(12);
    }
    if word == b"internal".as_slice() {
        return Some(13);
    }
    if word == b"burst".as_slice() {
        return Some(14);
    }
    None
}

// The place of the first price of the list.
fn first_price(list: PriceList) -> usize
    ensures place { result ≡ first_price list }
    ensures low { result < 8 }
{
    match list {
        PriceList::Rom => 3,
        PriceList::Io => 7,
    }
}

// The order that the price at the key is the lesser of.
fn named_order(word: &[u8]) -> Option<PriceOrder>
    ensures { result ≡ named_order word.now }
{
    if word == b"s".as_slice() {
        return Some(PriceOrder::SByQuad);
    }
    if word == b"quad".as_slice() {
        return Some(PriceOrder::QuadByN);
    }
    if word == b"n".as_slice() {
        return Some(PriceOrder::NByDevices);
    }
    if word == b"rom".as_slice() {
        return Some(PriceOrder::RomByDevices);
    }
    if word == b"control".as_slice() {
        return Some(PriceOrder::ControlByDevices);
    }
    None
}

fn put_price_spots(spots: &mut Vec<FileSpot<'_>>, index: Option<usize>) -> Result<(), AllocError>
    ensures { OnOk result
        (map spot_of spots.new.items ≡ map spot_of spots.old.items ++ map Profile (price_spots index)) }
{
    match index {
        Some(index) => put_spot(spots, ProfileSpot::Price(index)),
        None => Ok(()),
    }
}

fn put_order_spots(
    spots: &mut Vec<FileSpot<'_>>,
    order: Option<PriceOrder>,
) -> Result<(), AllocError>
    ensures { OnOk result
        (map spot_of spots.new.items ≡ map spot_of spots.old.items ++ map Profile (order_spots order)) }
{
    match order {
        Some(order) => put_spot(spots, ProfileSpot::Disordered(order)),
        None => Ok(()),
    }
}

// Adds what a key of the file itself shows beside itself.
fn put_number_spots(spots: &mut Vec<FileSpot<'_>>, key: &[u8]) -> Result<(), AllocError>
    ensures { OnOk result
        (map spot_of spots.new.items
        ≡ map spot_of spots.old.items
        ++ map Profile (price_spots (named_price key.now) ++ order_spots (named_order key.now))) }
{
    put_price_spots(spots, named_price(key))?;
    put_order_spots(spots, named_order(key))
}

// Adds what a key of the file itself shows.
fn put_own_spots<'a>(spots: &mut Vec<FileSpot<'a>>, key: &'a [u8]) -> Result<(), AllocError>
    ensures { OnOk result
        (map spot_of spots.new.items
        ≡ map spot_of spots.old.items ++ map Profile (own_spots key.now)) }
{
    let head = key_head(key);
    put_spot(spots, ProfileSpot::Own(Part::Unknown(head)))?;
    put_spot(spots, ProfileSpot::Own(Part::Value(head)))?;
    put_number_spots(spots, key)
}

// Adds what one of the four prices of a list shows beside itself.
fn put_four_spots(
    spots: &mut Vec<FileSpot<'_>>,
    list: PriceList,
    index: usize,
) -> Result<(), AllocError>
    ensures { OnOk result
        (map spot_of spots.new.items ≡ map spot_of spots.old.items ++ map Profile (four_spots list index)) }
{
    if index < 4 {
        return put_spot(spots, ProfileSpot::Price(first_price(list) + index));
    }
    Ok(())
}

// Adds what an entry of a list shows.
fn put_entry_spots(
    spots: &mut Vec<FileSpot<'_>>,
    course: &FileCourse,
    list: Option<FileList>,
) -> Result<(), AllocError>
    ensures { OnOk result
        (map spot_of spots.new.items
        ≡ map spot_of spots.old.items ++ map Profile (entry_spots course.now list)) }
{
    match list {
        Some(FileList::Prices(list)) => {
            let index = course.begun(FileList::Prices(list));
            put_spot(spots, ProfileSpot::Item(list, index))?;
            put_four_spots(spots, list, index)
        }
        Some(FileList::Tables(_) | FileList::Facts) | None => Ok(()),
    }
}

// Adds what a value of the file itself shows.
fn put_own_value_spots<'a>(
    spots: &mut Vec<FileSpot<'a>>,
    course: &FileCourse,
    pair: &KeyValue<'a>,
) -> Result<(), AllocError>
    ensures { OnOk result
        (map spot_of spots.new.items
        ≡ map spot_of spots.old.items
        ++ map Profile (own_value_spots course.now (key_value_of pair.now))) }
{
    if pair.depth == 0 {
        return put_own_spots(spots, pair.key);
    }
    put_entry_spots(spots, course, value_list(pair))
}

/// Adds what a value shows.
pub(crate) fn put_value_spots<'a>(
    spots: &mut Vec<FileSpot<'a>>,
    course: &FileCourse,
    pair: &KeyValue<'a>,
) -> Result<(), AllocError>
    ensures { OnOk result
        (map spot_of spots.new.items
        ≡ map spot_of spots.old.items ++ map Profile (value_spots course.now (key_value_of pair.now))) }
{
    if pair.list.is_empty() {
        return put_own_value_spots(spots, course, pair);
    }
    Ok(())
}

/// Adds what a table shows.
pub(crate) fn put_table_spots<'a>(
    spots: &mut Vec<FileSpot<'a>>,
    course: &FileCourse,
    table: &OutlineTable<'a>,
) -> Result<(), AllocError>
    ensures { OnOk result
        (map spot_of spots.new.items
        ≡ map spot_of spots.old.items ++ map Profile (table_spots course.now (table_of table.now))) }
{
    let head = key_head(table.name);
    put_spot(spots, ProfileSpot::Own(Part::Unknown(head)))?;
    put_spot(spots, ProfileSpot::Own(Part::Value(head)))?;
    put_entry_spots(spots, course, entry_list(table))
}

// Adds keys that the file has not.
fn put_absent(
    spots: &mut Vec<FileSpot<'_>>,
    keys: &'static [&'static str],
) -> Result<(), AllocError>
    ensures { OnOk result
        (map spot_of spots.new.items
        ≡ map spot_of spots.old.items ++ map Profile (absent_spots (map (λ k. k.now) keys.now))) }
{
    for key in keys {
        put_spot(spots, ProfileSpot::Own(Part::Missing(key.as_bytes())))?;
    }
    Ok(())
}

/// Adds each key of a file, which it may lack.
pub(crate) fn put_absent_spots(spots: &mut Vec<FileSpot<'_>>) -> Result<(), AllocError>
    ensures { OnOk result
        (map spot_of spots.new.items
        ≡ map spot_of spots.old.items ++ map Profile (absent_spots profile_keys)) }
{
    put_absent(spots, PROFILE_KEYS)
}

// What is said of a price that is the lesser of an order.
fn order_words(order: PriceOrder) -> &'static [u8]
    ensures { result.now ≡ order_words order }
{
    match order {
        PriceOrder::SByQuad => b" is more than quad",
        PriceOrder::QuadByN => b" is more than n",
        PriceOrder::NByDevices => b" is more than the dearest of io",
        PriceOrder::RomByDevices => b" has a price above the dearest of io",
        PriceOrder::ControlByDevices => b" is more than the dearest of io",
    }
}

/// Adds what is said of a value that shows the spot.
pub(crate) fn put_value_words(out: &mut Vec<u8>, spot: ProfileSpot<'_>) -> Result<(), AllocError>
    ensures { OnOk result (out.new.items ≡ out.old.items ++ value_words (profile_spot_of spot.entry)) }
{
    match spot {
        ProfileSpot::Disordered(order) => put(out, order_words(order)),
        _ => Ok(()),
    }
}

/// Adds what is said of a table that shows the spot.
pub(crate) fn put_table_words(out: &mut Vec<u8>, spot: ProfileSpot<'_>) -> Result<(), AllocError>
    ensures { OnOk result (out.new.items ≡ out.old.items ++ table_words (profile_spot_of spot.entry)) }
{
    match spot {
        ProfileSpot::Own(Part::Unknown(_)) => put(out, b" is no key of cycle profiles"),
        _ => put(out, b" may be no table"),
    }
}

/// Adds what is said of the file, which lacks the spot's key.
pub(crate) fn put_absent_words(out: &mut Vec<u8>, spot: ProfileSpot<'_>) -> Result<(), AllocError>
    ensures { OnOk result (out.new.items ≡ out.old.items ++ absent_words (profile_spot_of spot.entry)) }
{
    match spot {
        ProfileSpot::Own(Part::Missing(key)) => {
            put_with_key(out, b"the cycle profile has no ", key)
        }
        _ => Ok(()),
    }
}
