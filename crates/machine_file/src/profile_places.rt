ghost use Rattle.std.specs.Prelude.{◌≡◌, ◌↔◌, ◌||◌, option_map, true};
ghost use Rattle.std.specs.List.{slice_get};
ghost use Rattle.std.specs.Option.{option_and_then};
ghost use Rattle.toml.specs.View.{table_view, view};
ghost use Rattle.bus_ticks.specs.Ranges.{device_number, greatest, rom_number};
ghost use Rattle.toml_reading.specs.Documents.{is_one_of, items_at};
ghost use Rattle.machine_file.specs.MachinePlaceTests.{holds_of};
ghost use Rattle.machine_file.specs.ProfileRules.{list_keys, number_keys};
ghost use Rattle.machine_file.specs.ProfilePlaces.{IsProfileFaultAt};
ghost use Rattle.machine_file.specs.ProfilePlaceTests.{found, is_dearer, is_no_price, is_not_four};
ghost use Rattle.machine_file.specs.ProfilePlaceTests.{is_other_number, is_out_of_range, is_same, item_at};
ghost use Rattle.machine_file.specs.ProfilePlaceTests.{part_gives, price_gives, stated_numbers, value_gives};

use crate::entries::value_in;
use crate::faulty_keys::{is_outside, value_named};
use crate::profile_faults::ProfileFileFault;
use crate::profiles::{PROFILE_KEYS, joined, parts_in};
use crate::spots::{Part, PriceList, PriceOrder, ProfileSpot, price_key};
use toml::{Table, Value};
use toml_reading::{Fault, is_one_of, value_at, values_of};

// The keys that take one number.
const NUMBER_KEYS: &[&str] = &["n", "s", "quad", "control", "unfitted", "internal", "burst"];

// The keys that take a list of four.
const LIST_KEYS: &[&str] = &["rom", "io"];

fn is_same(found: ProfileFileFault, fault: ProfileFileFault) -> bool
    ensures { result ≡ is_same found fault }
{
    found.rank() == fault.rank()
}

// ## Keys

fn is_other_number(value: &Value) -> bool
    ensures { result ≡ is_other_number (view value.now) }
{
    match value.as_integer() {
        Some(number) => is_outside(number, u32::MAX),
        None => false,
    }
}

// Whether the value of a price has the fault.
fn price_gives(value: &Value, fault: ProfileFileFault) -> bool
    ensures { result ≡ price_gives fault (view value.now) }
{
    match fault {
        ProfileFileFault::WrongKind => value.as_integer().is_none(),
        ProfileFileFault::OutOfRange => is_other_number(value),
        _ => false,
    }
}

fn is_not_four(value: &Value) -> bool
    ensures { result ≡ is_not_four (view value.now) }
{
    match values_of(value) {
        Some(values) => values.len() != 4,
        None => true,
    }
}

// Whether the value at the key has the fault.
fn value_gives(key: &[u8], value: &Value, fault: ProfileFileFault) -> bool
    ensures { result ≡ value_gives key.now fault (view value.now) }
{
    if is_one_of(NUMBER_KEYS, key) && price_gives(value, fault) {
        return true;
    }
    is_one_of(LIST_KEYS, key) && is_same(ProfileFileFault::WrongKind, fault) && is_not_four(value)
}

fn is_price_key(key: &[u8]) -> bool
    ensures { result ≡ (is_one_of number_keys key.now || is_one_of list_keys key.now) }
{
    is_one_of(NUMBER_KEYS, key) || is_one_of(LIST_KEYS, key)
}

// Whether the key has the fault.
fn part_gives(table: &Table, part: Part<'_>, fault: ProfileFileFault) -> bool
    ensures { result ≡ part_gives part.entry (table_view table.now) fault }
{
    match part {
        Part::Unknown(key) => {
            is_same(ProfileFileFault::UnknownKey, fault)
                && value_named(table, key).is_some()
                && !is_one_of(PROFILE_KEYS, key)
        }
        Part::Value(key) => match value_named(table, key) {
            Some(value) => value_gives(key, value, fault),
            None => false,
        },
        Part::Missing(key) => {
            is_same(ProfileFileFault::WrongKind, fault)
                && is_price_key(key)
                && value_named(table, key).is_none()
        }
    }
}

// ## Prices

fn item_in(value: &Value, index: usize) -> Option<&Value>
    ensures { option_map (λ v. view v.now) result
        ≡ option_and_then (λ ds. slice_get ds index) (items_at (view value.now)) }
{
    match values_of(value) {
        Some(values) => value_in(values, index),
        None => None,
    }
}

fn item_at(table: &Table, list: PriceList, index: usize) -> Option<&Value>
    ensures { option_map (λ v. view v.now) result ≡ item_at list index (table_view table.now) }
{
    match value_at(table, price_key(list)) {
        Some(value) => item_in(value, index),
        None => None,
    }
}

// Whether a price of a list has the fault.
fn item_gives(table: &Table, list: PriceList, index: usize, fault: ProfileFileFault) -> bool
    ensures { result ≡ holds_of (price_gives fault) (item_at list index (table_view table.now)) }
{
    match item_at(table, list, index) {
        Some(value) => price_gives(value, fault),
        None => false,
    }
}

// The fifteen numbers that the file states, whatever other keys it has.
fn stated_numbers(table: &Table) -> Option<[u32; 15]>
    ensures { result ≡ stated_numbers (table_view table.now) }
{
    match parts_in(table) {
        Ok(parts) => Some(joined(parts)),
        Err(_) => None,
    }
}

fn is_no_price(ticks: u32) -> bool
    ensures { result ≡ is_no_price ticks }
{
    !(1 <= ticks && ticks < 256)
}

fn price_in(prices: &[u32], index: usize) -> Option<u32>
    ensures { result ≡ slice_get prices.now index }
{
    prices.get(index).copied()
}

// Whether one of the numbers is not in its range.
fn is_out_of_range(numbers: [u32; 15], index: usize) -> bool
    ensures { result ≡ is_out_of_range index numbers }
{
    match price_in(&numbers[..14], index) {
        Some(ticks) => is_no_price(ticks),
        None => index == 14 && !(numbers[14] < 256),
    }
}

fn greatest(a: u32, b: u32, c: u32, d: u32) -> u32
    ensures { result ≡ greatest a b c d }
{
    a.max(b).max(c.max(d))
}

fn dearest_device(numbers: [u32; 15]) -> u32
    ensures { result ≡ device_number numbers }
{
    greatest(numbers[7], numbers[8], numbers[9], numbers[10])
}

fn dearest_rom(numbers: [u32; 15]) -> u32
    ensures { result ≡ rom_number numbers }
{
    greatest(numbers[3], numbers[4], numbers[5], numbers[6])
}

// Whether what has to be at most the other is dearer.
fn is_dearer(numbers: [u32; 15], order: PriceOrder) -> bool
    ensures { result ≡ is_dearer order numbers }
{
    match order {
        PriceOrder::SByQuad => numbers[2] < numbers[1],
        PriceOrder::QuadByN => numbers[0] < numbers[2],
        PriceOrder::NByDevices => dearest_device(numbers) < numbers[0],
        PriceOrder::RomByDevices => dearest_device(numbers) < dearest_rom(numbers),
        PriceOrder::ControlByDevices => dearest_device(numbers) < numbers[11],
    }
}

fn states_no_price(table: &Table, index: usize) -> bool
    ensures { result ≡ holds_of (is_out_of_range index) (stated_numbers (table_view table.now)) }
{
    match stated_numbers(table) {
        Some(numbers) => is_out_of_range(numbers, index),
        None => false,
    }
}

fn states_dearer(table: &Table, order: PriceOrder) -> bool
    ensures { result ≡ holds_of (is_dearer order) (stated_numbers (table_view table.now)) }
{
    match stated_numbers(table) {
        Some(numbers) => is_dearer(numbers, order),
        None => false,
    }
}

/// The document of a cycle profile, to be asked where its faults are.
#[derive(Clone, Copy)]
pub struct ProfileDocument<'a> {
    /// The document.
    pub table: &'a Table,
}

impl ProfileDocument<'_> {
    fn found(&self, spot: ProfileSpot<'_>, fault: ProfileFileFault) -> bool
        ensures { result ≡ found (table_view self.now.table.now) spot.entry fault }
    {
        match spot {
            ProfileSpot::Own(part) => part_gives(self.table, part, fault),
            ProfileSpot::Item(list, index) => item_gives(self.table, list, index, fault),
            ProfileSpot::Price(index) => {
                is_same(ProfileFileFault::OutOfRange, fault) && states_no_price(self.table, index)
            }
            ProfileSpot::Disordered(order) => {
                is_same(ProfileFileFault::Disordered, fault) && states_dearer(self.table, order)
            }
        }
    }

    /// Whether the document has the fault at the spot.
    pub fn has_fault_at(&self, spot: ProfileSpot<'_>, fault: ProfileFileFault) -> bool
        ensures { result ≡ true
            ↔ IsProfileFaultAt (table_view self.now.table.now) spot.entry fault }
    {
        self.found(spot, fault)
    }
}
