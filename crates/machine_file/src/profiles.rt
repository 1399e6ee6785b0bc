ghost use Rattle.std.specs.Prelude.{◌≡◌, ◌≢◌, Err, map};
ghost use Rattle.bus_ticks.specs.Numbers.{numbers_of};
ghost use Rattle.toml.specs.View.{table_view, view};
ghost use Rattle.toml_reading.specs.Readings.{required, reading_map};
ghost use Rattle.machine_file.specs.ProfileFaults.{profile_faults};
ghost use Rattle.machine_file.specs.ProfileFile.{IsPriced, IsProfileFile, four_at, four_in, four_of, joined};
ghost use Rattle.machine_file.specs.ProfileFile.{numbers_in, other_prices_in, parts_in, ram_prices_in};
ghost use Rattle.machine_file.specs.Words.{word_in};

use crate::profile_faults::ProfileFileFault;
use bus_ticks::{NumbersFault, Profile};
use std::alloc::Global;
use toml::{Table, Value};
use toml_reading::{
    Reading, document, number_at, number_in, of_keys, pair, required, value_at, values_of,
};

type Read<T> = Reading<T, ProfileFileFault>;

type Four = ((u32, u32), (u32, u32));

type Parts = (((u32, (u32, u32)), (Four, Four)), Four);

/// The keys of a cycle profile file: all are required.
pub const PROFILE_KEYS: &[&str] = &[
    "n", "s", "quad", "rom", "io", "control", "unfitted", "internal", "burst",
];

fn word_in(table: &Table, key: &str) -> Read<u32>
    ensures { result ≡ word_in profile_faults key.now (table_view table.now) }
{
    number_in(table, key, u32::MAX)
}

fn four_of(values: &[Value]) -> Read<Four>
    ensures { result ≡ four_of (map view values.now) }
{
    match values {
        [a, b, c, d] => pair(
            pair(number_at(a, u32::MAX), number_at(b, u32::MAX)),
            pair(number_at(c, u32::MAX), number_at(d, u32::MAX)),
        ),
        _ => Err(ProfileFileFault::WrongKind),
    }
}

fn four_at(value: &Value) -> Read<Four>
    ensures { result ≡ four_at (view value.now) }
{
    required(values_of(value), four_of)
}

fn four_in(table: &Table, key: &str) -> Read<Four>
    ensures { result ≡ four_in key.now (table_view table.now) }
{
    required(value_at(table, key), four_at)
}

fn ram_prices_in(table: &Table) -> Read<(u32, (u32, u32))>
    ensures { result ≡ ram_prices_in (table_view table.now) }
{
    pair(
        word_in(table, "n"),
        pair(word_in(table, "s"), word_in(table, "quad")),
    )
}

// Those of control writes, of fetches among the devices, of internal cycles and of bursts.
fn other_prices_in(table: &Table) -> Read<Four>
    ensures { result ≡ other_prices_in (table_view table.now) }
{
    pair(
        pair(word_in(table, "control"), word_in(table, "unfitted")),
        pair(word_in(table, "internal"), word_in(table, "burst")),
    )
}

pub(crate) fn parts_in(table: &Table) -> Read<Parts>
    ensures { result ≡ parts_in (table_view table.now) }
{
    let lists = pair(four_in(table, "rom"), four_in(table, "io"));
    pair(pair(ram_prices_in(table), lists), other_prices_in(table))
}

/// The parts as the fifteen numbers, in the order of a profile's fields.
pub(crate) fn joined(parts: Parts) -> [u32; 15]
    ensures { result ≡ joined parts }
{
    let (((n, (s, quad)), (rom, io)), ((control, unfitted), (internal, burst))) = parts;
    let ((rom_0, rom_1), (rom_2, rom_3)) = rom;
    let ((slow, medium), (fast, synchronous)) = io;
    [
        n,
        s,
        quad,
        rom_0,
        rom_1,
        rom_2,
        rom_3,
        slow,
        medium,
        fast,
        synchronous,
        control,
        unfitted,
        internal,
        burst,
    ]
}

fn numbers_in(table: &Table) -> Read<[u32; 15]>
    ensures { result ≡ numbers_in (table_view table.now) }
{
    of_keys(PROFILE_KEYS, table, parts_in(table)).map(joined)
}

// The profile of the numbers that were read.
fn priced(numbers: Read<[u32; 15]>) -> Read<Profile>
    ensures { IsPriced numbers (reading_map numbers_of result) }
{
    let numbers = match numbers {
        Ok(numbers) => numbers,
        Err(fault) => return Err(fault),
    };
    match Profile::new(numbers) {
        Ok(profile) => Ok(profile),
        Err(NumbersFault::OutOfRange) => Err(ProfileFileFault::OutOfRange),
        Err(NumbersFault::Disordered) => Err(ProfileFileFault::Disordered),
    }
}

/// The cycle profile that a file states: `n`, `s` and `quad` for RAM, `rom` by time field 0 to 3, `io` for
/// slow, medium, fast and synchronous devices, `control`, `unfitted`, `internal` and `burst`, all in ticks
/// and all required.
///
/// # Errors
///
/// Of several faults over the whole text the first is answered, in the order of [`ProfileFileFault`];
/// `Memory` only where an allocation failed.
pub fn read_profile(alloc: Global, text: &[u8]) -> Result<Profile, ProfileFileFault>
    ensures { result ≢ Err ProfileFileFault.Memory → IsProfileFile text.now (reading_map numbers_of result) }
{
    match document(alloc, text)? {
        Some(table) => priced(numbers_in(&table)),
        None => Err(ProfileFileFault::NotToml),
    }
}
