//! Numbers of 8 and of 16 bits.

ghost use Rattle.std.specs.Prelude.{◌≡◌};
ghost use Rattle.toml.specs.View.{table_view, view};
ghost use Rattle.toml_reading.specs.Documents.{number_at, number_or};
ghost use Rattle.machine_file.specs.MachineFaults.{machine_faults};
ghost use Rattle.machine_file.specs.Words.{number_if, some_number_at};

use crate::machine_faults::{MachineFileFault, Read};
use toml::{Table, Value};
use toml_reading::value_at;

fn byte_at(value: &Value) -> Read<u8>
    ensures { result ≡ number_at machine_faults u8.MAX (view value.now) }
{
    match value.as_integer() {
        Some(number) => match u8::try_from(number) {
            Ok(byte) => Ok(byte),
            Err(_) => Err(MachineFileFault::OutOfRange),
        },
        None => Err(MachineFileFault::WrongKind),
    }
}

/// The byte at a key, 0 where the key is missing.
pub(crate) fn byte_or_zero(table: &Table, key: &str) -> Read<u8>
    ensures { result ≡ number_or machine_faults key.now u8.MAX 0 (table_view table.now) }
{
    value_at(table, key).map_or(Ok(0), byte_at)
}

fn half_at(value: &Value) -> Read<u16>
    ensures { result ≡ number_at machine_faults u16.MAX (view value.now) }
{
    match value.as_integer() {
        Some(number) => match u16::try_from(number) {
            Ok(half) => Ok(half),
            Err(_) => Err(MachineFileFault::OutOfRange),
        },
        None => Err(MachineFileFault::WrongKind),
    }
}

/// The number of 16 bits at a key, 0 where the key is missing.
pub(crate) fn half_or_zero(table: &Table, key: &str) -> Read<u16>
    ensures { result ≡ number_or machine_faults key.now u16.MAX 0 (table_view table.now) }
{
    value_at(table, key).map_or(Ok(0), half_at)
}

fn some_half_at(value: &Value) -> Read<Option<u16>>
    ensures { result ≡ some_number_at machine_faults u16.MAX (view value.now) }
{
    half_at(value).map(Some)
}

/// The number of 16 bits at a key, none where the key is missing.
pub(crate) fn half_if(table: &Table, key: &str) -> Read<Option<u16>>
    ensures { result ≡ number_if machine_faults key.now u16.MAX (table_view table.now) }
{
    value_at(table, key).map_or(Ok(None), some_half_at)
}
