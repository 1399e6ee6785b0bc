ghost use Rattle.std.specs.Prelude.{◌≡◌, IfOk, IsTrue};
ghost use Rattle.toml.specs.View.{table_view, view};
ghost use Rattle.toml_reading.specs.Documents.{in_space, number_at, number_in, number_or};
ghost use Rattle.bus_ticks.specs.Prices.{is_word_address};
ghost use Rattle.toml_reading.specs.Readings.{up_to};

use crate::keys::value_at;
use crate::readings::{Fault, Reading, required};
use bus_ticks::is_word_address;
use toml::{Table, Value};

// The number, where it is from 0 to the limit.
fn up_to<F: Fault>(number: i64, limit: u32) -> Reading<u32, F>
    ensures { result ≡ up_to F.faults limit number }
{
    match u32::try_from(number) {
        Ok(n) => {
            if n <= limit {
                Ok(n)
            } else {
                Err(F::out_of_range())
            }
        }
        Err(_) => Err(F::out_of_range()),
    }
}

/// A value that is a number from 0 to the limit.
pub fn number_at<F: Fault>(value: &Value, limit: u32) -> Reading<u32, F>
    ensures { result ≡ number_at F.faults limit (view value.now) }
{
    required(value.as_integer(), |number| up_to(number, limit))
}

/// The number from 0 to the limit at a key that must be there.
pub fn number_in<F: Fault>(table: &Table, key: &str, limit: u32) -> Reading<u32, F>
    ensures { result ≡ number_in F.faults key.now limit (table_view table.now) }
{
    required(value_at(table, key), |value| number_at(value, limit))
}

/// The number from 0 to the limit at a key, or another one where the key is missing.
pub fn number_or<F: Fault>(table: &Table, key: &str, limit: u32, missing: u32) -> Reading<u32, F>
    ensures { result ≡ number_or F.faults key.now limit missing (table_view table.now) }
{
    match value_at(table, key) {
        Some(value) => number_at(value, limit),
        None => Ok(missing),
    }
}

/// The address of a word, where the number is one.
pub fn in_space<F: Fault>(number: i64) -> Reading<u32, F>
    ensures value { result ≡ in_space F.faults number }
    ensures range { IfOk result (λ n. IsTrue (is_word_address n)) }
{
    match u32::try_from(number) {
        Ok(n) => {
            if is_word_address(n) {
                Ok(n)
            } else {
                Err(F::out_of_range())
            }
        }
        Err(_) => Err(F::out_of_range()),
    }
}
