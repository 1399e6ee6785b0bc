//! VIDC where a machine starts, as a file states it.

ghost use Rattle.std.specs.Prelude.{◌≡◌, codes};
ghost use Rattle.toml.specs.View.{table_view, view};
ghost use Rattle.toml_reading.specs.Documents.{number_at, number_or};
ghost use Rattle.machine_file.specs.MachineFaults.{machine_faults};
ghost use Rattle.machine_file.specs.MachineFile.{cycles_in, display_in, vidc_at, vidc_in, vidc_of, vidc_with};
ghost use Rattle.machine_file.specs.Stated.{no_vidc};
ghost use Rattle.machine_file.specs.Words.{number_if, some_number_at, word_or};

use crate::machine_faults::Read;
use std::marker::Model;
use toml::{Table, Value};
use toml_reading::{number_at, number_or, of_keys, pair, required, value_at};

/// The keys of VIDC's table.
pub(crate) const VIDC_KEYS: &[&str] = &[
    "horizontal_cycle",
    "vertical_cycle",
    "display_end",
    "pixel_rate",
    "ticks",
];

/// The last value of a register of ten bits.
pub(crate) const LAST_VALUE: u32 = 0x3FF;

/// The value of a register of ten bits.
#[derive(Clone, Copy)]
pub(crate) struct TenBits {
    pub(crate) value: u32,
}

impl Model for TenBits {
    ghost use Rattle.std.specs.Prelude.{◌≤◌, ℕ};

    ghost Value = { ℕ };

    ghost view = { λ r. r.value };

    ghost invariant = { λ r. r.value ≤ 0x3FF };

    ghost inverse = { λ n. record { value = n } };
}

/// The pixel rate, by bits 1:0 of the control register.
#[derive(Clone, Copy)]
pub(crate) struct RateBits {
    pub(crate) bits: u32,
}

impl Model for RateBits {
    ghost use Rattle.std.specs.Prelude.{◌≤◌, ℕ};

    ghost Value = { ℕ };

    ghost view = { λ r. r.bits };

    ghost invariant = { λ r. r.bits ≤ 3 };

    ghost inverse = { λ n. record { bits = n } };
}

/// VIDC as a file states it.
#[derive(Drop)]
pub(crate) struct VidcSetting {
    pub(crate) horizontal_cycle: Option<TenBits>,
    pub(crate) vertical_cycle: Option<TenBits>,
    pub(crate) display_end: TenBits,
    pub(crate) pixel_rate: RateBits,
    pub(crate) ticks: u32,
}

impl Model for VidcSetting {
    ghost use Rattle.machine_file.specs.Stated.{VidcSetting};

    ghost Value = { VidcSetting };

    ghost view = { λ s. record {
      horizontal_cycle = s.horizontal_cycle;
      vertical_cycle = s.vertical_cycle;
      display_end = s.display_end;
      pixel_rate = s.pixel_rate;
      ticks = s.ticks;
    } };
}

fn value_of(value: &Value) -> Read<TenBits>
    ensures { result ≡ number_at machine_faults LAST_VALUE (view value.now) }
{
    match number_at(value, LAST_VALUE) {
        Ok(value) => Ok(TenBits { value }),
        Err(fault) => Err(fault),
    }
}

fn some_value_at(value: &Value) -> Read<Option<TenBits>>
    ensures { result ≡ some_number_at machine_faults LAST_VALUE (view value.now) }
{
    value_of(value).map(Some)
}

fn value_if(table: &Table, key: &str) -> Read<Option<TenBits>>
    ensures { result ≡ number_if machine_faults key.now LAST_VALUE (table_view table.now) }
{
    value_at(table, key).map_or(Ok(None), some_value_at)
}

fn value_or_zero(table: &Table, key: &str) -> Read<TenBits>
    ensures { result ≡ number_or machine_faults key.now LAST_VALUE 0 (table_view table.now) }
{
    value_at(table, key).map_or(Ok(TenBits { value: 0 }), value_of)
}

fn rate_in(table: &Table) -> Read<RateBits>
    ensures { result ≡ number_or machine_faults (codes "pixel_rate") 3 0 (table_view table.now) }
{
    match number_or(table, "pixel_rate", 3, 0) {
        Ok(bits) => Ok(RateBits { bits }),
        Err(fault) => Err(fault),
    }
}

type Cycles = (Option<TenBits>, Option<TenBits>);

type Display = ((TenBits, RateBits), u32);

fn cycles_in(table: &Table) -> Read<Cycles>
    ensures { result ≡ cycles_in (table_view table.now) }
{
    let horizontal = value_if(table, "horizontal_cycle");
    pair(horizontal, value_if(table, "vertical_cycle"))
}

fn display_in(table: &Table) -> Read<Display>
    ensures { result ≡ display_in (table_view table.now) }
{
    let registers = pair(value_or_zero(table, "display_end"), rate_in(table));
    pair(registers, number_or(table, "ticks", u32::MAX, 0))
}

fn vidc_with(parts: (Cycles, Display)) -> VidcSetting
    ensures { result ≡ vidc_with parts }
{
    let ((horizontal_cycle, vertical_cycle), ((display_end, pixel_rate), ticks)) = parts;
    VidcSetting {
        horizontal_cycle,
        vertical_cycle,
        display_end,
        pixel_rate,
        ticks,
    }
}

fn vidc_of(table: &Table) -> Read<VidcSetting>
    ensures { result ≡ vidc_of (table_view table.now) }
{
    let parts = pair(cycles_in(table), display_in(table));
    of_keys(VIDC_KEYS, table, parts.map(vidc_with))
}

fn vidc_at(value: &Value) -> Read<VidcSetting>
    ensures { result ≡ vidc_at (view value.now) }
{
    required(value.as_table(), vidc_of)
}

impl VidcSetting {
    /// VIDC after a reset.
    pub(crate) fn of_reset() -> VidcSetting
        ensures { result ≡ no_vidc }
    {
        VidcSetting {
            horizontal_cycle: None,
            vertical_cycle: None,
            display_end: TenBits { value: 0 },
            pixel_rate: RateBits { bits: 0 },
            ticks: 0,
        }
    }
}

/// VIDC as the file's table states it: after a reset where it states nothing.
pub(crate) fn vidc_in(table: &Table) -> Read<VidcSetting>
    ensures { result ≡ vidc_in (table_view table.now) }
{
    match value_at(table, "vidc") {
        Some(value) => vidc_at(value),
        None => Ok(VidcSetting::of_reset()),
    }
}
