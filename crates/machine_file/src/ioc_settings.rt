//! IOC where a machine starts, as a file states it.

ghost use Rattle.std.specs.Prelude.{◌≡◌};
ghost use Rattle.toml.specs.View.{table_view, view};
ghost use Rattle.machine_file.specs.MachineFile.{are_latched, bytes_in, ioc_at, ioc_in, ioc_of, ioc_with};
ghost use Rattle.machine_file.specs.MachineFile.{requests_at, requests_in, requests_of, timer_in, timer_of};
ghost use Rattle.machine_file.specs.MachineFile.{timers_in};
ghost use Rattle.machine_file.specs.Stated.{no_ioc};

use crate::machine_faults::{MachineFileFault, Read};
use crate::numbers::{byte_or_zero, half_if, half_or_zero};
use bitflags::Flags;
use ioc::IrqA;
use std::marker::Model;
use toml::{Table, Value};
use toml_reading::{of_keys, pair, required, value_at};

/// The keys of IOC's table.
pub(crate) const IOC_KEYS: &[&str] = &[
    "mask_a",
    "mask_b",
    "mask_fiq",
    "requests_a",
    "timer_0",
    "count_0",
    "timer_1",
    "count_1",
];

// The bits of IRQ A that are latched: A2, FLYBACK, TIMER_0 and TIMER_1.
const LATCHED: u8 = 0x6C;

/// A timer: its latch, and its count where it is not that of the latch.
#[derive(Clone, Copy)]
pub struct TimerSetting {
    /// From 0 to 65,535: what the timer loads as its count.
    pub latch: u16,
    /// From 0 to 65,535: decremented each fourth tick of the 8 MHz processor.
    pub count: Option<u16>,
}

/// Latched requests, by the bits of IRQ A.
#[derive(Clone, Copy)]
pub(crate) struct Requests {
    pub(crate) bits: u8,
}

impl Model for Requests {
    ghost use Rattle.std.specs.Prelude.{ℕ, IsTrue};
    ghost use Rattle.machine_file.specs.MachineFile.{are_latched};

    ghost Value = { ℕ };

    ghost view = { λ r. r.bits };

    ghost invariant = { λ r. IsTrue (are_latched r.bits) };

    ghost inverse = { λ n. record { bits = n } };
}

/// IOC as a file states it.
#[derive(Drop)]
pub(crate) struct IocSetting {
    pub(crate) mask_a: u8,
    pub(crate) mask_b: u8,
    pub(crate) mask_fiq: u8,
    pub(crate) requests_a: Requests,
    pub(crate) timer_0: TimerSetting,
    pub(crate) timer_1: TimerSetting,
}

impl Model for IocSetting {
    ghost use Rattle.machine_file.specs.Stated.{IocSetting};

    ghost Value = { IocSetting };

    ghost view = { λ s. record {
      mask_a = s.mask_a;
      mask_b = s.mask_b;
      mask_fiq = s.mask_fiq;
      requests_a = s.requests_a;
      timer_0 = s.timer_0;
      timer_1 = s.timer_1;
    } };
}

fn are_latched(bits: u8) -> bool
    ensures { result ≡ are_latched bits }
{
    IrqA::from_bits_retain(LATCHED).contains(IrqA::from_bits_retain(bits))
}

pub(crate) fn requests_of(number: i64) -> Read<Requests>
    ensures { result ≡ requests_of number }
{
    match u8::try_from(number) {
        Ok(bits) if are_latched(bits) => Ok(Requests { bits }),
        _ => Err(MachineFileFault::OutOfRange),
    }
}

fn requests_at(value: &Value) -> Read<Requests>
    ensures { result ≡ requests_at (view value.now) }
{
    required(value.as_integer(), requests_of)
}

fn requests_in(table: &Table) -> Read<Requests>
    ensures { result ≡ requests_in (table_view table.now) }
{
    value_at(table, "requests_a").map_or(Ok(Requests { bits: 0 }), requests_at)
}

fn timer_of(numbers: (u16, Option<u16>)) -> TimerSetting
    ensures { result ≡ timer_of numbers }
{
    let (latch, count) = numbers;
    TimerSetting { latch, count }
}

fn timer_in(table: &Table, latch: &str, count: &str) -> Read<TimerSetting>
    ensures { result ≡ timer_in latch.now count.now (table_view table.now) }
{
    pair(half_or_zero(table, latch), half_if(table, count)).map(timer_of)
}

type Bytes = ((u8, u8), (u8, Requests));

type Timers = (TimerSetting, TimerSetting);

fn bytes_in(table: &Table) -> Read<Bytes>
    ensures { result ≡ bytes_in (table_view table.now) }
{
    let masks = pair(byte_or_zero(table, "mask_a"), byte_or_zero(table, "mask_b"));
    let rest = pair(byte_or_zero(table, "mask_fiq"), requests_in(table));
    pair(masks, rest)
}

fn timers_in(table: &Table) -> Read<Timers>
    ensures { result ≡ timers_in (table_view table.now) }
{
    let timer_0 = timer_in(table, "timer_0", "count_0");
    pair(timer_0, timer_in(table, "timer_1", "count_1"))
}

fn ioc_with(parts: (Bytes, Timers)) -> IocSetting
    ensures { result ≡ ioc_with parts }
{
    let (((mask_a, mask_b), (mask_fiq, requests_a)), (timer_0, timer_1)) = parts;
    IocSetting {
        mask_a,
        mask_b,
        mask_fiq,
        requests_a,
        timer_0,
        timer_1,
    }
}

fn ioc_of(table: &Table) -> Read<IocSetting>
    ensures { result ≡ ioc_of (table_view table.now) }
{
    let parts = pair(bytes_in(table), timers_in(table));
    of_keys(IOC_KEYS, table, parts.map(ioc_with))
}

fn ioc_at(value: &Value) -> Read<IocSetting>
    ensures { result ≡ ioc_at (view value.now) }
{
    required(value.as_table(), ioc_of)
}

impl IocSetting {
    /// IOC after a reset.
    pub(crate) fn of_reset() -> IocSetting
        ensures { result ≡ no_ioc }
    {
        let rest = TimerSetting {
            latch: 0,
            count: None,
        };
        IocSetting {
            mask_a: 0,
            mask_b: 0,
            mask_fiq: 0,
            requests_a: Requests { bits: 0 },
            timer_0: rest,
            timer_1: rest,
        }
    }
}

/// IOC as the file's table states it: after a reset where it states nothing.
pub(crate) fn ioc_in(table: &Table) -> Read<IocSetting>
    ensures { result ≡ ioc_in (table_view table.now) }
{
    match value_at(table, "ioc") {
        Some(value) => ioc_at(value),
        None => Ok(IocSetting::of_reset()),
    }
}
