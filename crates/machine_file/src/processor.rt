ghost use Rattle.std.specs.Prelude.{◌≡◌, IfOk};
ghost use Rattle.toml.specs.View.{table_view, view};
ghost use Rattle.toml_reading.specs.Documents.{in_space};
ghost use Rattle.machine_file.specs.MachineFaults.{machine_faults};
ghost use Rattle.machine_file.specs.MachineFile.{mode_at, mode_in, pc_at, pc_in, processor_in};
ghost use Rattle.machine_file.specs.Names.{named_mode};

use crate::flags::{PsrFlags, flags_in};
use crate::machine_faults::{MachineFileFault, Read};
use crate::registers::{Bank, registers_in};
use arm2_effect::Mode;
use std::alloc::{AllocError, Global};
use std::marker::Model;
use toml::{Table, Value};
use toml_reading::{in_space, pair, required, value_at};

/// The address in R15, in bytes.
#[derive(Clone, Copy)]
pub(crate) struct StartAddress {
    pub(crate) address: u32,
}

impl Model for StartAddress {
    ghost use Rattle.std.specs.Prelude.{ℕ, IsTrue};
    ghost use Rattle.bus_ticks.specs.Prices.{is_word_address};

    ghost Value = { ℕ };

    ghost view = { λ a. a.address };

    ghost invariant = { λ a. IsTrue (is_word_address a.address) };

    ghost inverse = { λ n. record { address = n } };
}

/// The registers as a file states them.
#[derive(Drop)]
pub(crate) struct Processor {
    pub(crate) pc: StartAddress,
    pub(crate) mode: Mode,
    pub(crate) flags: PsrFlags,
    pub(crate) registers: Bank,
}

impl Model for Processor {
    ghost use Rattle.machine_file.specs.Stated.{Processor};

    ghost Value = { Processor };

    ghost view = { λ p. record { pc = p.pc; mode = p.mode; flags = p.flags; registers = p.registers } };
}

pub(crate) fn start_address(number: i64) -> Read<StartAddress>
    ensures { result ≡ in_space machine_faults number }
{
    match in_space(number) {
        Ok(address) => Ok(StartAddress { address }),
        Err(fault) => Err(fault),
    }
}

fn pc_at(value: &Value) -> Read<StartAddress>
    ensures { result ≡ pc_at (view value.now) }
{
    required(value.as_integer(), start_address)
}

fn pc_in(table: &Table) -> Read<StartAddress>
    ensures { result ≡ pc_in (table_view table.now) }
{
    required(value_at(table, "pc"), pc_at)
}

pub(crate) fn named_mode(word: &str) -> Option<Mode>
    ensures { result ≡ named_mode word.now }
{
    match word {
        "user" => Some(Mode::User),
        "fiq" => Some(Mode::Fiq),
        "irq" => Some(Mode::Irq),
        "svc" => Some(Mode::Svc),
        _ => None,
    }
}

fn mode_at(value: &Value) -> Read<Mode>
    ensures { result ≡ mode_at (view value.now) }
{
    required(value.as_str().and_then(named_mode), Ok)
}

fn mode_in(table: &Table) -> Read<Mode>
    ensures { result ≡ mode_in (table_view table.now) }
{
    value_at(table, "mode").map_or(Ok(Mode::Svc), mode_at)
}

/// The registers that the file's table states.
pub(crate) fn processor_in(alloc: Global, table: &Table) -> Result<Read<Processor>, AllocError>
    ensures { IfOk result (λ reading. reading ≡ processor_in (table_view table.now)) }
{
    let psr = pair(mode_in(table), flags_in(table));
    let start = pair(pc_in(table), psr);
    let registers = registers_in(alloc, table)?;
    let parts = pair(start, registers);
    Ok(parts.map(|((pc, (mode, flags)), registers)| Processor {
        pc,
        mode,
        flags,
        registers,
    }))
}
