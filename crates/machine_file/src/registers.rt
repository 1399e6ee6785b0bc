ghost use Rattle.std.specs.Prelude.{◌≡◌, IfOk, length, map};
ghost use Rattle.toml.specs.View.{table_view, view};
ghost use Rattle.machine_file.specs.MachineFile.{registers_at, registers_in, registers_of};
ghost use Rattle.machine_file.specs.Words.{word_or};
ghost use Rattle.machine_file.specs.MachineFaults.{machine_faults};
ghost use Rattle.toml_reading.specs.Readings.{all, items_in};

use crate::machine_faults::{MachineFileFault, Read};
use arm2_effect::Reg;
use std::alloc::{AllocError, Global};
use std::marker::Model;
use toml::{Table, Value};
use toml_reading::{append, number_or, of_keys, value_at};

/// The registers that a file may name, in their order: all but R15.
pub(crate) const REGISTERS: [Reg; 26] = [
    Reg::R0,
    Reg::R1,
    Reg::R2,
    Reg::R3,
    Reg::R4,
    Reg::R5,
    Reg::R6,
    Reg::R7,
    Reg::R8,
    Reg::R9,
    Reg::R10,
    Reg::R11,
    Reg::R12,
    Reg::R13,
    Reg::R14,
    Reg::R8Fiq,
    Reg::R9Fiq,
    Reg::R10Fiq,
    Reg::R11Fiq,
    Reg::R12Fiq,
    Reg::R13Fiq,
    Reg::R14Fiq,
    Reg::R13Irq,
    Reg::R14Irq,
    Reg::R13Svc,
    Reg::R14Svc,
];

/// Their names, in the same order.
pub(crate) const NAMES: [&str; 26] = [
    "r0", "r1", "r2", "r3", "r4", "r5", "r6", "r7", "r8", "r9", "r10", "r11", "r12", "r13", "r14",
    "r8_fiq", "r9_fiq", "r10_fiq", "r11_fiq", "r12_fiq", "r13_fiq", "r14_fiq", "r13_irq",
    "r14_irq", "r13_svc", "r14_svc",
];

/// The words of the 26 registers, in their order.
#[derive(Drop)]
pub(crate) struct Bank {
    pub(crate) words: Vec<u32>,
}

impl Model for Bank {
    ghost use Rattle.std.specs.Prelude.{◌≡◌, ℕ, List, length};

    ghost Value = { List ℕ };

    ghost view = { λ b. b.words.items };

    ghost invariant = { λ b. length b.words.items ≡ 26 };
}

// The words that the table states at some names, 0 where one is missing.
fn words(alloc: Global, table: &Table, names: &[&str]) -> Result<Read<Vec<u32>>, AllocError>
    ensures { IfOk result
        (λ list. items_in list
        ≡ all machine_faults
        (map (λ name. word_or machine_faults name.now 0 (table_view table.now)) names.now)) }
{
    let mut list = Ok(Vec::new(alloc));
    for name in names {
        let word = number_or(table, name, u32::MAX, 0);
        list = append(list, word)?;
    }
    Ok(list)
}

fn as_bank(words: Read<Vec<u32>>) -> Read<Bank>
    requires { IfOk (items_in words) (λ list. length list ≡ 26) }
    ensures { result ≡ items_in words }
{
    match words {
        Ok(words) => Ok(Bank { words }),
        Err(fault) => Err(fault),
    }
}

fn registers_of(alloc: Global, table: &Table) -> Result<Read<Bank>, AllocError>
    ensures { IfOk result (λ bank. bank ≡ registers_of (table_view table.now)) }
{
    let reading = as_bank(words(alloc, table, &NAMES)?);
    Ok(of_keys(&NAMES, table, reading))
}

fn registers_at(alloc: Global, value: &Value) -> Result<Read<Bank>, AllocError>
    ensures { IfOk result (λ bank. bank ≡ registers_at (view value.now)) }
{
    match value.as_table() {
        Some(table) => registers_of(alloc, table),
        None => Ok(Err(MachineFileFault::WrongKind)),
    }
}

/// The words that the file's table states: 0 where it names no register.
pub(crate) fn registers_in(alloc: Global, table: &Table) -> Result<Read<Bank>, AllocError>
    ensures { IfOk result (λ bank. bank ≡ registers_in (table_view table.now)) }
{
    match value_at(table, "registers") {
        Some(value) => registers_at(alloc, value),
        None => Ok(Ok(Bank {
            words: vec![in alloc; 0; 26]?,
        })),
    }
}
