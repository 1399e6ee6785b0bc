//! What the word at the machine's address is to do.

ghost use Rattle.std.specs.Prelude.{◌≡◌, ◌≤◌, IfSome, MatchOption};
ghost use Rattle.arm2_exec.specs.Step.{fetched};
ghost use Rattle.kept_runs.specs.Reading.{HasNoWord, IsReading, FetchesWord, cycles_if, instr_reading};
ghost use Rattle.kept_runs.specs.Reading.{multiplier_cycles, transfer_if};

use crate::transfers::{Transfer, words_of};
use arm2_decode::{Cond, Instr, Operation, Register, decode};
use arm2_effect::{Reg, Registers, mode_of};
use arm2_exec::Machine;
use control_flow::base_of;
use image::Image;
use shifter::multiply_cycles;

/// What a word is to do.
#[derive(Clone, Copy)]
pub(crate) struct Reading {
    pub(crate) cond: Cond,
    /// Whether its condition holds.
    pub(crate) holds: bool,
    /// The register by which it loads or stores, whether its condition holds or not.
    pub(crate) base: Option<Register>,
    /// The words that it transfers, if it does.
    pub(crate) transfer: Option<Transfer>,
    /// The cycles that its multiplier takes, if it multiplies.
    pub(crate) cycles: Option<u32>,
}

/// The image's word at the machine's address, where the machine fetches that.
pub(crate) fn own_word(image: &Image, machine: &Machine) -> Option<u32>
    ensures { MatchOption result (HasNoWord image.now machine.now) (FetchesWord image.now machine.now) }
{
    let Some(word) = image.word_at(machine.address()) else {
        return None;
    };
    let Some(fetched) = machine.fetched() else {
        return None;
    };
    if fetched != word {
        return None;
    }
    Some(word)
}

fn transfer_if(registers: &Registers, instr: &Instr, holds: bool) -> Option<Transfer>
    ensures words { result ≡ transfer_if holds instr.now.operation registers.now }
    ensures few { IfSome result (λ t. t.words ≤ 16) }
{
    if holds {
        words_of(registers, &instr.operation)
    } else {
        None
    }
}

fn multiplier_cycles(registers: &Registers, operation: &Operation) -> Option<u32>
    ensures { result ≡ multiplier_cycles operation.now registers.now }
{
    match operation {
        Operation::Multiply(x) => {
            let mode = mode_of(registers.get(Reg::R15));
            Some(multiply_cycles(registers.read(mode, x.rs)))
        }
        Operation::DataRegister(_)
        | Operation::DataRegisterShift(_)
        | Operation::DataImmediate(_)
        | Operation::SingleImmediate(_)
        | Operation::SingleRegister(_)
        | Operation::Block(_)
        | Operation::Branch(_)
        | Operation::Swi(_)
        | Operation::UndefinedTransfer(_)
        | Operation::CoprocessorTransfer(_)
        | Operation::Coprocessor(_) => None,
    }
}

fn cycles_if(registers: &Registers, instr: &Instr, holds: bool) -> Option<u32>
    ensures { result ≡ cycles_if holds instr.now.operation registers.now }
{
    if holds {
        multiplier_cycles(registers, &instr.operation)
    } else {
        None
    }
}

fn read_instr(registers: &Registers, instr: &Instr) -> Reading
    ensures reading { result ≡ instr_reading instr.now registers.now }
    ensures few { IfSome result.transfer (λ t. t.words ≤ 16) }
{
    let holds = registers.passes(instr.cond);
    Reading {
        cond: instr.cond,
        holds,
        base: base_of(&instr.operation),
        transfer: transfer_if(registers, instr, holds),
        cycles: cycles_if(registers, instr, holds),
    }
}

/// What the word is to do, by the registers.
pub(crate) fn read_word(machine: &Machine, word: u32) -> Reading
    ensures reading { IsReading word machine.now.regs result }
    ensures few { IfSome result.transfer (λ t. t.words ≤ 16) }
{
    let registers = machine.registers();
    match decode(word) {
        Ok(instr) => read_instr(registers, &instr),
        Err(unallocated) => Reading {
            cond: unallocated.cond,
            holds: registers.passes(unallocated.cond),
            base: None,
            transfer: None,
            cycles: None,
        },
    }
}
