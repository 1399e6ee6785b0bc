//! What the instruction that is next does on the bus.

ghost use Rattle.std.specs.Prelude.{◌≡◌, ◌≤◌, IfSome};
ghost use Rattle.arm2_exec.specs.State.{State};
ghost use Rattle.arm2_exec.specs.Step.{Step};
ghost use Rattle.arm2_exec.specs.declared.machine.Input.{Input};
ghost use Rattle.arm2_exec.specs.declared.machine.Stepped.{Stepped};
ghost use Rattle.test_vectors.specs.Shape.{IsUseOf, jumping, moving, straight_on, use_by, use_if};
ghost use Rattle.test_vectors.specs.Writing.{FewWords};

use crate::bus_use::BusUse;
use arm2_decode::{Instr, Opcode, Operation, Register, bit_of_word, decode};
use arm2_effect::{Reg, Registers, mode_of};
use arm2_exec::Machine;
use json_trace::{Transfers, planned_by};
use shifter::multiply_cycles;

// The fetch ahead alone.
fn straight_on() -> BusUse
    ensures { result ≡ straight_on }
{
    BusUse::Fetches {
        delay: None,
        jumps: false,
    }
}

// Data processing: it jumps where it writes R15.
fn jumping(delay: Option<u32>, opcode: Opcode, rd: Register) -> BusUse
    ensures { result ≡ jumping delay opcode rd }
{
    BusUse::Fetches {
        delay,
        jumps: !opcode.is_compare() && rd.is_pc(),
    }
}

// A load or a store of words, if all are in space.
fn moving(words: Option<Transfers>, jumps: bool) -> BusUse
    ensures does { result ≡ moving words jumps }
    ensures few { IfSome words (λ t. t.words ≤ 16) → FewWords result }
{
    match words {
        Some(words) => {
            if words.store {
                BusUse::Stores { words }
            } else {
                BusUse::Loads { words, jumps }
            }
        }
        None => straight_on(),
    }
}

// What an operation does that is carried out.
fn use_by(operation: &Operation, registers: &Registers) -> BusUse
    ensures does { result ≡ use_by operation.now registers.now }
    ensures few { FewWords result }
{
    match operation {
        Operation::Multiply(x) => {
            let mode = mode_of(registers.get(Reg::R15));
            BusUse::Fetches {
                delay: Some(multiply_cycles(registers.read(mode, x.rs))),
                jumps: false,
            }
        }
        Operation::DataRegister(x) => jumping(None, x.opcode, x.rd),
        Operation::DataRegisterShift(x) => jumping(Some(1), x.opcode, x.rd),
        Operation::DataImmediate(x) => jumping(None, x.opcode, x.rd),
        Operation::SingleImmediate(x) => moving(planned_by(operation, registers), x.rd.is_pc()),
        Operation::SingleRegister(x) => moving(planned_by(operation, registers), x.rd.is_pc()),
        Operation::Block(x) => moving(planned_by(operation, registers), bit_of_word(x.list, 15)),
        Operation::Branch(_) => BusUse::Fetches {
            delay: None,
            jumps: true,
        },
        _ => straight_on(),
    }
}

// The same of one with its condition.
fn use_if(instr: &Instr, registers: &Registers) -> BusUse
    ensures does { result ≡ use_if instr.now registers.now }
    ensures few { FewWords result }
{
    if registers.passes(instr.cond) {
        return use_by(&instr.operation, registers);
    }
    straight_on()
}

/// What the machine's next step does on the bus, where it takes no exception and does not stop.
pub(crate) fn planned_use(machine: &Machine) -> BusUse
    ensures few { FewWords result }
    ensures does { (i : Input) (stepped : Stepped) (after : State) (step : Step machine.now i stepped after)
        → IsUseOf result machine.now i stepped after step }
{
    let registers = machine.registers();
    let _all = registers.get(Reg::R15);
    let Some(word) = machine.fetched() else {
        return straight_on();
    };
    match decode(word) {
        Ok(instr) => use_if(&instr, registers),
        Err(_) => straight_on(),
    }
}
