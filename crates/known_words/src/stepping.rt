ghost use Rattle.std.specs.Prelude.{◌≡◌, ◌&&◌, IfSome, is_none, false};
ghost use Rattle.arm2_decode.specs.Names.{is_pc};
ghost use Rattle.operation_laws.specs.Keeps.{restores};
ghost use Rattle.known_words.specs.After.{After, Passing};

use crate::data::{Data, after_data};
use crate::forgetting::forgotten;
use crate::knowledge::{Compared, Knowledge};
use crate::operands::rotated;
use crate::transfers::{after_block, after_single_immediate, after_single_register, with_word};
use crate::words::Known;
use arm2_decode::{
    Branch, DataImmediate, DataRegister, DataRegisterShift, Multiply, Operation, Register,
};
use bus_ticks::ahead_of;

fn restores(operation: &Operation) -> bool
    ensures { result ≡ restores operation.now }
{
    match operation {
        Operation::DataRegister(x) => x.sets_flags && x.rd.is_pc(),
        Operation::DataRegisterShift(x) => x.sets_flags && x.rd.is_pc(),
        Operation::DataImmediate(x) => x.sets_flags && x.rd.is_pc(),
        Operation::Block(x) => x.load && x.is_listed(Register::R15) && x.user,
        _ => false,
    }
}

macro_rules! data {
    ($fields:expr, $bytes:expr) => {
        Data {
            opcode: $fields.opcode,
            sets_flags: $fields.sets_flags,
            rn: $fields.rn,
            rd: $fields.rd,
            bytes: $bytes,
        }
    };
}

fn after_register(before: &Knowledge, x: DataRegister, address: u32) -> Knowledge
    requires { (x.sets_flags && is_pc x.rd) ≡ false }
    ensures { After (Operation.DataRegister x) address before.now result }
{
    let operand = before.shifted_of(x.shift, x.amount, x.rm, address);
    after_data(before, data!(x, 8), operand, address)
}

fn after_register_shift(before: &Knowledge, x: DataRegisterShift, address: u32) -> Knowledge
    requires { (x.sets_flags && is_pc x.rd) ≡ false }
    ensures { After (Operation.DataRegisterShift x) address before.now result }
{
    after_data(before, data!(x, 12), Known::Any, address)
}

fn after_immediate(before: &Knowledge, x: DataImmediate, address: u32) -> Knowledge
    requires { (x.sets_flags && is_pc x.rd) ≡ false }
    ensures { After (Operation.DataImmediate x) address before.now result }
{
    let operand = Known::exactly(rotated(x.value, x.rotation));
    after_data(before, data!(x, 8), operand, address)
}

fn after_multiply(before: &Knowledge, x: Multiply, address: u32) -> Knowledge
    ensures { After (Operation.Multiply x) address before.now result }
{
    let _ = address;
    let kept = forgotten(before, &Operation::Multiply(x));
    if x.sets_flags {
        return kept.with_flags(Compared::Nothing);
    }
    kept
}

fn after_branch(before: &Knowledge, x: Branch, address: u32) -> Knowledge
    ensures { After (Operation.Branch x) address before.now result }
{
    let kept = forgotten(before, &Operation::Branch(x));
    let next = Known::Address(ahead_of(address, 4));
    with_word(&kept, x.link, Register::R14, next)
}

fn carried_on(operation: &Operation, address: u32, before: &Knowledge) -> Knowledge
    requires { restores operation.now ≡ false }
    ensures { After operation.now address before.now result }
{
    match operation {
        Operation::Multiply(x) => after_multiply(before, *x, address),
        Operation::DataRegister(x) => after_register(before, *x, address),
        Operation::DataRegisterShift(x) => after_register_shift(before, *x, address),
        Operation::DataImmediate(x) => after_immediate(before, *x, address),
        Operation::SingleImmediate(x) => after_single_immediate(before, *x, address),
        Operation::SingleRegister(x) => after_single_register(before, *x, address),
        Operation::Block(x) => after_block(before, *x, address),
        Operation::Branch(x) => after_branch(before, *x, address),
        Operation::Swi(_) => *before,
        Operation::UndefinedTransfer(_) => *before,
        Operation::CoprocessorTransfer(_) => *before,
        Operation::Coprocessor(_) => *before,
    }
}

/// What is known after the instruction at the address, where its condition holds and it ends with neither an
/// exception nor a stop; nothing where it writes the PSR and the mode of R15.
pub fn after(operation: &Operation, address: u32, before: &Knowledge) -> Option<Knowledge>
    ensures known { IfSome result (λ known. After operation.now address before.now known) }
    ensures nothing { is_none result ≡ restores operation.now }
{
    if restores(operation) {
        return None;
    }
    Some(carried_on(operation, address, before))
}

/// States that what is known stays where an instruction's condition fails. It does nothing.
pub fn known_where_skipped()
    ensures { Passing }
{}
