ghost use Rattle.std.specs.Prelude.{◌≡◌, ◌↔◌, IsTrue};
ghost use Rattle.control_flow.specs.Free.{HasFreeWord, IsFree, IsFreeWord, adds_an_immediate};
ghost use Rattle.control_flow.specs.Free.{copies_a_register, is_free_operation};

use crate::edges::{Edge, Label};
use crate::places::Place;
use arm2_decode::{DataImmediate, DataRegister, Opcode, Operation, asks_for_user, decode};
use image::{Image, is_past_ram};

fn copies_a_register(x: &DataRegister) -> bool
    ensures { result ≡ copies_a_register x.now }
{
    x.opcode.is_mov() && !x.rm.is_pc() && x.shift.is_lsl() && x.amount == 0
}

fn adds_an_immediate(x: &DataImmediate) -> bool
    ensures { result ≡ adds_an_immediate x.now }
{
    matches!(x.opcode, Opcode::Add | Opcode::Sub) && !x.rn.is_pc()
}

fn is_free_operation(operation: &Operation) -> bool
    ensures { result ≡ is_free_operation operation.now }
{
    match operation {
        Operation::DataRegister(x) => !operation.writes_pc() || copies_a_register(x),
        Operation::DataRegisterShift(_) => !operation.writes_pc(),
        Operation::DataImmediate(x) => !operation.writes_pc() || adds_an_immediate(x),
        Operation::SingleImmediate(x) => !x.rn.is_pc() && !asks_for_user(x.before, x.write_back),
        Operation::SingleRegister(_) => false,
        Operation::Multiply(_)
        | Operation::Block(_)
        | Operation::Branch(_)
        | Operation::Swi(_)
        | Operation::UndefinedTransfer(_)
        | Operation::CoprocessorTransfer(_)
        | Operation::Coprocessor(_) => true,
    }
}

fn is_free_word(word: u32) -> bool
    ensures { IsTrue result ↔ IsFreeWord word }
{
    match decode(word) {
        Ok(instr) => is_free_operation(&instr.operation),
        Err(_) => false,
    }
}

// Whether the image has a word there that can be done freely.
fn has_free_word(image: &Image, address: u32) -> bool
    ensures { IsTrue result ↔ HasFreeWord image.now address }
{
    match image.word_at(address) {
        Some(word) => is_free_word(word),
        None => false,
    }
}

/// Whether the edge is free.
///
/// It leaves an address outside of 2400000 to 2FFFFFF, and passes over the word there, or does an instruction
/// other than these: a single transfer whose base is R15, whose offset is in a register or which asks for
/// User rights; and data processing that writes R15, but for MOV of a register, not shifted, and ADD and SUB
/// of an immediate, where that register is not R15. Of each free edge there is a machine that takes it at
/// exactly its price: a law of `flow_graph`, `free_edges_are_tight`, says so, and its `tight_state` returns
/// that machine.
pub fn is_free(image: &Image, edge: &Edge) -> bool
    ensures { IsTrue result ↔ IsFree image.now edge.now }
{
    let Place::At(_, address) = edge.from else {
        return false;
    };
    if is_past_ram(address) {
        return false;
    }
    if edge.label == Label::Skip {
        return true;
    }
    has_free_word(image, address)
}
