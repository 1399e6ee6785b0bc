ghost use Rattle.std.specs.Prelude.{◌≡◌, IfNone, IfSome, None, Some};
ghost use Rattle.control_flow.specs.Edges.{HasAction};
ghost use Rattle.control_flow.specs.declared.actions.Action.{Action};
ghost use Rattle.image.specs.Image.{word_of};

use crate::ways::has_return_address;
use arm2_decode::{Instr, Operation, Register};
use control_flow::{Action, action_of};
use image::Image;
use word_shapes::is_odd_writer;

/// When the word at an address is carried out and what it then does, if the image has one there.
pub(crate) fn action_at(image: &Image, at: u32) -> Option<Action>
    ensures some { IfSome result (HasAction image.now at) }
    ensures only { (action : Action) → HasAction image.now at action → result ≡ Some action }
    ensures none { IfNone result (word_of image.now at ≡ None) }
{
    match image.word_at(at) {
        Some(word) => Some(action_of(word)),
        None => None,
    }
}

// Whether any register may differ after an operation: after a call, an exception, and a compare that changes
// the mode.
fn may_change_all(operation: &Operation) -> bool {
    match operation {
        Operation::DataRegister(x) => x.opcode.is_compare() && x.rd.is_pc(),
        Operation::DataRegisterShift(x) => x.opcode.is_compare() && x.rd.is_pc(),
        Operation::DataImmediate(x) => x.opcode.is_compare() && x.rd.is_pc(),
        Operation::Branch(x) => x.link,
        Operation::Swi(_)
        | Operation::UndefinedTransfer(_)
        | Operation::CoprocessorTransfer(_)
        | Operation::Coprocessor(_) => true,
        Operation::Multiply(_)
        | Operation::SingleImmediate(_)
        | Operation::SingleRegister(_)
        | Operation::Block(_) => false,
    }
}

// Whether the operation at an address may call a routine by writing R15: it does not look like a return, or
// the word before puts the return address into R14.
fn may_call(image: &Image, at: u32, operation: &Operation) -> bool {
    is_odd_writer(operation) || operation.writes_pc() && has_return_address(image, at)
}

/// Whether a register may differ after the instruction at an address: none does under NV, and any may after a
/// word that may call a routine by writing R15.
pub(crate) fn may_change(image: &Image, at: u32, instr: &Instr, register: Register) -> bool {
    let operation = &instr.operation;
    !instr.cond.is_never()
        && (operation.writes(register)
            || may_change_all(operation)
            || may_call(image, at, operation))
}
