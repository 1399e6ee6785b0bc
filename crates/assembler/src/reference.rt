ghost use Rattle.std.specs.Prelude.{◌≡◌, ◌≤◌, ◌+◌};
ghost use Rattle.bus_ticks.specs.declared.space.TheConstants.{SPACE_END};
ghost use Rattle.assembler.specs.Codes.{apart, is_ahead, refer, use_action, use_fault};

use crate::fault::LineFault;
use arm2_decode::{Opcode, Register};
use asm_text::{
    Address, Code, Data, Distance, Operand, Reference, SingleTransfer, Use, WordAction,
};

fn is_ahead(at: u32, target: u32) -> bool
    requires { at ≤ SPACE_END }
    ensures { result ≡ is_ahead at target }
{
    at + 8 <= target
}

// How far a target is from the address two words on.
fn apart(at: u32, target: u32) -> u32
    requires { at ≤ SPACE_END }
    ensures { result ≡ apart at target }
{
    if is_ahead(at, target) {
        target - (at + 8)
    } else {
        at + 8 - target
    }
}

fn use_action(how: Use, at: u32, target: u32) -> WordAction
    requires { at ≤ SPACE_END }
    ensures { result ≡ use_action how at target }
{
    match how {
        Use::Branch { link } => WordAction::Branch { link, target },
        Use::Adr(rd) => WordAction::Data(Data {
            opcode: if is_ahead(at, target) {
                Opcode::Add
            } else {
                Opcode::Sub
            },
            sets_flags: false,
            rn: Register::R15,
            rd,
            operand: Operand::Immediate(apart(at, target)),
        }),
        Use::Transfer { load, byte, rd } => WordAction::Single(SingleTransfer {
            load,
            byte,
            rd,
            address: Address {
                rn: Register::R15,
                before: true,
                up: is_ahead(at, target),
                write_back: false,
                distance: Distance::Number(apart(at, target)),
            },
        }),
    }
}

/// What a word with a target does at an address: a branch to the target; for ADR the sum of R15 and a number,
/// or their difference; a transfer by R15 and a number.
pub(crate) fn refer(reference: Reference, at: u32, target: u32) -> Code
    requires { at ≤ SPACE_END }
    ensures { result ≡ refer reference at target }
{
    Code {
        cond: reference.cond,
        action: use_action(reference.how, at, target),
    }
}

/// Why a word with a target has no word, whatever the target is.
pub(crate) fn use_fault(how: Use) -> Option<LineFault>
    ensures { result ≡ use_fault how }
{
    match how {
        Use::Transfer {
            byte: true,
            rd: Register::R15,
            ..
        } => Some(LineFault::Unallocated),
        _ => None,
    }
}
