ghost use Rattle.std.specs.Prelude.{◌≡◌, ℕ, List, false, if◌then◌else◌};
ghost use Rattle.arm2_decode.specs.Names.{is_pc};
ghost use Rattle.arm2_effect.specs.Operands.{current_in};
ghost use Rattle.operation_laws.specs.Keeps.{changes, links};
ghost use Rattle.known_words.specs.After.{unless_changed};
ghost use Rattle.known_words.specs.Known.{IsKnown};
ghost use Rattle.known_words.specs.Knowledge.{Holds, known_of};

use crate::knowledge::{Compared, Knowledge};
use crate::words::Known;
use arm2_decode::{Operation, Register};

fn links(operation: &Operation) -> bool
    ensures { result ≡ links operation.now }
{
    match operation {
        Operation::Branch(branch) => branch.link,
        _ => false,
    }
}

fn changes(operation: &Operation, register: Register) -> bool
    ensures { result ≡ changes operation.now register }
{
    operation.writes(register) || links(operation) && register.is_link()
}

fn kept(before: &Knowledge, operation: &Operation, register: Register) -> Known
    requires { is_pc register ≡ false }
    ensures { result ≡ (if changes operation.now register then Known.Any else known_of before.now register) }
{
    if changes(operation, register) {
        return Known::Any;
    }
    before.of(register)
}

fn compared_kept(compared: Compared, operation: &Operation) -> Compared
    ensures { result ≡ unless_changed operation.now compared }
{
    match compared {
        Compared::Nothing => Compared::Nothing,
        Compared::Of(register) => {
            if changes(operation, register) {
                Compared::Nothing
            } else {
                compared
            }
        }
        Compared::Less(register, _) => {
            if changes(operation, register) {
                Compared::Nothing
            } else {
                compared
            }
        }
    }
}

macro_rules! registers_kept {
    ($before:expr, $operation:expr, $($name:ident)+) => {
        [$(kept($before, $operation, Register::$name)),+]
    };
}

/// Without the registers that an instruction may change.
pub(crate) fn forgotten(before: &Knowledge, operation: &Operation) -> Knowledge
    ensures registers { (register : Register) → is_pc register ≡ false → known_of result register
        ≡ (if changes operation.now register then Known.Any else known_of before.now register) }
    ensures compared { result.compared ≡ unless_changed operation.now before.now.compared }
{
    Knowledge {
        registers: registers_kept!(
            before, operation, R0 R1 R2 R3 R4 R5 R6 R7 R8 R9 R10 R11 R12 R13 R14
        ),
        compared: compared_kept(before.compared, operation),
    }
}

/// With more known of a register other than R15.
pub(crate) fn learned(before: &Knowledge, register: Register, known: Known) -> Knowledge
    requires { is_pc register ≡ false }
    ensures { (entry turns now : List ℕ) → Holds entry turns before.now now
        → IsKnown entry turns known (current_in register now) → Holds entry turns result now }
{
    before.entered(register, known).with_flags(before.compared)
}
