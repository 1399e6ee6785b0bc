//! When what is known is of no registers.

ghost use Rattle.std.specs.Prelude.{◌≡◌, ℕ, IsTrue, false};
ghost use Rattle.arm2_decode.specs.Names.{is_pc};
ghost use Rattle.known_words.specs.Known.{IsIn};
ghost use Rattle.known_places.specs.Endless.{HasNone, NeverHolds};

use arm2_decode::Register;
use known_words::{Knowledge, Known, Range};

const BANK: [Register; 15] = [
    Register::R0,
    Register::R1,
    Register::R2,
    Register::R3,
    Register::R4,
    Register::R5,
    Register::R6,
    Register::R7,
    Register::R8,
    Register::R9,
    Register::R10,
    Register::R11,
    Register::R12,
    Register::R13,
    Register::R14,
];

fn is_empty(range: Range) -> bool
    ensures { IsTrue result → (word : ℕ) → IsIn range word → ⊥ }
{
    range.high < range.low
}

fn has_none(known: Known) -> bool
    ensures { IsTrue result → HasNone known }
{
    match known {
        Known::Word(word) => is_empty(word.range),
        _ => false,
    }
}

fn never_holds_of(known: &Knowledge, register: Register) -> bool
    ensures { IsTrue result → NeverHolds known.now }
{
    if register.is_pc() {
        return false;
    }
    has_none(known.of(register))
}

/// Whether by some register this is seen to be known of none.
pub(crate) fn never_holds(known: &Knowledge) -> bool
    ensures { IsTrue result → NeverHolds known.now }
{
    for number in 0..BANK.len() {
        if never_holds_of(known, BANK[number]) {
            return true;
        }
    }
    false
}
