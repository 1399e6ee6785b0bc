ghost use Rattle.std.specs.Prelude.{◌≡◌, ◌<◌, ◌*◌, ◌/◌, ◌%◌, ◌^◌, ℕ, List};
ghost use Rattle.arm2_effect.specs.Operands.{rotated_byte};
ghost use Rattle.known_words.specs.Known.{IsIn, IsKnown, Shifts};

use crate::words::{Known, Range};
use arm2_decode::Shift;
use shifter::rotate_imm;

// The range of words of a range that are shifted to the left, where no bit is lost.
fn doubled(amount: u32, range: Range) -> Known
    requires { amount < 32 }
    ensures { (entry turns : List ℕ) → (word : ℕ) → IsIn range word
        → IsKnown entry turns result (word * 2 ^ amount % 2 ^ 32) }
{
    let factor = 1_u32 << amount;
    match range.high.checked_mul(factor) {
        Some(high) => Known::between(range.low.wrapping_mul(factor), high),
        None => Known::Any,
    }
}

fn halved(amount: u32, range: Range) -> Known
    requires { amount < 32 }
    ensures { (entry turns : List ℕ) → (word : ℕ) → IsIn range word
        → IsKnown entry turns result (word / 2 ^ amount) }
{
    Known::between(range.low >> amount, range.high >> amount)
}

fn left(amount: u32, known: Known) -> Known
    requires { amount < 32 }
    ensures { Shifts Shift.Lsl amount known result }
{
    if amount == 0 {
        return known;
    }
    match known {
        Known::Word(word) => doubled(amount, word.range),
        _ => Known::Any,
    }
}

// LSR 0 stands for 32.
fn right(amount: u32, known: Known) -> Known
    requires { amount < 32 }
    ensures { Shifts Shift.Lsr amount known result }
{
    if amount == 0 {
        return Known::Any;
    }
    match known {
        Known::Word(word) => halved(amount, word.range),
        _ => Known::Any,
    }
}

/// What is known of a word that is shifted by an amount in the instruction, from 0 to 31.
pub fn shifted(shift: Shift, amount: u32, known: Known) -> Known
    requires { amount < 32 }
    ensures { Shifts shift amount known result }
{
    match shift {
        Shift::Lsl => left(amount, known),
        Shift::Lsr => right(amount, known),
        _ => Known::Any,
    }
}

/// A byte, rotated right by twice the rotation, which is from 0 to 15.
#[tactic(auto, using(crate::proofs::ShiftLemmas::rotated_is))]
pub fn rotated(value: u32, rotation: u32) -> u32
    requires byte { value < 256 }
    requires places { rotation < 16 }
    ensures { (regs : List ℕ) → (rotated_byte value rotation regs).value ≡ result }
{
    rotate_imm(value, rotation, false).value
}
