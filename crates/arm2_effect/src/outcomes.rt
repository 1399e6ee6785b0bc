ghost use Rattle.std.specs.Prelude.{◌≡◌, ◌^◌, nat_le};
ghost use Rattle.arm2_effect.specs.Outcomes.{bits_of, difference_of, flags_after};
ghost use Rattle.arm2_effect.specs.Outcomes.{outcome_of, sum_of};

use arm2_decode::{Flags, Opcode};
use shifter::Shifted;

/// What an operation computes.
#[derive(Clone, Copy)]
pub(crate) struct Outcome {
    /// The word, also where a compare drops it.
    pub value: u32,
    /// C afterwards, where the flags are set.
    pub carry: bool,
    /// V afterwards, where the flags are set.
    pub overflow: bool,
}

fn is_negative(word: u32) -> bool
    ensures { result ≡ nat_le (2 ^ 31) word }
{
    word >= 0x8000_0000
}

fn sum_of(x: u32, y: u32, carry: bool) -> Outcome
    ensures { result ≡ sum_of x y carry }
{
    let sum = u64::from(x) + u64::from(y) + u64::from(carry);
    let value = (sum % 0x1_0000_0000) as u32;
    let same_sign = is_negative(x) == is_negative(y);
    Outcome {
        value,
        carry: sum >= 0x1_0000_0000,
        overflow: same_sign && is_negative(value) != is_negative(x),
    }
}

// As the processor does it: the sum with the inverted word, and 1 more without a borrow.
fn difference_of(x: u32, y: u32, borrow: bool) -> Outcome
    ensures { result ≡ difference_of x y borrow }
{
    sum_of(x, !y, !borrow)
}

fn bits_of(value: u32, operand: Shifted, flags: Flags) -> Outcome
    ensures { result ≡ bits_of value operand flags }
{
    Outcome {
        value,
        carry: operand.carry,
        overflow: flags.overflow,
    }
}

/// What an operation computes of Rn, the second operand and the flags before.
#[inline(always)]
pub(crate) fn outcome_of(opcode: Opcode, x: u32, operand: Shifted, flags: Flags) -> Outcome
    ensures { result ≡ outcome_of opcode x operand flags }
{
    let y = operand.value;
    match opcode {
        Opcode::And | Opcode::Tst => bits_of(x & y, operand, flags),
        Opcode::Eor | Opcode::Teq => bits_of(x ^ y, operand, flags),
        Opcode::Sub | Opcode::Cmp => difference_of(x, y, false),
        Opcode::Rsb => difference_of(y, x, false),
        Opcode::Add | Opcode::Cmn => sum_of(x, y, false),
        Opcode::Adc => sum_of(x, y, flags.carry),
        Opcode::Sbc => difference_of(x, y, !flags.carry),
        Opcode::Rsc => difference_of(y, x, !flags.carry),
        Opcode::Orr => bits_of(x | y, operand, flags),
        Opcode::Mov => bits_of(y, operand, flags),
        Opcode::Bic => bits_of(x & !y, operand, flags),
        Opcode::Mvn => bits_of(!y, operand, flags),
    }
}

/// The condition flags that an outcome sets.
#[inline(always)]
pub(crate) fn flags_after(outcome: Outcome) -> Flags
    ensures { result ≡ flags_after outcome }
{
    Flags {
        negative: is_negative(outcome.value),
        zero: outcome.value == 0,
        carry: outcome.carry,
        overflow: outcome.overflow,
    }
}
