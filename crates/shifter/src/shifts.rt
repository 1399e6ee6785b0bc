ghost use Rattle.std.specs.Prelude.{◌≡◌, ◌≤◌, ◌<◌, ◌*◌, ◌++◌, drop, take};
ghost use Rattle.shifter.specs.Shifts.{by_immediate, by_register, extended, left, right, rotated, Has};
ghost use Rattle.shifter.specs.Shifts.{multiply_cycles};
ghost use Rattle.arm2_decode.specs.Bits.{bit_of_word};
ghost use Rattle.shifter.specs.Word.{fill_word, word_bits};

use arm2_decode::{Shift, bit_of_word};

/// The most cycles that a multiply takes.
pub const MOST_MULTIPLY_CYCLES: u32 = 16;

/// The result of a shift.
#[derive(Clone, Copy, Debug, PartialEq, Eq)]
pub struct Shifted {
    /// The word.
    pub value: u32,
    /// The last bit shifted out, or the carry flag as it was where none is.
    pub carry: bool,
}

fn shift_left(amount: u32, value: u32) -> Shifted
    requires { 1 ≤ amount }
    ensures { Has result (left amount (word_bits value)) }
{
    if amount < 32 {
        Shifted {
            value: value << amount,
            carry: bit_of_word(value, 32 - amount),
        }
    } else {
        Shifted {
            value: 0,
            carry: amount == 32 && bit_of_word(value, 0),
        }
    }
}

// A word of copies of one bit.
fn fill_word(fill: bool) -> u32
    ensures { result ≡ fill_word fill }
{
    if fill { u32::MAX } else { 0 }
}

fn shift_right(amount: u32, fill: bool, value: u32) -> Shifted
    requires { 1 ≤ amount }
    ensures { Has result (right amount fill (word_bits value)) }
{
    let ones = fill_word(fill);
    if amount < 32 {
        Shifted {
            value: (value >> amount) + (ones << (32 - amount)),
            carry: bit_of_word(value, amount - 1),
        }
    } else {
        Shifted {
            value: ones,
            carry: if amount == 32 {
                bit_of_word(value, 31)
            } else {
                fill
            },
        }
    }
}

// A rotation to the right by fewer than 32 places.
fn turn(places: u32, value: u32) -> u32
    requires { places < 32 }
    ensures { word_bits result ≡ drop places (word_bits value) ++ take places (word_bits value) }
{
    if places == 0 {
        return value;
    }
    (value >> places) + (value << (32 - places))
}

fn rotate(amount: u32, value: u32) -> Shifted
    ensures { Has result (rotated amount (word_bits value)) }
{
    let value = turn(amount % 32, value);
    Shifted {
        value,
        carry: bit_of_word(value, 31),
    }
}

// A rotation to the right by one place through the carry (RRX).
fn extend(value: u32, carry: bool) -> Shifted
    ensures { Has result (extended (word_bits value) carry) }
{
    Shifted {
        value: value / 2 + u32::from(carry) * 0x8000_0000,
        carry: bit_of_word(value, 0),
    }
}

macro_rules! by_nonzero {
    ($kind:expr, $amount:expr, $value:expr) => {
        match $kind {
            Shift::Lsl => shift_left($amount, $value),
            Shift::Lsr => shift_right($amount, false, $value),
            Shift::Asr => shift_right($amount, bit_of_word($value, 31), $value),
            Shift::Ror => rotate($amount, $value),
        }
    };
}

/// A shift by the low byte of a register, from 0 to 255: 0 keeps the value and the carry.
pub fn shift_reg(kind: Shift, amount: u32, value: u32, carry: bool) -> Shifted
    requires { amount < 256 }
    ensures { Has result (by_register kind amount (word_bits value) carry) }
{
    if amount == 0 {
        return Shifted { value, carry };
    }
    by_nonzero!(kind, amount, value)
}

/// A shift by an amount in the word, from 0 to 31: LSR 0 and ASR 0 stand for 32, and ROR 0 for RRX.
pub fn shift_imm(kind: Shift, amount: u32, value: u32, carry: bool) -> Shifted
    requires { amount < 32 }
    ensures { Has result (by_immediate kind amount (word_bits value) carry) }
{
    match kind {
        Shift::Ror if amount == 0 => extend(value, carry),
        Shift::Lsr if amount == 0 => shift_reg(Shift::Lsr, 32, value, carry),
        Shift::Asr if amount == 0 => shift_reg(Shift::Asr, 32, value, carry),
        _ => shift_reg(kind, amount, value, carry),
    }
}

/// An immediate operand: a byte, rotated right by twice the rotation, which is from 0 to 15.
pub fn rotate_imm(imm8: u32, rotation: u32, carry: bool) -> Shifted
    requires byte { imm8 < 256 }
    requires places { rotation < 16 }
    ensures { Has result (by_register Shift.Ror (2 * rotation) (word_bits imm8) carry) }
{
    shift_reg(Shift::Ror, 2 * rotation, imm8, carry)
}

/// The cycles that a multiply takes with this multiplier, from 1 to [`MOST_MULTIPLY_CYCLES`]: two bits of it
/// in each.
pub fn multiply_cycles(number: u32) -> u32
    ensures cycles { result ≡ multiply_cycles number }
    ensures some { 1 ≤ result }
    ensures few { result ≤ MOST_MULTIPLY_CYCLES }
{
    let significant = 32 - number.leading_zeros();
    (significant / 2 + 1).min(MOST_MULTIPLY_CYCLES)
}

/// A multiplier that takes so many cycles, from 1 to [`MOST_MULTIPLY_CYCLES`]: of those that take the most,
/// the greatest word.
pub fn multiplier_of(cycles: u32) -> u32
    requires some { 1 ≤ cycles }
    requires few { cycles ≤ MOST_MULTIPLY_CYCLES }
    ensures { multiply_cycles result ≡ cycles }
{
    match cycles {
        1 => 1,
        MOST_MULTIPLY_CYCLES => u32::MAX,
        _ => 1 << (2 * cycles - 3),
    }
}
