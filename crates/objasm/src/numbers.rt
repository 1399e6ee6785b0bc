//! Numbers with a base.

ghost use Rattle.std.specs.Prelude.{◌≡◌, ◌≤◌};
ghost use Rattle.asm_text.specs.Numbers.{capped, digits_of, number_by};
ghost use Rattle.objasm.specs.Numerals.{by_base, read_numeral};

use asm_text::read_number;

// The first number that has no 32 bits.
const LIMIT: u64 = 0x1_0000_0000;

// The number of the digits, or 2^32 where it is larger.
fn capped(radix: u32, text: &[u8]) -> Option<u64>
    requires low { 2 ≤ radix }
    requires high { radix ≤ 9 }
    ensures { result ≡ capped (digits_of radix text.now) }
{
    if text.is_empty() {
        return None;
    }
    let mut value = 0;
    for byte in text {
        let digit = char::from(*byte).to_digit(radix)?;
        value = (value * u64::from(radix) + u64::from(digit)).min(LIMIT);
    }
    Some(value)
}

#[tactic(auto, using(crate::proofs::NumberLaws::fits_again))]
fn number_by(radix: u32, text: &[u8]) -> Option<u32>
    requires low { 2 ≤ radix }
    requires high { radix ≤ 9 }
    ensures { result ≡ number_by radix text.now }
{
    let value = capped(radix, text)?;
    if value < LIMIT {
        Some(value as u32)
    } else {
        None
    }
}

// The number of digits of a base from 2 to 9, which is itself a digit.
fn by_base(base: u8, digits: &[u8]) -> Option<u32>
    ensures { result ≡ by_base base digits.now }
{
    if base < b'2' {
        return None;
    }
    if base > b'9' {
        return None;
    }
    number_by(u32::from(base - b'0'), digits)
}

/// The number that a run spells: with its base and a `_` in front, or as our grammar has it.
pub(crate) fn read_numeral(text: &[u8]) -> Option<u32>
    ensures { result ≡ read_numeral text.now }
{
    match text {
        [base, b'_', digits @ ..] => by_base(*base, digits),
        _ => read_number(text),
    }
}
