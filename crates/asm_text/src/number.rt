ghost use Rattle.std.specs.Prelude.{◌≡◌, ◌⊎◌, map, option_map};
ghost use Rattle.asm_text.specs.Pieces.{in_pieces, piece_of};
ghost use Rattle.asm_text.specs.Numbers.{capped, digits_of, first_hex, number_by, first_number, read_number};

use crate::token::{Mark, Token};

// The first number that has no 32 bits.
const LIMIT: u64 = 0x1_0000_0000;

// The number of the digits, or 2^32 where it is larger.
fn capped(radix: u32, text: &[u8]) -> Option<u64>
    requires { (radix ≡ 10) ⊎ (radix ≡ 16) }
    ensures { result ≡ capped (digits_of radix text.now) }
{
    if text.is_empty() {
        return None;
    }
    let mut value = 0;
    for byte in text {
        let digit = char::from(*byte).to_digit(radix)?;
        value = (value * u64::from(radix) + u64::from(digit)).min(LIMIT);
    }
    Some(value)
}

#[tactic(auto, using(crate::proofs::Capped::capped_fits))]
fn number_by(radix: u32, text: &[u8]) -> Option<u32>
    requires { (radix ≡ 10) ⊎ (radix ≡ 16) }
    ensures { result ≡ number_by radix text.now }
{
    let value = capped(radix, text)?;
    if value < LIMIT {
        Some(value as u32)
    } else {
        None
    }
}

/// The number that a run of letters and digits spells: decimal, or hexadecimal after `0x`, below 2^32.
pub fn read_number(text: &[u8]) -> Option<u32>
    ensures { result ≡ read_number text.now }
{
    match text {
        [b'0', b'x', hex @ ..] => read_hex(hex),
        _ => number_by(10, text),
    }
}

/// The number that hexadecimal digits spell, below 2^32.
pub fn read_hex(text: &[u8]) -> Option<u32>
    ensures { result ≡ number_by 16 text.now }
{
    number_by(16, text)
}

/// The hexadecimal number that some tokens begin with, and those after it.
pub(crate) fn first_hex<'a, 'b>(tokens: &'a [Token<'b>]) -> Option<(u32, &'a [Token<'b>])>
    ensures { option_map in_pieces result ≡ first_hex (map piece_of tokens.now) }
{
    match tokens {
        [Token::Run(text), rest @ ..] => Some((read_hex(text)?, rest)),
        _ => None,
    }
}

/// The number that some tokens begin with, and those after it.
pub(crate) fn first_number<'a, 'b>(tokens: &'a [Token<'b>]) -> Option<(u32, &'a [Token<'b>])>
    ensures { option_map in_pieces result ≡ first_number (map piece_of tokens.now) }
{
    match tokens {
        [Token::Run(text), rest @ ..] => Some((read_number(text)?, rest)),
        [Token::Sign(Mark::Ampersand), rest @ ..] => first_hex(rest),
        _ => None,
    }
}
