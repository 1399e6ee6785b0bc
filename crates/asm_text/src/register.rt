ghost use Rattle.std.specs.Prelude.{◌≡◌, map, option_map};
ghost use Rattle.asm_text.specs.Pieces.{in_pieces, piece_of};
ghost use Rattle.asm_text.specs.Registers.{is_rrx, first_register_comma, first_register, register_of};
ghost use Rattle.asm_text.specs.Registers.{shift_of};

use crate::table::named_in;
use crate::token::Token;
use arm2_decode::{Register, Shift};

// Names, first in upper and then in lower case.

const REGISTERS: [(&[u8], Register); 38] = [
    (b"R0", Register::R0),
    (b"R1", Register::R1),
    (b"R2", Register::R2),
    (b"R3", Register::R3),
    (b"R4", Register::R4),
    (b"R5", Register::R5),
    (b"R6", Register::R6),
    (b"R7", Register::R7),
    (b"R8", Register::R8),
    (b"R9", Register::R9),
    (b"R10", Register::R10),
    (b"R11", Register::R11),
    (b"R12", Register::R12),
    (b"R13", Register::R13),
    (b"R14", Register::R14),
    (b"R15", Register::R15),
    (b"SP", Register::R13),
    (b"LR", Register::R14),
    (b"PC", Register::R15),
    (b"r0", Register::R0),
    (b"r1", Register::R1),
    (b"r2", Register::R2),
    (b"r3", Register::R3),
    (b"r4", Register::R4),
    (b"r5", Register::R5),
    (b"r6", Register::R6),
    (b"r7", Register::R7),
    (b"r8", Register::R8),
    (b"r9", Register::R9),
    (b"r10", Register::R10),
    (b"r11", Register::R11),
    (b"r12", Register::R12),
    (b"r13", Register::R13),
    (b"r14", Register::R14),
    (b"r15", Register::R15),
    (b"sp", Register::R13),
    (b"lr", Register::R14),
    (b"pc", Register::R15),
];

const SHIFTS: [(&[u8], Shift); 8] = [
    (b"LSL", Shift::Lsl),
    (b"LSR", Shift::Lsr),
    (b"ASR", Shift::Asr),
    (b"ROR", Shift::Ror),
    (b"lsl", Shift::Lsl),
    (b"lsr", Shift::Lsr),
    (b"asr", Shift::Asr),
    (b"ror", Shift::Ror),
];

/// The register that a text names: `R0` to `R15`, `SP`, `LR` or `PC`, wholly in upper or in lower case.
#[tactic(auto, unfolding(crate::specs::Registers::register_of))]
pub fn register_of(text: &[u8]) -> Option<Register>
    ensures { result ≡ register_of text.now }
{
    named_in(&REGISTERS, text)
}

/// The shift that a text names.
#[tactic(auto, unfolding(crate::specs::Registers::shift_of))]
pub(crate) fn shift_of(text: &[u8]) -> Option<Shift>
    ensures { result ≡ shift_of text.now }
{
    named_in(&SHIFTS, text)
}

/// Whether a text names the rotation by one place through the carry.
pub(crate) fn is_rrx(text: &[u8]) -> bool
    ensures { result ≡ is_rrx text.now }
{
    matches!(text, b"RRX" | b"rrx")
}

/// The register that some tokens begin with, and those after it.
pub(crate) fn first_register<'a, 'b>(tokens: &'a [Token<'b>]) -> Option<(Register, &'a [Token<'b>])>
    ensures { option_map in_pieces result ≡ first_register (map piece_of tokens.now) }
{
    match tokens {
        [Token::Run(text), rest @ ..] => Some((register_of(text)?, rest)),
        _ => None,
    }
}

/// A register and a comma that some tokens begin with, and those after them.
pub(crate) fn first_register_comma<'a, 'b>(
    tokens: &'a [Token<'b>],
) -> Option<(Register, &'a [Token<'b>])>
    ensures { option_map in_pieces result ≡ first_register_comma (map piece_of tokens.now) }
{
    match tokens {
        [Token::Run(text), Token::Comma, rest @ ..] => Some((register_of(text)?, rest)),
        _ => None,
    }
}
