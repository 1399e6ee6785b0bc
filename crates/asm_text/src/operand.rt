ghost use Rattle.std.specs.Prelude.{◌≡◌, map, option_map};
ghost use Rattle.asm_text.specs.Pieces.{in_pieces, piece_of};
ghost use Rattle.asm_text.specs.Operands.{first_amount, compare_of, data_of, data_with, factors_of};
ghost use Rattle.asm_text.specs.Operands.{lacks_rn, is_s, compare_rd, move_of, operand_of};
ghost use Rattle.asm_text.specs.Operands.{product_of, first_shift, first_shift_by, first_shift_words};
ghost use Rattle.asm_text.specs.Operands.{first_shifting};
ghost use Rattle.asm_text.specs.Operands.{sum_of, three_of, all_read};

use crate::names::Suffix;
use crate::number::first_number;
use crate::register::{first_register, first_register_comma, is_rrx, register_of, shift_of};
use crate::syntax::{Amount, Data, Operand, Product, Shifting};
use crate::token::{Mark, Token};
use arm2_decode::{Opcode, Register, Shift};

fn first_amount<'a, 'b>(
    shift: Shift,
    tokens: &'a [Token<'b>],
) -> Option<(Shifting, &'a [Token<'b>])>
    ensures { option_map in_pieces result ≡ first_amount shift (map piece_of tokens.now) }
{
    let (n, rest) = first_number(tokens)?;
    Some((Shifting::Amount(Amount::By(shift, n)), rest))
}

fn first_shift_by<'a, 'b>(
    shift: Shift,
    tokens: &'a [Token<'b>],
) -> Option<(Shifting, &'a [Token<'b>])>
    ensures { option_map in_pieces result ≡ first_shift_by shift (map piece_of tokens.now) }
{
    match tokens {
        [Token::Sign(Mark::Hash), rest @ ..] => first_amount(shift, rest),
        [Token::Run(text), rest @ ..] => {
            let r = register_of(text)?;
            Some((Shifting::Register(shift, r), rest))
        }
        _ => None,
    }
}

fn first_shift_words<'a, 'b>(
    name: &[u8],
    tokens: &'a [Token<'b>],
) -> Option<(Shifting, &'a [Token<'b>])>
    ensures { option_map in_pieces result ≡ first_shift_words name.now (map piece_of tokens.now) }
{
    match tokens {
        [Token::Gap, rest @ ..] => {
            let shift = shift_of(name)?;
            first_shift_by(shift, rest)
        }
        _ => {
            if is_rrx(name) {
                Some((Shifting::Amount(Amount::Rrx), tokens))
            } else {
                None
            }
        }
    }
}

fn first_shift<'a, 'b>(tokens: &'a [Token<'b>]) -> Option<(Shifting, &'a [Token<'b>])>
    ensures { option_map in_pieces result ≡ first_shift (map piece_of tokens.now) }
{
    match tokens {
        [Token::Run(name), rest @ ..] => first_shift_words(name, rest),
        _ => None,
    }
}

/// How the register in front of some tokens is shifted, and the tokens after the shift.
pub(crate) fn first_shifting<'a, 'b>(tokens: &'a [Token<'b>]) -> Option<(Shifting, &'a [Token<'b>])>
    ensures { option_map in_pieces result ≡ first_shifting (map piece_of tokens.now) }
{
    match tokens {
        [Token::Comma, rest @ ..] => first_shift(rest),
        _ => Some((Shifting::Amount(Amount::By(Shift::Lsl, 0)), tokens)),
    }
}

/// What was read from the front of some tokens, where nothing follows it.
pub(crate) fn all_read<'a, 'b, T: Copy>(front: Option<(T, &'a [Token<'b>])>) -> Option<T>
    ensures { result ≡ all_read (option_map in_pieces front.entry) }
{
    let (value, rest) = front?;
    if rest.is_empty() { Some(value) } else { None }
}

fn operand_of(tokens: &[Token<'_>]) -> Option<Operand>
    ensures { result ≡ operand_of (map piece_of tokens.now) }
{
    match tokens {
        [Token::Sign(Mark::Hash), rest @ ..] => {
            all_read(first_number(rest)).map(Operand::Immediate)
        }
        [Token::Run(text), rest @ ..] => {
            let m = register_of(text)?;
            let shifting = all_read(first_shifting(rest))?;
            Some(Operand::Shifted(m, shifting))
        }
        _ => None,
    }
}

fn lacks_rn(opcode: Opcode) -> bool
    ensures { result ≡ lacks_rn opcode }
{
    matches!(opcode, Opcode::Mov | Opcode::Mvn)
}

fn is_s(suffix: Suffix) -> bool
    ensures { result ≡ is_s suffix }
{
    matches!(suffix, Suffix::S)
}

fn compare_rd(suffix: Suffix) -> Register
    ensures { result ≡ compare_rd suffix }
{
    match suffix {
        Suffix::P => Register::R15,
        _ => Register::R0,
    }
}

fn compare_of(opcode: Opcode, suffix: Suffix, rn: Register, tokens: &[Token<'_>]) -> Option<Data>
    ensures { result ≡ compare_of opcode suffix rn (map piece_of tokens.now) }
{
    let operand = operand_of(tokens)?;
    Some(Data {
        opcode,
        sets_flags: true,
        rn,
        rd: compare_rd(suffix),
        operand,
    })
}

fn move_of(opcode: Opcode, suffix: Suffix, rd: Register, tokens: &[Token<'_>]) -> Option<Data>
    ensures { result ≡ move_of opcode suffix rd (map piece_of tokens.now) }
{
    let operand = operand_of(tokens)?;
    Some(Data {
        opcode,
        sets_flags: is_s(suffix),
        rn: Register::R0,
        rd,
        operand,
    })
}

fn three_of(opcode: Opcode, suffix: Suffix, rd: Register, tokens: &[Token<'_>]) -> Option<Data>
    ensures { result ≡ three_of opcode suffix rd (map piece_of tokens.now) }
{
    let (rn, rest) = first_register_comma(tokens)?;
    let operand = operand_of(rest)?;
    Some(Data {
        opcode,
        sets_flags: is_s(suffix),
        rn,
        rd,
        operand,
    })
}

fn data_with(opcode: Opcode, suffix: Suffix, r: Register, tokens: &[Token<'_>]) -> Option<Data>
    ensures { result ≡ data_with opcode suffix r (map piece_of tokens.now) }
{
    if opcode.is_compare() {
        compare_of(opcode, suffix, r, tokens)
    } else if lacks_rn(opcode) {
        move_of(opcode, suffix, r, tokens)
    } else {
        three_of(opcode, suffix, r, tokens)
    }
}

/// The operands of a data processing word.
pub(crate) fn data_of(opcode: Opcode, suffix: Suffix, tokens: &[Token<'_>]) -> Option<Data>
    ensures { result ≡ data_of opcode suffix (map piece_of tokens.now) }
{
    let (r, rest) = first_register_comma(tokens)?;
    data_with(opcode, suffix, r, rest)
}

fn factors_of(suffix: Suffix, rd: Register, rm: Register, tokens: &[Token<'_>]) -> Option<Product>
    ensures { result ≡ factors_of suffix rd rm (map piece_of tokens.now) }
{
    let rs = all_read(first_register(tokens))?;
    Some(Product {
        accumulate: false,
        sets_flags: is_s(suffix),
        rd,
        rn: Register::R0,
        rs,
        rm,
    })
}

fn sum_of(suffix: Suffix, rd: Register, rm: Register, tokens: &[Token<'_>]) -> Option<Product>
    ensures { result ≡ sum_of suffix rd rm (map piece_of tokens.now) }
{
    let (rs, rest) = first_register_comma(tokens)?;
    let rn = all_read(first_register(rest))?;
    Some(Product {
        accumulate: true,
        sets_flags: is_s(suffix),
        rd,
        rn,
        rs,
        rm,
    })
}

/// The operands of MUL, or of MLA, which accumulates.
pub(crate) fn product_of(accumulate: bool, suffix: Suffix, tokens: &[Token<'_>]) -> Option<Product>
    ensures { result ≡ product_of accumulate suffix (map piece_of tokens.now) }
{
    let (rd, rest) = first_register_comma(tokens)?;
    let (rm, rest) = first_register_comma(rest)?;
    if accumulate {
        sum_of(suffix, rd, rm, rest)
    } else {
        factors_of(suffix, rd, rm, rest)
    }
}
