ghost use Rattle.std.specs.Prelude.{◌≡◌, map, option_map};
ghost use Rattle.asm_text.specs.Pieces.{in_pieces, piece_of};
ghost use Rattle.asm_text.specs.Operands.{address_of, after_of, bang_of, after_base, before_of};
ghost use Rattle.asm_text.specs.Operands.{address, closed_of, unoffset_of};
ghost use Rattle.asm_text.specs.Operands.{signed_offset};
ghost use Rattle.asm_text.specs.Operands.{number_offset, first_offset};
ghost use Rattle.asm_text.specs.Operands.{register_offset};

use crate::number::first_number;
use crate::operand::{all_read, first_shifting};
use crate::register::first_register;
use crate::syntax::{Address, Distance, Shifting};
use crate::token::{Mark, Token};
use arm2_decode::Register;

// Whether an offset is added, and its distance.
type Offset = (bool, Distance);

fn register_offset<'a, 'b>(up: bool, tokens: &'a [Token<'b>]) -> Option<(Offset, &'a [Token<'b>])>
    ensures { option_map in_pieces result ≡ register_offset up (map piece_of tokens.now) }
{
    let (m, rest) = first_register(tokens)?;
    let (shifting, rest) = first_shifting(rest)?;
    match shifting {
        Shifting::Amount(amount) => {
            let distance = Distance::Register(m, amount);
            Some(((up, distance), rest))
        }
        Shifting::Register(_, _) => None,
    }
}

fn signed_offset<'a, 'b>(up: bool, tokens: &'a [Token<'b>]) -> Option<(Offset, &'a [Token<'b>])>
    ensures { option_map in_pieces result ≡ signed_offset up (map piece_of tokens.now) }
{
    let (n, rest) = first_number(tokens)?;
    let distance = Distance::Number(n);
    Some(((up, distance), rest))
}

fn number_offset<'a, 'b>(tokens: &'a [Token<'b>]) -> Option<(Offset, &'a [Token<'b>])>
    ensures { option_map in_pieces result ≡ number_offset (map piece_of tokens.now) }
{
    match tokens {
        [Token::Sign(Mark::Minus), rest @ ..] => signed_offset(false, rest),
        _ => signed_offset(true, tokens),
    }
}

fn first_offset<'a, 'b>(tokens: &'a [Token<'b>]) -> Option<(Offset, &'a [Token<'b>])>
    ensures { option_map in_pieces result ≡ first_offset (map piece_of tokens.now) }
{
    match tokens {
        [Token::Sign(Mark::Hash), rest @ ..] => number_offset(rest),
        [Token::Sign(Mark::Minus), rest @ ..] => register_offset(false, rest),
        _ => register_offset(true, tokens),
    }
}

// Nothing, or the mark of a base that is written back.
fn bang_of(tokens: &[Token<'_>]) -> Option<bool>
    ensures { result ≡ bang_of (map piece_of tokens.now) }
{
    match tokens {
        [] => Some(false),
        [Token::Sign(Mark::Bang)] => Some(true),
        _ => None,
    }
}

fn closed_of(tokens: &[Token<'_>]) -> Option<bool>
    ensures { result ≡ closed_of (map piece_of tokens.now) }
{
    match tokens {
        [Token::Sign(Mark::CloseBracket), rest @ ..] => bang_of(rest),
        _ => None,
    }
}

fn address(rn: Register, before: bool, write_back: bool, offset: Offset) -> Address
    ensures { result ≡ address rn before write_back offset }
{
    Address {
        rn,
        before,
        up: offset.0,
        write_back,
        distance: offset.1,
    }
}

fn before_of(rn: Register, tokens: &[Token<'_>]) -> Option<Address>
    ensures { result ≡ before_of rn (map piece_of tokens.now) }
{
    let (offset, rest) = first_offset(tokens)?;
    let write_back = closed_of(rest)?;
    Some(address(rn, true, write_back, offset))
}

fn unoffset_of(rn: Register, tokens: &[Token<'_>]) -> Option<Address>
    ensures { result ≡ unoffset_of rn (map piece_of tokens.now) }
{
    let write_back = bang_of(tokens)?;
    Some(address(rn, true, write_back, (true, Distance::Number(0))))
}

fn after_of(user: bool, rn: Register, tokens: &[Token<'_>]) -> Option<Address>
    ensures { result ≡ after_of user rn (map piece_of tokens.now) }
{
    match tokens {
        [Token::Comma, rest @ ..] => {
            let offset = all_read(first_offset(rest))?;
            Some(address(rn, false, user, offset))
        }
        _ => { if user { None } else { unoffset_of(rn, tokens) } }
    }
}

fn after_base(user: bool, rn: Register, tokens: &[Token<'_>]) -> Option<Address>
    ensures { result ≡ after_base user rn (map piece_of tokens.now) }
{
    match tokens {
        [Token::Sign(Mark::CloseBracket), rest @ ..] => after_of(user, rn, rest),
        [Token::Comma, rest @ ..] => { if user { None } else { before_of(rn, rest) } }
        _ => None,
    }
}

/// An address after its bracket; that of a User access is post-indexed.
pub(crate) fn address_of(user: bool, tokens: &[Token<'_>]) -> Option<Address>
    ensures { result ≡ address_of user (map piece_of tokens.now) }
{
    let (rn, rest) = first_register(tokens)?;
    after_base(user, rn, rest)
}
