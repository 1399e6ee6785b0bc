ghost use Rattle.std.specs.Prelude.{◌≡◌, ◌<◌, ◌^◌, IfSome, map, option_map};
ghost use Rattle.asm_text.specs.Pieces.{in_pieces, piece_of};
ghost use Rattle.asm_text.specs.Operands.{after_step, block_before, block_based, block_of, block_up};
ghost use Rattle.asm_text.specs.Operands.{braced, caret_of, first_step, list_from, list_of};
ghost use Rattle.asm_text.specs.Operands.{list_step, run_bits, with_bits};
ghost use Rattle.asm_text.specs.declared.list.ListPlace.TheVariants.{Start};

use crate::names::Suffix;
use crate::register::{first_register, register_of};
use crate::syntax::BlockTransfer;
use crate::token::{Mark, Token};
use arm2_decode::Register;

// The registers from one to another, as bits.
fn run_bits(first: Register, last: Register) -> Option<u32>
    ensures value { result ≡ run_bits first last }
    ensures fits { IfSome result (λ bits. bits < 2 ^ 16) }
{
    let first = first.number();
    let last = last.number();
    if first <= last {
        Some((1 << (last + 1)) - (1 << first))
    } else {
        None
    }
}

/// Where a reader of a list of registers is.
#[derive(Clone, Copy)]
pub enum ListPlace {
    /// A register or a run of them comes next.
    Start,
    /// After a register, which may begin a run.
    First(Register),
    /// After the mark of a run from a register.
    To(Register),
    /// After a run.
    After,
}

/// What a piece does in a list of registers.
#[derive(Clone, Copy)]
pub enum Step {
    /// The list goes on.
    Goes(u32, ListPlace),
    /// The list ends.
    Ends(u32),
}

// A list with the registers from one to another.
fn with_bits(list: u32, first: Register, last: Register) -> Option<u32>
    requires { list < 2 ^ 16 }
    ensures value { result ≡ with_bits list (run_bits first last) }
    ensures fits { IfSome result (λ more. more < 2 ^ 16) }
{
    let bits = run_bits(first, last)?;
    Some(list | bits)
}

fn after_step(list: u32, token: Token<'_>) -> Option<Step>
    requires { list < 2 ^ 16 }
    ensures value { result ≡ after_step list (piece_of token.entry) }
    ensures fits { IfSome result (λ step. list_of step < 2 ^ 16) }
{
    match token {
        Token::Comma => Some(Step::Goes(list, ListPlace::Start)),
        Token::Sign(Mark::CloseBrace) => Some(Step::Ends(list)),
        _ => None,
    }
}

fn first_step(list: u32, first: Register, token: Token<'_>) -> Option<Step>
    requires { list < 2 ^ 16 }
    ensures value { result ≡ first_step list first (piece_of token.entry) }
    ensures fits { IfSome result (λ step. list_of step < 2 ^ 16) }
{
    match token {
        Token::Sign(Mark::Minus) => Some(Step::Goes(list, ListPlace::To(first))),
        _ => {
            let more = with_bits(list, first, first)?;
            after_step(more, token)
        }
    }
}

fn list_step(list: u32, place: ListPlace, token: Token<'_>) -> Option<Step>
    requires { list < 2 ^ 16 }
    ensures value { result ≡ list_step list place (piece_of token.entry) }
    ensures fits { IfSome result (λ step. list_of step < 2 ^ 16) }
{
    match place {
        ListPlace::Start => match token {
            Token::Run(name) => {
                let first = register_of(name)?;
                Some(Step::Goes(list, ListPlace::First(first)))
            }
            _ => None,
        },
        ListPlace::First(first) => first_step(list, first, token),
        ListPlace::To(first) => match token {
            Token::Run(name) => {
                let last = register_of(name)?;
                let more = with_bits(list, first, last)?;
                Some(Step::Goes(more, ListPlace::After))
            }
            _ => None,
        },
        ListPlace::After => after_step(list, token),
    }
}

// The registers of a list after its brace, and the tokens after it.
#[tactic(auto, using(crate::proofs::ListLaws::list_turn))]
fn first_list<'a, 'b>(tokens: &'a [Token<'b>]) -> Option<(u32, &'a [Token<'b>])>
    ensures value { option_map in_pieces result ≡ list_from 0 Start (map piece_of tokens.now) }
    ensures fits { IfSome result (λ f. f.0 < 2 ^ 16) }
{
    let mut list = 0;
    let mut place = ListPlace::Start;
    for (index, token) in tokens.iter().enumerate() {
        match list_step(list, place, *token)? {
            Step::Goes(more, next) => {
                list = more;
                place = next;
            }
            Step::Ends(whole) => return Some((whole, &tokens[index + 1..])),
        }
    }
    None
}

// Nothing, or the mark of User registers.
fn caret_of(tokens: &[Token<'_>]) -> Option<bool>
    ensures { result ≡ caret_of (map piece_of tokens.now) }
{
    match tokens {
        [] => Some(false),
        [Token::Sign(Mark::Caret)] => Some(true),
        _ => None,
    }
}

// Whether the address moves before each word. Stacks grow the other way for loads.
fn block_before(load: bool, suffix: Suffix) -> bool
    ensures { result ≡ block_before load suffix }
{
    match suffix {
        Suffix::Ib | Suffix::Db => true,
        Suffix::Ed | Suffix::Ea => load,
        Suffix::Fd | Suffix::Fa => !load,
        _ => false,
    }
}

// Whether the address moves upwards.
fn block_up(load: bool, suffix: Suffix) -> bool
    ensures { result ≡ block_up load suffix }
{
    match suffix {
        Suffix::Ia | Suffix::Ib => true,
        Suffix::Fd | Suffix::Ed => load,
        Suffix::Fa | Suffix::Ea => !load,
        _ => false,
    }
}

fn braced(
    load: bool,
    suffix: Suffix,
    rn: Register,
    write_back: bool,
    tokens: &[Token<'_>],
) -> Option<BlockTransfer>
    ensures { result ≡ braced load suffix rn write_back (map piece_of tokens.now) }
{
    match tokens {
        [Token::Comma, Token::Sign(Mark::OpenBrace), rest @ ..] => {
            let (list, rest) = first_list(rest)?;
            let user = caret_of(rest)?;
            Some(BlockTransfer {
                load,
                before: block_before(load, suffix),
                up: block_up(load, suffix),
                user,
                write_back,
                rn,
                list,
            })
        }
        _ => None,
    }
}

fn block_based(
    load: bool,
    suffix: Suffix,
    rn: Register,
    tokens: &[Token<'_>],
) -> Option<BlockTransfer>
    ensures { result ≡ block_based load suffix rn (map piece_of tokens.now) }
{
    match tokens {
        [Token::Sign(Mark::Bang), rest @ ..] => braced(load, suffix, rn, true, rest),
        _ => braced(load, suffix, rn, false, tokens),
    }
}

/// The operands of LDM, which loads, or of STM.
pub(crate) fn block_of(load: bool, suffix: Suffix, tokens: &[Token<'_>]) -> Option<BlockTransfer>
    ensures { result ≡ block_of load suffix (map piece_of tokens.now) }
{
    let (rn, rest) = first_register(tokens)?;
    block_based(load, suffix, rn, rest)
}
