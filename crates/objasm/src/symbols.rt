ghost use Rattle.std.specs.Prelude.{◌≡◌, ◌++◌, [], IfOk, IfErr, OnOk, Ok, map};
ghost use Rattle.std.specs.List.{cons_option};
ghost use Rattle.objasm.specs.Names.{Told, meanings_of};
ghost use Rattle.objasm.specs.Parts.{part_of};
ghost use Rattle.objasm.specs.Symbols.{after_byte, after_greater, after_less, after_run, at_last};
ghost use Rattle.objasm.specs.Symbols.{begins_number, goes_on, no_number, number_of, operator_named, quoted};
ghost use Rattle.objasm.specs.Symbols.{reading_step, sign, sign_or, symbols_in};
ghost use Rattle.objasm.specs.declared.symbols.Reading.TheVariants.{Ready};

use crate::exchanges::from;
use crate::faults::LineFault;
use crate::names::Names;
use crate::numbers::read_numeral;
use crate::operators::Binary;
use crate::token::Token;
use asm_text::read_hex;
use std::alloc::{AllocError, Global};

/// What an expression is written with.
#[derive(Clone, Copy)]
pub enum Symbol {
    /// A number, or the name of one.
    Number(u32),
    /// An operator.
    Operator(Binary),
    /// `:NOT:`
    Not,
    /// `:LNOT:`
    LogicalNot,
    /// `(`
    Open,
    /// `)`
    Close,
}

/// What has been read of a symbol of several parts.
#[derive(Clone, Copy)]
pub enum Reading {
    /// Nothing.
    Ready,
    /// The `&` in front of hexadecimal digits.
    Hex,
    /// The `/` of `/=`.
    Slash,
    /// The first `<` of `<<`, `<=` and `<>`.
    Less,
    /// The first `>` of `>>` and `>=`.
    Greater,
    /// The first `:` round the name of an operator.
    Colon,
    /// That and the name.
    Named(Symbol),
    /// The `'` in front of a character.
    Quote,
    /// That and the character.
    Quoted(u8),
}

/// A symbol, if one is read to its end, and what has been read of the next.
type Step = (Option<Symbol>, Reading);

fn operator_named(name: &[u8]) -> Option<Symbol>
    ensures { result ≡ operator_named name.now }
{
    match name {
        b"MOD" => Some(Symbol::Operator(Binary::Mod)),
        b"SHL" => Some(Symbol::Operator(Binary::Shl)),
        b"SHR" => Some(Symbol::Operator(Binary::Shr)),
        b"ROL" => Some(Symbol::Operator(Binary::Rol)),
        b"ROR" => Some(Symbol::Operator(Binary::Ror)),
        b"AND" => Some(Symbol::Operator(Binary::And)),
        b"OR" => Some(Symbol::Operator(Binary::Or)),
        b"EOR" => Some(Symbol::Operator(Binary::Eor)),
        b"NOT" => Some(Symbol::Not),
        b"LAND" => Some(Symbol::Operator(Binary::Both)),
        b"LOR" => Some(Symbol::Operator(Binary::Either)),
        b"LEOR" => Some(Symbol::Operator(Binary::OneAlone)),
        b"LNOT" => Some(Symbol::LogicalNot),
        _ => None,
    }
}

/// Whether a run is a number, and no name.
pub(crate) fn begins_number(run: &[u8]) -> bool
    ensures { result ≡ begins_number run.now }
{
    match run {
        [first, ..] => first.is_ascii_digit(),
        _ => false,
    }
}

// Why a name stands for no number.
fn no_number(names: &Names, run: &[u8]) -> LineFault
    ensures { result ≡ no_number (meanings_of names.now) run.now }
{
    if names.bases.get(run).is_some() {
        LineFault::NotANumber
    } else {
        LineFault::NameMissing
    }
}

fn number_of(names: &Names, run: &[u8]) -> Result<u32, LineFault>
    ensures { result ≡ number_of (meanings_of names.now) run.now }
{
    if begins_number(run) {
        return read_numeral(run).ok_or(LineFault::BadNumber);
    }
    names.constants.get(run).ok_or(no_number(names, run))
}

fn quoted(run: &[u8]) -> Result<Step, LineFault>
    ensures { result ≡ quoted run.now }
{
    match run {
        [character] => Ok((None, Reading::Quoted(*character))),
        _ => Err(LineFault::BadExpression),
    }
}

fn after_run(names: &Names, reading: Reading, run: &[u8]) -> Result<Step, LineFault>
    ensures { result ≡ after_run (meanings_of names.now) reading run.now }
{
    match reading {
        Reading::Ready => match number_of(names, run) {
            Ok(n) => Ok((Some(Symbol::Number(n)), Reading::Ready)),
            Err(fault) => Err(fault),
        },
        Reading::Hex => match read_hex(run) {
            Some(n) => Ok((Some(Symbol::Number(n)), Reading::Ready)),
            None => Err(LineFault::BadNumber),
        },
        Reading::Colon => match operator_named(run) {
            Some(symbol) => Ok((None, Reading::Named(symbol))),
            None => Err(LineFault::BadExpression),
        },
        Reading::Quote => quoted(run),
        _ => Err(LineFault::BadExpression),
    }
}

// Whether the next part is one of these bytes.
fn goes_on(tokens: &[Token<'_>], bytes: &[u8]) -> bool
    ensures { result ≡ goes_on bytes.now (map part_of tokens.now) }
{
    match tokens {
        [Token::Byte(b), ..] => bytes.contains(b),
        _ => false,
    }
}

// A sign of one byte, where no byte after it makes it another.
fn sign_or(alone: Binary, begun: Reading, is_begun: bool) -> Result<Step, LineFault>
    ensures { result ≡ sign_or alone begun is_begun }
{
    if is_begun {
        Ok((None, begun))
    } else {
        Ok((Some(Symbol::Operator(alone)), Reading::Ready))
    }
}

// What a byte is by itself, with what follows it: a symbol, or the beginning of one.
fn sign(b: u8, rest: &[Token<'_>]) -> Result<Step, LineFault>
    ensures { result ≡ sign b (map part_of rest.now) }
{
    match b {
        b' ' | b'\t' => Ok((None, Reading::Ready)),
        b'+' => Ok((Some(Symbol::Operator(Binary::Plus)), Reading::Ready)),
        b'-' => Ok((Some(Symbol::Operator(Binary::Minus)), Reading::Ready)),
        b'*' => Ok((Some(Symbol::Operator(Binary::Times)), Reading::Ready)),
        b'/' => sign_or(Binary::Over, Reading::Slash, goes_on(rest, b"=")),
        b'=' => Ok((Some(Symbol::Operator(Binary::Equal)), Reading::Ready)),
        b'(' => Ok((Some(Symbol::Open), Reading::Ready)),
        b')' => Ok((Some(Symbol::Close), Reading::Ready)),
        b'&' => Ok((None, Reading::Hex)),
        b'<' => sign_or(Binary::Less, Reading::Less, goes_on(rest, b"<=>")),
        b'>' => sign_or(Binary::Greater, Reading::Greater, goes_on(rest, b"=>")),
        b':' => Ok((None, Reading::Colon)),
        b'\'' => Ok((None, Reading::Quote)),
        _ => Err(LineFault::BadExpression),
    }
}

// A symbol at its last byte, which must be this one.
fn at_last(b: u8, last: u8, symbol: Symbol) -> Result<Step, LineFault>
    ensures { result ≡ at_last b last symbol }
{
    if b == last {
        Ok((Some(symbol), Reading::Ready))
    } else {
        Err(LineFault::BadExpression)
    }
}

// The sign that begins with `<`, by its second byte.
fn after_less(b: u8) -> Result<Step, LineFault>
    ensures { result ≡ after_less b }
{
    match b {
        b'<' => Ok((Some(Symbol::Operator(Binary::Shl)), Reading::Ready)),
        b'=' => Ok((Some(Symbol::Operator(Binary::AtMost)), Reading::Ready)),
        b'>' => Ok((Some(Symbol::Operator(Binary::Unequal)), Reading::Ready)),
        _ => Err(LineFault::BadExpression),
    }
}

// The same of `>`.
fn after_greater(b: u8) -> Result<Step, LineFault>
    ensures { result ≡ after_greater b }
{
    match b {
        b'>' => Ok((Some(Symbol::Operator(Binary::Shr)), Reading::Ready)),
        b'=' => Ok((Some(Symbol::Operator(Binary::AtLeast)), Reading::Ready)),
        _ => Err(LineFault::BadExpression),
    }
}

fn after_byte(reading: Reading, b: u8, rest: &[Token<'_>]) -> Result<Step, LineFault>
    ensures { result ≡ after_byte reading b (map part_of rest.now) }
{
    match reading {
        Reading::Ready => sign(b, rest),
        Reading::Slash => at_last(b, b'=', Symbol::Operator(Binary::Unequal)),
        Reading::Less => after_less(b),
        Reading::Greater => after_greater(b),
        Reading::Named(symbol) => at_last(b, b':', symbol),
        Reading::Quote => Ok((None, Reading::Quoted(b))),
        Reading::Quoted(character) => at_last(b, b'\'', Symbol::Number(u32::from(character))),
        Reading::Hex | Reading::Colon => Err(LineFault::BadExpression),
    }
}

// The first part of some, read.
fn reading_step(names: &Names, reading: Reading, tokens: &[Token<'_>]) -> Result<Step, LineFault>
    ensures { result ≡ reading_step (meanings_of names.now) reading (map part_of tokens.now) }
{
    match tokens {
        [Token::Run(run), ..] => after_run(names, reading, run),
        [Token::Byte(b), rest @ ..] => after_byte(reading, *b, rest),
        _ => Err(LineFault::BadExpression),
    }
}

fn push_some(found: &mut Vec<Symbol>, symbol: Option<Symbol>) -> Result<(), AllocError>
    ensures { OnOk result (found.new.items ≡ found.old.items ++ cons_option symbol []) }
{
    if let Some(symbol) = symbol {
        found.push(symbol)?;
    }
    Ok(())
}

/// The symbols that a text is written with.
pub(crate) fn symbols_in(
    alloc: Global,
    names: &Names,
    tokens: &[Token<'_>],
) -> Result<Vec<Symbol>, LineFault>
    ensures ok { IfOk result
        (λ found. symbols_in (meanings_of names.now) Ready (map part_of tokens.now) ≡ Ok found.items) }
    ensures fault { IfErr result
        (λ fault. Told fault (symbols_in (meanings_of names.now) Ready (map part_of tokens.now))) }
{
    let mut found = Vec::new(alloc);
    let mut reading = Reading::Ready;
    for index in 0..tokens.len() {
        match reading_step(names, reading, from(tokens, index)) {
            Ok((symbol, next)) => {
                push_some(&mut found, symbol)?;
                reading = next;
            }
            Err(fault) => return Err(fault),
        }
    }
    match reading {
        Reading::Ready => Ok(found),
        _ => Err(LineFault::BadExpression),
    }
}
