//! What stands in our grammar for a line of the dialect.

ghost use Rattle.std.specs.Prelude.{◌≡◌, ◌++◌, [], OnOk, IfErr, Ok, decimal, map, option_map};
ghost use Rattle.objasm.specs.Names.{Told, meanings_of};
ghost use Rattle.objasm.specs.Parts.{part_of};
ghost use Rattle.objasm.specs.PlainLines.{address_in, assert_text, behind, body_text, exchanged_text};
ghost use Rattle.objasm.specs.PlainLines.{field_text, hex_literal};
ghost use Rattle.objasm.specs.PlainLines.{instruction_text, is_address, is_label, is_label_field, is_sum};
ghost use Rattle.objasm.specs.PlainLines.{kind_with};
ghost use Rattle.objasm.specs.PlainLines.{literal_at, literal_of, literal_text, lone, ltorg_text, nop_text};
ghost use Rattle.objasm.specs.PlainLines.{number_text};
ghost use Rattle.objasm.specs.PlainLines.{offset_text, operands_text, operation_text, part_text, parts_text};
ghost use Rattle.objasm.specs.PlainLines.{place_text, placed_text, plain_text};
ghost use Rattle.objasm.specs.PlainLines.{register_text, run_text, spaced_operands, statement_text};
ghost use Rattle.objasm.specs.PlainLines.{stop_text, stops_text};
ghost use Rattle.objasm.specs.PlainLines.{sum_line, sum_text, unset_text, value_text, word_line, word_with};
ghost use Rattle.objasm.specs.PlainLines.{written, written_so};
ghost use Rattle.objasm.specs.Settings.{setting_of};
ghost use Rattle.objasm.specs.Words.{sum_word, word_text};

use crate::exchanges::{Flip, exchange_of, exchanged_word, flipped, from};
use crate::faults::LineFault;
use crate::maps::map_line_of;
use crate::names::{Address, Names};
use crate::settings::{setting_of, truth_of, value_of};
use crate::symbols::begins_number;
use crate::token::{
    Token, after_blanks, after_field, first_field, front_blanks, is_over, is_stop, lone_run,
};
use crate::words::{
    Operands, is_adr, is_assert, is_directive, is_ltorg, is_nop, is_silent, kind_of, put_word_text,
    sum_word,
};
use asm_text::{read_hex, read_number};
use itoa::Buffer;
use std::alloc::{AllocError, Global};

/// How what is written in one place of the operands is translated.
#[derive(Clone, Copy)]
pub enum Translation {
    /// An expression.
    Number,
    /// An expression, with a `-` if its value is 2^31 or more.
    Offset,
    /// An expression, whose value is changed.
    Changed(Flip),
    /// An expression or a label.
    Value,
    /// The same as in `Parts`, or a name of a map, which stands for `[Rn,#offset]`.
    Place,
    /// The same as in `Parts`, or such a name, which stands for `Rn,#offset`.
    Sum,
    /// Names of registers and numbers, and what else there is.
    Parts,
}

/// A number that our grammar has as well.
#[derive(Clone, Copy)]
pub(crate) enum Literal<'a> {
    /// Decimal, or hexadecimal behind `0x`.
    Plain(&'a [u8]),
    /// The hexadecimal digits behind `&`.
    Hex(&'a [u8]),
}

// How what follows this stop is translated.
fn written(kind: Operands, stop: u8) -> Translation
    ensures { result ≡ written kind stop }
{
    if stop == b'#' {
        match kind {
            Operands::Offsets => Translation::Offset,
            Operands::Exchanged(flip) => Translation::Changed(flip),
            _ => Translation::Number,
        }
    } else {
        match kind {
            Operands::Values => Translation::Value,
            Operands::Offsets => {
                if stop == b',' {
                    Translation::Place
                } else {
                    Translation::Parts
                }
            }
            Operands::Sums => Translation::Sum,
            _ => Translation::Parts,
        }
    }
}

fn lone<'a>(literal: Literal<'a>, value: Option<u32>, rest: &[Token<'_>]) -> Option<Literal<'a>>
    ensures { option_map literal_text result
        ≡ lone (literal_text literal.entry) value (map part_of rest.now) }
{
    match value {
        Some(_) => {
            if is_over(after_blanks(rest)) {
                Some(literal)
            } else {
                None
            }
        }
        None => None,
    }
}

fn hex_literal<'a>(tokens: &[Token<'a>]) -> Option<Literal<'a>>
    ensures { option_map literal_text result ≡ hex_literal (map part_of tokens.now) }
{
    match tokens {
        [Token::Run(digits), rest @ ..] => lone(Literal::Hex(digits), read_hex(digits), rest),
        _ => None,
    }
}

fn literal_at<'a>(tokens: &[Token<'a>]) -> Option<Literal<'a>>
    ensures { option_map literal_text result ≡ literal_at (map part_of tokens.now) }
{
    match tokens {
        [Token::Run(digits), rest @ ..] => {
            lone(Literal::Plain(digits), read_number(digits), rest)
        }
        [Token::Byte(b), rest @ ..] => { if *b == b'&' { hex_literal(rest) } else { None } }
        _ => None,
    }
}

// The number that tokens are, if our grammar has it as well.
fn literal_of<'a>(tokens: &[Token<'a>]) -> Option<Literal<'a>>
    ensures { option_map literal_text result ≡ literal_of (map part_of tokens.now) }
{
    literal_at(after_blanks(tokens))
}

pub(crate) fn put_decimal(out: &mut Vec<u8>, n: u32) -> Result<(), AllocError>
    ensures { OnOk result (out.new.items ≡ out.old.items ++ decimal n) }
{
    let mut buffer = Buffer::new();
    out.extend_from_slice(buffer.format(n).as_bytes())
}

fn put_literal(out: &mut Vec<u8>, literal: Literal<'_>) -> Result<(), AllocError>
    ensures { OnOk result (out.new.items ≡ out.old.items ++ literal_text literal.entry) }
{
    match literal {
        Literal::Plain(digits) => out.extend_from_slice(digits),
        Literal::Hex(digits) => {
            out.push(b'&')?;
            out.extend_from_slice(digits)
        }
    }
}

fn put_written(out: &mut Vec<u8>, literal: Option<Literal<'_>>, n: u32) -> Result<(), AllocError>
    ensures { OnOk result
        (out.new.items ≡ out.old.items ++ written_so (option_map literal_text literal.entry) n) }
{
    match literal {
        Some(literal) => put_literal(out, literal),
        None => put_decimal(out, n),
    }
}

// The value of an expression, or the expression where our grammar has it.
fn put_number(out: &mut Vec<u8>, tokens: &[Token<'_>], n: u32) -> Result<(), AllocError>
    ensures { OnOk result (out.new.items ≡ out.old.items ++ number_text (map part_of tokens.now) n) }
{
    put_written(out, literal_of(tokens), n)
}

fn put_offset(out: &mut Vec<u8>, tokens: &[Token<'_>], n: u32) -> Result<(), AllocError>
    ensures { OnOk result (out.new.items ≡ out.old.items ++ offset_text (map part_of tokens.now) n) }
{
    if n < 0x8000_0000 {
        return put_number(out, tokens, n);
    }
    out.push(b'-')?;
    put_decimal(out, u32::MAX - n + 1)
}

fn put_register(out: &mut Vec<u8>, n: u32) -> Result<(), AllocError>
    ensures { OnOk result (out.new.items ≡ out.old.items ++ register_text n) }
{
    out.push(b'R')?;
    put_decimal(out, n)
}

fn put_run(names: &Names, run: &[u8], out: &mut Vec<u8>) -> Result<(), AllocError>
    ensures { OnOk result (out.new.items ≡ out.old.items ++ run_text (meanings_of names.now) run.now) }
{
    match names.registers.get(run) {
        Some(n) => put_register(out, n),
        None => out.extend_from_slice(run),
    }
}

fn put_part(names: &Names, token: Token<'_>, out: &mut Vec<u8>) -> Result<(), AllocError>
    ensures { OnOk result
        (out.new.items ≡ out.old.items ++ part_text (meanings_of names.now) (part_of token.entry)) }
{
    match token {
        Token::Run(run) => put_run(names, run, out),
        Token::Byte(b) => {
            out.push(b)?;
            Ok(())
        }
    }
}

pub(crate) fn put_parts(
    names: &Names,
    tokens: &[Token<'_>],
    out: &mut Vec<u8>,
) -> Result<(), AllocError>
    ensures { OnOk result
        (out.new.items ≡ out.old.items ++ parts_text (meanings_of names.now) (map part_of tokens.now)) }
{
    for token in tokens {
        put_part(names, *token, out)?;
    }
    Ok(())
}

fn is_label(names: &Names, run: &[u8]) -> bool
    ensures { result ≡ is_label (meanings_of names.now) run.now }
{
    !begins_number(run) & names.constants.get(run).is_none()
}

// Whether a place of a list of numbers has nothing or a label.
fn is_label_field(names: &Names, tokens: &[Token<'_>]) -> bool
    ensures { result ≡ is_label_field (meanings_of names.now) (map part_of tokens.now) }
{
    match after_blanks(tokens) {
        [] => true,
        [Token::Run(run), rest @ ..] => is_label(names, run) & is_over(after_blanks(rest)),
        _ => false,
    }
}

// The address that a lone name of a map stands for.
fn address_in(names: &Names, tokens: &[Token<'_>]) -> Option<Address>
    ensures { result ≡ address_in (meanings_of names.now) (map part_of tokens.now) }
{
    match lone_run(after_blanks(tokens)) {
        Some(run) => names.address(run),
        None => None,
    }
}

fn put_address(out: &mut Vec<u8>, address: Address) -> Result<(), AllocError>
    ensures { OnOk result (out.new.items ≡ out.old.items ++ place_text address) }
{
    out.push(b'[')?;
    put_register(out, address.base)?;
    out.extend_from_slice(b",#")?;
    put_offset(out, &[], address.offset)?;
    out.push(b']')?;
    Ok(())
}

fn put_terms(out: &mut Vec<u8>, address: Address) -> Result<(), AllocError>
    ensures { OnOk result (out.new.items ≡ out.old.items ++ sum_text address) }
{
    put_register(out, address.base)?;
    out.extend_from_slice(b",#")?;
    put_decimal(out, address.offset)
}

// An operand of LDR or STR.
fn put_place(names: &Names, tokens: &[Token<'_>], out: &mut Vec<u8>) -> Result<(), AllocError>
    ensures { OnOk result (out.new.items
        ≡ out.old.items ++ placed_text place_text (meanings_of names.now)
        (address_in (meanings_of names.now) (map part_of tokens.now)) (map part_of tokens.now)) }
{
    match address_in(names, tokens) {
        Some(address) => {
            put_parts(names, front_blanks(tokens), out)?;
            put_address(out, address)
        }
        None => put_parts(names, tokens, out),
    }
}

// An operand of ADR where it is a sum.
fn put_sum(names: &Names, tokens: &[Token<'_>], out: &mut Vec<u8>) -> Result<(), AllocError>
    ensures { OnOk result (out.new.items
        ≡ out.old.items ++ placed_text sum_text (meanings_of names.now)
        (address_in (meanings_of names.now) (map part_of tokens.now)) (map part_of tokens.now)) }
{
    match address_in(names, tokens) {
        Some(address) => {
            put_parts(names, front_blanks(tokens), out)?;
            put_terms(out, address)
        }
        None => put_parts(names, tokens, out),
    }
}

fn put_field(
    alloc: Global,
    names: &Names,
    how: Translation,
    tokens: &[Token<'_>],
    out: &mut Vec<u8>,
) -> Result<(), LineFault>
    ensures ok { OnOk result
        (behind out.old.items (field_text (meanings_of names.now) how (map part_of tokens.now))
        ≡ Ok out.new.items) }
    ensures fault { IfErr result
        (λ fault. Told fault (field_text (meanings_of names.now) how (map part_of tokens.now))) }
{
    match how {
        Translation::Number => {
            let n = value_of(alloc, names, tokens)?;
            put_number(out, tokens, n)?;
            Ok(())
        }
        Translation::Offset => {
            let n = value_of(alloc, names, tokens)?;
            put_offset(out, tokens, n)?;
            Ok(())
        }
        Translation::Changed(flip) => {
            let n = value_of(alloc, names, tokens)?;
            put_decimal(out, flipped(flip, n))?;
            Ok(())
        }
        Translation::Value => put_value(alloc, names, tokens, out),
        Translation::Place => Ok(put_place(names, tokens, out)?),
        Translation::Sum => Ok(put_sum(names, tokens, out)?),
        Translation::Parts => Ok(put_parts(names, tokens, out)?),
    }
}

fn put_value(
    alloc: Global,
    names: &Names,
    tokens: &[Token<'_>],
    out: &mut Vec<u8>,
) -> Result<(), LineFault>
    ensures ok { OnOk result
        (behind out.old.items (value_text (meanings_of names.now) (map part_of tokens.now))
        ≡ Ok out.new.items) }
    ensures fault { IfErr result
        (λ fault. Told fault (value_text (meanings_of names.now) (map part_of tokens.now))) }
{
    if is_label_field(names, tokens) {
        put_parts(names, tokens, out)?;
        return Ok(());
    }
    let n = value_of(alloc, names, tokens)?;
    put_parts(names, front_blanks(tokens), out)?;
    put_number(out, tokens, n)?;
    Ok(())
}

// A stop, and what follows it up to the next. Nothing where the first part is no stop.
fn put_stop(
    alloc: Global,
    names: &Names,
    kind: Operands,
    tokens: &[Token<'_>],
    out: &mut Vec<u8>,
) -> Result<(), LineFault>
    ensures ok { OnOk result
        (behind out.old.items (stop_text (meanings_of names.now) kind (map part_of tokens.now))
        ≡ Ok out.new.items) }
    ensures fault { IfErr result
        (λ fault. Told fault (stop_text (meanings_of names.now) kind (map part_of tokens.now))) }
{
    match tokens {
        [Token::Byte(b), rest @ ..] => {
            if !is_stop(*b) {
                return Ok(());
            }
            out.push(*b)?;
            put_field(alloc, names, written(kind, *b), first_field(rest), out)
        }
        _ => Ok(()),
    }
}

// Each stop, and what follows it.
fn put_stops(
    alloc: Global,
    names: &Names,
    kind: Operands,
    tokens: &[Token<'_>],
    out: &mut Vec<u8>,
) -> Result<(), LineFault>
    ensures ok { OnOk result
        (behind out.old.items (stops_text (meanings_of names.now) kind (map part_of tokens.now))
        ≡ Ok out.new.items) }
    ensures fault { IfErr result
        (λ fault. Told fault (stops_text (meanings_of names.now) kind (map part_of tokens.now))) }
{
    for index in 0..tokens.len() {
        if let Err(fault) = put_stop(alloc, names, kind, from(tokens, index), out) {
            return Err(fault);
        }
    }
    Ok(())
}

fn put_operands(
    alloc: Global,
    names: &Names,
    kind: Operands,
    tokens: &[Token<'_>],
    out: &mut Vec<u8>,
) -> Result<(), LineFault>
    ensures ok { OnOk result
        (behind out.old.items (operands_text (meanings_of names.now) kind (map part_of tokens.now))
        ≡ Ok out.new.items) }
    ensures fault { IfErr result
        (λ fault. Told fault (operands_text (meanings_of names.now) kind (map part_of tokens.now))) }
{
    put_field(alloc, names, written(kind, b','), first_field(tokens), out)?;
    put_stops(alloc, names, kind, tokens, out)
}

// The operands of a word, where it is exchanged in this way.
fn kind_with(word: &[u8], exchange: Option<Flip>) -> Operands
    ensures { result ≡ kind_with word.now exchange }
{
    match exchange {
        Some(flip) => Operands::Exchanged(flip),
        None => kind_of(word),
    }
}

fn put_word_with(
    alloc: Global,
    word: &[u8],
    exchange: Option<Flip>,
    out: &mut Vec<u8>,
) -> Result<(), AllocError>
    ensures { OnOk result (out.new.items ≡ out.old.items ++ word_text (word_with word.now exchange)) }
{
    match exchange {
        Some(_) => {
            let other = exchanged_word(alloc, word)?;
            put_word_text(&other, out)
        }
        None => put_word_text(word, out),
    }
}

fn put_nop(tokens: &[Token<'_>], out: &mut Vec<u8>) -> Result<(), LineFault>
    ensures ok { OnOk result
        (behind out.old.items (nop_text (map part_of tokens.now)) ≡ Ok out.new.items) }
    ensures fault { IfErr result (λ fault. Told fault (nop_text (map part_of tokens.now))) }
{
    if is_over(after_blanks(tokens)) {
        out.extend_from_slice(b"MOV R0,R0")?;
        Ok(())
    } else {
        Err(LineFault::BadOperand)
    }
}

// Refuses what stands behind LTORG.
fn ltorg_alone(tokens: &[Token<'_>]) -> Result<(), LineFault>
    ensures ok { OnOk result (ltorg_text (map part_of tokens.now) ≡ Ok []) }
    ensures fault { IfErr result (λ fault. Told fault (ltorg_text (map part_of tokens.now))) }
{
    if is_over(after_blanks(tokens)) {
        Ok(())
    } else {
        Err(LineFault::BadOperand)
    }
}

// Refuses an assertion that does not hold.
fn assert_holds(alloc: Global, names: &Names, tokens: &[Token<'_>]) -> Result<(), LineFault>
    ensures ok { OnOk result (assert_text (meanings_of names.now) (map part_of tokens.now) ≡ Ok []) }
    ensures fault { IfErr result
        (λ fault. Told fault (assert_text (meanings_of names.now) (map part_of tokens.now))) }
{
    let holds = truth_of(alloc, names, tokens)?;
    if holds {
        Ok(())
    } else {
        Err(LineFault::AssertionFailed)
    }
}

// The blanks behind a word, and its operands.
fn put_word_operands(
    alloc: Global,
    names: &Names,
    kind: Operands,
    tokens: &[Token<'_>],
    out: &mut Vec<u8>,
) -> Result<(), LineFault>
    ensures ok { OnOk result
        (behind out.old.items (spaced_operands (meanings_of names.now) kind (map part_of tokens.now))
        ≡ Ok out.new.items) }
    ensures fault { IfErr result
        (λ fault. Told fault (spaced_operands (meanings_of names.now) kind (map part_of tokens.now))) }
{
    put_parts(names, front_blanks(tokens), out)?;
    put_operands(alloc, names, kind, after_blanks(tokens), out)
}

// Whether a name of a map with a base register follows the comma.
fn is_address(names: &Names, tokens: &[Token<'_>]) -> bool
    ensures { result ≡ is_address (meanings_of names.now) (map part_of tokens.now) }
{
    match tokens {
        [Token::Byte(b), rest @ ..] => {
            if *b == b',' {
                address_in(names, first_field(rest)).is_some()
            } else {
                false
            }
        }
        _ => false,
    }
}

// Whether a word is ADR of such a name.
fn is_sum(names: &Names, word: &[u8], tokens: &[Token<'_>]) -> bool
    ensures { result ≡ is_sum (meanings_of names.now) word.now (map part_of tokens.now) }
{
    is_adr(word) && is_address(names, after_field(tokens))
}

fn put_sum_word(alloc: Global, word: &[u8], out: &mut Vec<u8>) -> Result<(), AllocError>
    ensures { OnOk result (out.new.items ≡ out.old.items ++ word_text (sum_word word.now)) }
{
    let sum = sum_word(alloc, word)?;
    put_word_text(&sum, out)
}

fn put_sum_line(
    alloc: Global,
    names: &Names,
    word: &[u8],
    tokens: &[Token<'_>],
    out: &mut Vec<u8>,
) -> Result<(), LineFault>
    ensures ok { OnOk result
        (behind out.old.items (sum_line (meanings_of names.now) word.now (map part_of tokens.now))
        ≡ Ok out.new.items) }
    ensures fault { IfErr result
        (λ fault. Told fault (sum_line (meanings_of names.now) word.now (map part_of tokens.now))) }
{
    put_sum_word(alloc, word, out)?;
    put_word_operands(alloc, names, Operands::Sums, tokens, out)
}

// A word of the processor, and its operands.
#[tactic(auto, unfolding(crate::specs::PlainLines::operation_text))]
fn put_operation(
    alloc: Global,
    names: &Names,
    word: &[u8],
    tokens: &[Token<'_>],
    out: &mut Vec<u8>,
) -> Result<(), LineFault>
    ensures ok { OnOk result
        (behind out.old.items (operation_text (meanings_of names.now) word.now (map part_of tokens.now))
        ≡ Ok out.new.items) }
    ensures fault { IfErr result
        (λ fault. Told fault (operation_text (meanings_of names.now) word.now (map part_of tokens.now))) }
{
    if is_sum(names, word, tokens) {
        return put_sum_line(alloc, names, word, tokens, out);
    }
    let exchange = exchange_of(alloc, names, word, tokens)?;
    put_word_with(alloc, word, exchange, out)?;
    put_word_operands(alloc, names, kind_with(word, exchange), tokens, out)
}

fn put_instruction(
    alloc: Global,
    names: &Names,
    word: &[u8],
    tokens: &[Token<'_>],
    out: &mut Vec<u8>,
) -> Result<(), LineFault>
    ensures ok { OnOk result
        (behind out.old.items (instruction_text (meanings_of names.now) word.now (map part_of tokens.now))
        ≡ Ok out.new.items) }
    ensures fault { IfErr result
        (λ fault. Told fault (instruction_text (meanings_of names.now) word.now (map part_of tokens.now))) }
{
    if is_nop(word) {
        return put_nop(tokens, out);
    }
    if is_silent(word) {
        return Ok(());
    }
    if is_ltorg(word) {
        return ltorg_alone(tokens);
    }
    if is_assert(word) {
        return assert_holds(alloc, names, tokens);
    }
    if is_directive(word) {
        return Err(LineFault::UnknownDirective);
    }
    put_operation(alloc, names, word, tokens, out)
}

fn put_word(
    alloc: Global,
    names: &Names,
    tokens: &[Token<'_>],
    out: &mut Vec<u8>,
) -> Result<(), LineFault>
    ensures ok { OnOk result
        (behind out.old.items (word_line (meanings_of names.now) (map part_of tokens.now))
        ≡ Ok out.new.items) }
    ensures fault { IfErr result
        (λ fault. Told fault (word_line (meanings_of names.now) (map part_of tokens.now))) }
{
    match tokens {
        [] => Ok(()),
        [Token::Run(word), rest @ ..] => put_instruction(alloc, names, word, rest, out),
        _ => Err(LineFault::UnknownDirective),
    }
}

// What follows the label of a line.
fn put_statement(
    alloc: Global,
    names: &Names,
    tokens: &[Token<'_>],
    out: &mut Vec<u8>,
) -> Result<(), LineFault>
    ensures ok { OnOk result
        (behind out.old.items (statement_text (meanings_of names.now) (map part_of tokens.now))
        ≡ Ok out.new.items) }
    ensures fault { IfErr result
        (λ fault. Told fault (statement_text (meanings_of names.now) (map part_of tokens.now))) }
{
    put_parts(names, front_blanks(tokens), out)?;
    put_word(alloc, names, after_blanks(tokens), out)
}

// A line that sets nothing.
fn put_plain(
    alloc: Global,
    names: &Names,
    tokens: &[Token<'_>],
    out: &mut Vec<u8>,
) -> Result<(), LineFault>
    ensures ok { OnOk result
        (behind out.old.items (plain_text (meanings_of names.now) (map part_of tokens.now))
        ≡ Ok out.new.items) }
    ensures fault { IfErr result
        (λ fault. Told fault (plain_text (meanings_of names.now) (map part_of tokens.now))) }
{
    match tokens {
        [Token::Run(label), rest @ ..] => {
            if names.is_set(label) {
                return Err(LineFault::NameTwice);
            }
            out.extend_from_slice(label)?;
            put_statement(alloc, names, rest, out)
        }
        _ => put_statement(alloc, names, tokens, out),
    }
}

// A line that is of no map.
fn put_unmapped(
    alloc: Global,
    names: &Names,
    tokens: &[Token<'_>],
    out: &mut Vec<u8>,
) -> Result<(), LineFault>
    ensures ok { OnOk result
        (behind out.old.items
        (unset_text (meanings_of names.now) (setting_of (map part_of tokens.now)) (map part_of tokens.now))
        ≡ Ok out.new.items) }
    ensures fault { IfErr result (λ fault. Told fault
        (unset_text (meanings_of names.now) (setting_of (map part_of tokens.now)) (map part_of tokens.now))) }
{
    match setting_of(tokens) {
        Some(_) => Ok(()),
        None => put_plain(alloc, names, tokens, out),
    }
}

/// Puts what stands for a line without its comment: nothing where it sets a name or is of a map.
pub(crate) fn put_body(
    alloc: Global,
    names: &Names,
    tokens: &[Token<'_>],
    out: &mut Vec<u8>,
) -> Result<(), LineFault>
    ensures ok { OnOk result
        (behind out.old.items (body_text (meanings_of names.now) (map part_of tokens.now))
        ≡ Ok out.new.items) }
    ensures fault { IfErr result
        (λ fault. Told fault (body_text (meanings_of names.now) (map part_of tokens.now))) }
{
    match map_line_of(tokens) {
        Some(_) => Ok(()),
        None => put_unmapped(alloc, names, tokens, out),
    }
}
