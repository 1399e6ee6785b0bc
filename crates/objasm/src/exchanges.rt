//! Words that are exchanged where a number fits as a rotated byte only the other way.

ghost use Rattle.std.specs.Prelude.{◌≡◌, ◌≤◌, IfOk, IfErr, Ok, drop, length, map, option_map};
ghost use Rattle.objasm.specs.Exchanges.{after_hash, exchange_by, exchange_of, exchanged_word, flip_of};
ghost use Rattle.objasm.specs.Exchanges.{flipped};
ghost use Rattle.objasm.specs.Exchanges.{immediate_at, immediate_in, is_needed, is_rotated, other_head};
ghost use Rattle.objasm.specs.Names.{Told, meanings_of};
ghost use Rattle.objasm.specs.Parts.{part_of};

use crate::faults::LineFault;
use crate::names::Names;
use crate::settings::value_of;
use crate::token::{Token, after_blanks, first_field};
use crate::words::is_one_of;
use std::alloc::{AllocError, Global};

/// How a number is changed together with its word.
#[derive(Clone, Copy)]
pub enum Flip {
    /// To the number of the other bits: MOV and MVN, AND and BIC.
    Invert,
    /// To what is taken from 2^32: ADD and SUB, CMP and CMN.
    Negate,
}

const INVERTED_HEADS: [&[u8]; 8] = [
    b"MOV", b"MVN", b"AND", b"BIC", b"mov", b"mvn", b"and", b"bic",
];

const NEGATED_HEADS: [&[u8]; 8] = [
    b"ADD", b"SUB", b"CMP", b"CMN", b"add", b"sub", b"cmp", b"cmn",
];

/// Whether a number is a byte that is rotated by an even number of places.
pub(crate) fn is_rotated(n: u32) -> bool
    ensures { result ≡ is_rotated n }
{
    for k in 0..16u32 {
        if n.rotate_left(2 * k) < 256 {
            return true;
        }
    }
    false
}

/// The number changed.
pub(crate) fn flipped(flip: Flip, n: u32) -> u32
    ensures { result ≡ flipped flip n }
{
    match flip {
        Flip::Invert => u32::MAX - n,
        Flip::Negate => 0u32.wrapping_sub(n),
    }
}

// Whether a number fits only the other way.
fn is_needed(flip: Flip, n: u32) -> bool
    ensures { result ≡ is_needed flip n }
{
    !is_rotated(n) & is_rotated(flipped(flip, n))
}

fn other_head(head: &[u8]) -> &[u8]
    ensures { result.now ≡ other_head head.now }
{
    match head {
        b"MOV" => b"MVN",
        b"MVN" => b"MOV",
        b"AND" => b"BIC",
        b"BIC" => b"AND",
        b"ADD" => b"SUB",
        b"SUB" => b"ADD",
        b"CMP" => b"CMN",
        b"CMN" => b"CMP",
        b"mov" => b"mvn",
        b"mvn" => b"mov",
        b"and" => b"bic",
        b"bic" => b"and",
        b"add" => b"sub",
        b"sub" => b"add",
        b"cmp" => b"cmn",
        b"cmn" => b"cmp",
        _ => head,
    }
}

fn flip_of(word: &[u8]) -> Option<Flip>
    ensures { result ≡ flip_of word.now }
{
    if word.len() < 3 {
        return None;
    }
    let head = &word[..3];
    if is_one_of(&INVERTED_HEADS, head) {
        Some(Flip::Invert)
    } else if is_one_of(&NEGATED_HEADS, head) {
        Some(Flip::Negate)
    } else {
        None
    }
}

/// The word that is taken for one.
pub(crate) fn exchanged_word(alloc: Global, word: &[u8]) -> Result<Vec<u8>, AllocError>
    ensures { IfOk result (λ other. other.items ≡ exchanged_word word.now) }
{
    if word.len() < 3 {
        return Vec::from_slice(alloc, word);
    }
    let (head, rest) = word.split_at(3);
    let mut other = Vec::from_slice(alloc, other_head(head))?;
    other.extend_from_slice(rest)?;
    Ok(other)
}

fn after_hash<'a, 'b>(tokens: &'b [Token<'a>]) -> Option<&'b [Token<'a>]>
    ensures { option_map (λ ts. map part_of ts.now) result ≡ after_hash (map part_of tokens.now) }
{
    match tokens {
        [Token::Byte(b), rest @ ..] => {
            if *b == b'#' {
                Some(first_field(rest))
            } else {
                None
            }
        }
        _ => None,
    }
}

fn immediate_at<'a, 'b>(tokens: &'b [Token<'a>]) -> Option<&'b [Token<'a>]>
    ensures { option_map (λ ts. map part_of ts.now) result ≡ immediate_at (map part_of tokens.now) }
{
    match tokens {
        [Token::Byte(b), rest @ ..] => {
            if *b == b',' {
                after_hash(after_blanks(rest))
            } else {
                None
            }
        }
        _ => None,
    }
}

/// The parts from an index on.
pub(crate) fn from<'a, 'b>(tokens: &'b [Token<'a>], index: usize) -> &'b [Token<'a>]
    requires { index ≤ length tokens.now }
    ensures { result.now ≡ drop index tokens.now }
{
    &tokens[index..]
}

// What follows the first `#` behind a comma.
fn immediate_in<'a, 'b>(tokens: &'b [Token<'a>]) -> Option<&'b [Token<'a>]>
    ensures { option_map (λ ts. map part_of ts.now) result ≡ immediate_in (map part_of tokens.now) }
{
    for index in 0..tokens.len() {
        if let Some(field) = immediate_at(from(tokens, index)) {
            return Some(field);
        }
    }
    None
}

fn exchange_by(
    alloc: Global,
    names: &Names,
    flip: Flip,
    field: &[Token<'_>],
) -> Result<Option<Flip>, LineFault>
    ensures ok { IfOk result (λ found.
        exchange_by (meanings_of names.now) (Some flip) (Some (map part_of field.now)) ≡ Ok found) }
    ensures fault { IfErr result (λ fault.
        Told fault (exchange_by (meanings_of names.now) (Some flip) (Some (map part_of field.now)))) }
{
    let n = value_of(alloc, names, field)?;
    if is_needed(flip, n) {
        Ok(Some(flip))
    } else {
        Ok(None)
    }
}

/// How the number of an instruction is changed together with its word, if it is.
pub(crate) fn exchange_of(
    alloc: Global,
    names: &Names,
    word: &[u8],
    tokens: &[Token<'_>],
) -> Result<Option<Flip>, LineFault>
    ensures ok { IfOk result (λ found.
        exchange_of (meanings_of names.now) word.now (map part_of tokens.now) ≡ Ok found) }
    ensures fault { IfErr result (λ fault.
        Told fault (exchange_of (meanings_of names.now) word.now (map part_of tokens.now))) }
{
    match flip_of(word) {
        Some(flip) => match immediate_in(tokens) {
            Some(field) => exchange_by(alloc, names, flip, field),
            None => Ok(None),
        },
        None => Ok(None),
    }
}
