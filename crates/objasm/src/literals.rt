//! Numbers that are loaded, and the pools of words that hold them.

ghost use Rattle.std.specs.Prelude.{◌≡◌, ◌∷◌, ◌++◌, Some, IfOk, IfErr, OnOk, Ok, decimal, map, option_map};
ghost use Rattle.std.specs.Option.{option_or};
ghost use Rattle.image.specs.Labels.{address_of};
ghost use Rattle.objasm.specs.Literals.{after_equals, first_load, has_word_name, is_label_name, is_word_name};
ghost use Rattle.objasm.specs.Literals.{is_word_part, line_text, literal_for, literal_of, literal_view};
ghost use Rattle.objasm.specs.Literals.{load_at, load_of, load_text, load_view, load_with, loaded, loaded_at};
ghost use Rattle.objasm.specs.Literals.{no_pool, pool_line, pool_of, with_more, with_operand, with_word};
ghost use Rattle.objasm.specs.Literals.{word_name};
ghost use Rattle.objasm.specs.Names.{Told, mapped, meanings_of, with_name};
ghost use Rattle.objasm.specs.Parts.{part_of, parts};
ghost use Rattle.objasm.specs.PlainLines.{body_text};
ghost use Rattle.objasm.specs.Settings.{value_of};
ghost use Rattle.objasm.specs.Words.{moved_word};

use crate::exchanges::{Flip, flipped, is_rotated};
use crate::faults::LineFault;
use crate::names::Names;
use crate::plain_lines::{put_body, put_decimal, put_parts};
use crate::settings::{is_no_name, value_of};
use crate::symbols::begins_number;
use crate::token::{Token, after_blanks, after_field, first_field, front_blanks, lone_run, tokens};
use crate::words::{is_load, moved_word};
use image::Labels;
use std::alloc::{AllocError, Global};

/// A line that loads a number or a label.
#[derive(Clone, Copy)]
pub(crate) struct Load<'a, 'b> {
    /// Its label, or nothing.
    pub label: &'a [u8],
    /// What is between that and the word.
    pub blanks: &'b [Token<'a>],
    /// LDR with or without a condition.
    pub word: &'a [u8],
    /// What is between the word and the comma.
    pub register: &'b [Token<'a>],
    /// What is behind `=`.
    pub value: &'b [Token<'a>],
}

/// What is loaded.
#[derive(Clone, Copy)]
pub(crate) enum Literal<'a> {
    /// A number that MOV or MVN gives.
    Moved(u32),
    /// The address of a label, which a word holds.
    Label(&'a [u8]),
    /// A number that a word holds.
    Number(u32),
}

/// The words that wait for LTORG or the end.
#[derive(Drop)]
pub(crate) struct Pool {
    /// By what is written in each the number of the line that first loads it.
    pub known: Labels,
    /// Their lines, in that order.
    pub lines: Vec<u8>,
    /// The number of the line that loads the first.
    pub first: Option<usize>,
}

fn after_equals<'a, 'b>(parts: &'b [Token<'a>]) -> Option<&'b [Token<'a>]>
    ensures { option_map (λ ts. map part_of ts.now) result ≡ after_equals (map part_of parts.now) }
{
    match parts {
        [Token::Byte(b), rest @ ..] => { if *b == b'=' { Some(rest) } else { None } }
        _ => None,
    }
}

// What is behind a comma and `=`.
fn loaded_at<'a, 'b>(parts: &'b [Token<'a>]) -> Option<&'b [Token<'a>]>
    ensures { option_map (λ ts. map part_of ts.now) result ≡ loaded_at (map part_of parts.now) }
{
    match parts {
        [Token::Byte(b), rest @ ..] => {
            if *b == b',' {
                after_equals(after_blanks(rest))
            } else {
                None
            }
        }
        _ => None,
    }
}

fn load_with<'a, 'b>(
    label: &'a [u8],
    blanks: &'b [Token<'a>],
    word: &'a [u8],
    parts: &'b [Token<'a>],
) -> Option<Load<'a, 'b>>
    ensures { option_map load_view result
        ≡ load_with label.now (map part_of blanks.now) word.now (map part_of parts.now) }
{
    match loaded_at(after_field(parts)) {
        Some(value) => Some(Load {
            label,
            blanks,
            word,
            register: first_field(parts),
            value,
        }),
        None => None,
    }
}

fn load_at<'a, 'b>(
    label: &'a [u8],
    blanks: &'b [Token<'a>],
    parts: &'b [Token<'a>],
) -> Option<Load<'a, 'b>>
    ensures { option_map load_view result
        ≡ load_at label.now (map part_of blanks.now) (map part_of parts.now) }
{
    match parts {
        [Token::Run(word), rest @ ..] => {
            if is_load(word) {
                load_with(label, blanks, word, rest)
            } else {
                None
            }
        }
        _ => None,
    }
}

// What a line loads, if it is LDR with a `=`.
fn load_of<'a, 'b>(parts: &'b [Token<'a>]) -> Option<Load<'a, 'b>>
    ensures { option_map load_view result ≡ load_of (map part_of parts.now) }
{
    match parts {
        [Token::Run(label), rest @ ..] => load_at(label, front_blanks(rest), after_blanks(rest)),
        _ => load_at(b"", front_blanks(parts), after_blanks(parts)),
    }
}

fn literal_for<'a>(n: u32) -> Literal<'a>
    ensures { literal_view result ≡ literal_for n }
{
    if is_rotated(n) | is_rotated(flipped(Flip::Invert, n)) {
        Literal::Moved(n)
    } else {
        Literal::Number(n)
    }
}

// Whether a run can be a label.
fn is_label_name(names: &Names, run: &[u8]) -> bool
    ensures { result ≡ is_label_name (meanings_of names.now) run.now }
{
    !(is_no_name(run) | names.is_set(run))
}

fn number_of<'a>(
    alloc: Global,
    names: &Names,
    parts: &[Token<'a>],
) -> Result<Literal<'a>, LineFault>
    ensures ok { IfOk result (λ l.
        mapped literal_for (value_of (meanings_of names.now) (map part_of parts.now))
        ≡ Ok (literal_view l)) }
    ensures fault { IfErr result (λ fault. Told fault
        (mapped literal_for (value_of (meanings_of names.now) (map part_of parts.now)))) }
{
    let n = value_of(alloc, names, parts)?;
    Ok(literal_for(n))
}

// What the parts behind `=` load.
fn literal_of<'a>(
    alloc: Global,
    names: &Names,
    parts: &[Token<'a>],
) -> Result<Literal<'a>, LineFault>
    ensures ok { IfOk result (λ l.
        literal_of (meanings_of names.now) (map part_of parts.now) ≡ Ok (literal_view l)) }
    ensures fault { IfErr result (λ fault.
        Told fault (literal_of (meanings_of names.now) (map part_of parts.now))) }
{
    match lone_run(after_blanks(parts)) {
        Some(run) => {
            if is_label_name(names, run) {
                Ok(Literal::Label(run))
            } else {
                number_of(alloc, names, parts)
            }
        }
        None => number_of(alloc, names, parts),
    }
}

/// No words. It takes no memory.
pub(crate) fn no_pool(alloc: Global) -> Pool
    ensures { pool_of result ≡ no_pool }
{
    Pool {
        known: Labels::new(alloc),
        lines: Vec::new(alloc),
        first: None,
    }
}

fn put_word_name(line: u32, out: &mut Vec<u8>) -> Result<(), AllocError>
    ensures { OnOk result (out.new.items ≡ out.old.items ++ word_name line) }
{
    out.extend_from_slice(b"literal_")?;
    put_decimal(out, line)
}

fn put_pool_line(line: u32, text: &[u8], out: &mut Vec<u8>) -> Result<(), AllocError>
    ensures { OnOk result (out.new.items ≡ out.old.items ++ pool_line line text.now) }
{
    put_word_name(line, out)?;
    out.extend_from_slice(b" DCD ")?;
    out.extend_from_slice(text)?;
    out.push(b'\n')?;
    Ok(())
}

fn first_of(first: Option<usize>, line: usize) -> Option<usize>
    ensures { result ≡ option_or first (Some line) }
{
    match first {
        Some(n) => Some(n),
        None => Some(line),
    }
}

// Notes by which line a word is first loaded. None is noted for it.
fn note(alloc: Global, known: &mut Labels, text: &[u8], line: u32) -> Result<(), LineFault>
    ensures ok { OnOk result (address_of known.new ≡ with_name text.now line (address_of known.old)) }
    ensures memory { IfErr result (λ fault. fault ≡ LineFault.Memory) }
{
    match known.put(alloc, text, line) {
        Ok(()) => Ok(()),
        Err(_) => Err(LineFault::Memory),
    }
}

// Puts a word behind the others.
fn put_word(alloc: Global, pool: &mut Pool, line: u32, text: &[u8]) -> Result<(), LineFault>
    ensures ok { OnOk result (pool_of pool.new ≡ with_more line text.now (pool_of pool.old)) }
    ensures memory { IfErr result (λ fault. fault ≡ LineFault.Memory) }
{
    note(alloc, &mut pool.known, text, line)?;
    put_pool_line(line, text, &mut pool.lines)?;
    pool.first = first_of(pool.first, line as usize);
    Ok(())
}

// Sees to it that the pool has a word, and answers the number of the line that first loads it. A number of
// more than 32 bits is refused as lack of memory, which so many lines would be.
fn word_for(alloc: Global, pool: &mut Pool, line: usize, text: &[u8]) -> Result<u32, LineFault>
    ensures known { IfOk result (λ first. first ≡ first_load line text.now (pool_of pool.old)) }
    ensures ok { OnOk result (pool_of pool.new ≡ with_word line text.now (pool_of pool.old)) }
    ensures memory { IfErr result (λ fault. fault ≡ LineFault.Memory) }
{
    if let Some(first) = pool.known.get(text) {
        return Ok(first);
    }
    let Ok(line) = u32::try_from(line) else {
        return Err(LineFault::Memory);
    };
    put_word(alloc, pool, line, text)?;
    Ok(line)
}

fn word_for_number(alloc: Global, pool: &mut Pool, line: usize, n: u32) -> Result<u32, LineFault>
    ensures known { IfOk result (λ first. first ≡ first_load line (decimal n) (pool_of pool.old)) }
    ensures ok { OnOk result (pool_of pool.new ≡ with_word line (decimal n) (pool_of pool.old)) }
    ensures memory { IfErr result (λ fault. fault ≡ LineFault.Memory) }
{
    let mut text = Vec::new(alloc);
    put_decimal(&mut text, n)?;
    word_for(alloc, pool, line, &text)
}

// The line with another word, and another operand in the place of `=` and what is behind it.
fn with_operand(
    alloc: Global,
    names: &Names,
    load: Load<'_, '_>,
    word: &[u8],
    operand: &[u8],
) -> Result<Vec<u8>, AllocError>
    ensures { IfOk result (λ text. text.items
        ≡ with_operand (meanings_of names.now) (load_view load.entry) word.now operand.now) }
{
    let mut text = Vec::from_slice(alloc, load.label)?;
    put_parts(names, load.blanks, &mut text)?;
    text.extend_from_slice(word)?;
    put_parts(names, load.register, &mut text)?;
    text.push(b',')?;
    text.extend_from_slice(operand)?;
    Ok(text)
}

fn moved_line(
    alloc: Global,
    names: &Names,
    load: Load<'_, '_>,
    n: u32,
) -> Result<Vec<u8>, AllocError>
    ensures { IfOk result (λ text. text.items ≡ with_operand (meanings_of names.now)
        (load_view load.entry) (moved_word load.entry.word.now) (35 ∷ decimal n)) }
{
    let word = moved_word(alloc, load.word)?;
    let mut operand = Vec::from_slice(alloc, b"#")?;
    put_decimal(&mut operand, n)?;
    with_operand(alloc, names, load, &word, &operand)
}

fn pooled_line(
    alloc: Global,
    names: &Names,
    load: Load<'_, '_>,
    first: u32,
) -> Result<Vec<u8>, AllocError>
    ensures { IfOk result (λ text. text.items ≡ with_operand (meanings_of names.now)
        (load_view load.entry) load.entry.word.now (word_name first)) }
{
    let mut name = Vec::new(alloc);
    put_word_name(first, &mut name)?;
    with_operand(alloc, names, load, load.word, &name)
}

// The line of the dialect that stands for one that loads.
fn loaded(
    alloc: Global,
    names: &Names,
    pool: &mut Pool,
    line: usize,
    load: Load<'_, '_>,
) -> Result<Vec<u8>, LineFault>
    ensures ok { IfOk result (λ text. loaded (meanings_of names.now) line (pool_of pool.old)
        (load_view load.entry) ≡ Ok (pool_of pool.new, text.items)) }
    ensures fault { IfErr result (λ fault. Told fault
        (loaded (meanings_of names.now) line (pool_of pool.old) (load_view load.entry))) }
{
    let literal = literal_of(alloc, names, load.value)?;
    match literal {
        Literal::Moved(n) => Ok(moved_line(alloc, names, load, n)?),
        Literal::Label(run) => {
            let first = word_for(alloc, pool, line, run)?;
            Ok(pooled_line(alloc, names, load, first)?)
        }
        Literal::Number(n) => {
            let first = word_for_number(alloc, pool, line, n)?;
            Ok(pooled_line(alloc, names, load, first)?)
        }
    }
}

fn body_of(alloc: Global, names: &Names, parts: &[Token<'_>]) -> Result<Vec<u8>, LineFault>
    ensures ok { IfOk result (λ text.
        body_text (meanings_of names.now) (map part_of parts.now) ≡ Ok text.items) }
    ensures fault { IfErr result
        (λ fault. Told fault (body_text (meanings_of names.now) (map part_of parts.now))) }
{
    let mut text = Vec::new(alloc);
    put_body(alloc, names, parts, &mut text)?;
    Ok(text)
}

fn body_of_text(alloc: Global, names: &Names, text: &[u8]) -> Result<Vec<u8>, LineFault>
    ensures ok { IfOk result
        (λ plain. body_text (meanings_of names.now) (parts text.now) ≡ Ok plain.items) }
    ensures fault { IfErr result
        (λ fault. Told fault (body_text (meanings_of names.now) (parts text.now))) }
{
    let parts = tokens(alloc, text)?;
    body_of(alloc, names, &parts)
}

// What stands for a line that loads.
fn load_text(
    alloc: Global,
    names: &Names,
    pool: &mut Pool,
    line: usize,
    load: Load<'_, '_>,
) -> Result<Vec<u8>, LineFault>
    ensures ok { IfOk result (λ text. load_text (meanings_of names.now) line (pool_of pool.old)
        (load_view load.entry) ≡ Ok (pool_of pool.new, text.items)) }
    ensures fault { IfErr result (λ fault. Told fault
        (load_text (meanings_of names.now) line (pool_of pool.old) (load_view load.entry))) }
{
    let text = loaded(alloc, names, pool, line, load)?;
    body_of_text(alloc, names, &text)
}

fn is_word_name(run: &[u8]) -> bool
    ensures { result ≡ is_word_name run.now }
{
    match run.strip_prefix(b"literal_") {
        Some(rest) => begins_number(rest),
        None => false,
    }
}

fn is_word_part(token: Token<'_>) -> bool
    ensures { result ≡ is_word_part (part_of token.entry) }
{
    match token {
        Token::Run(run) => is_word_name(run),
        Token::Byte(_) => false,
    }
}

// Whether a line has the name of a word that is loaded.
fn has_word_name(parts: &[Token<'_>]) -> bool
    ensures { result ≡ has_word_name (map part_of parts.now) }
{
    for token in parts {
        if is_word_part(*token) {
            return true;
        }
    }
    false
}

/// What stands for the line of this number, without its comment, where it is assembled. What it loads from a
/// word is put into the pool.
pub(crate) fn line_text(
    alloc: Global,
    names: &Names,
    pool: &mut Pool,
    line: usize,
    parts: &[Token<'_>],
) -> Result<Vec<u8>, LineFault>
    ensures ok { IfOk result (λ text.
        line_text (meanings_of names.now) line (pool_of pool.old) (map part_of parts.now)
        ≡ Ok (pool_of pool.new, text.items)) }
    ensures fault { IfErr result (λ fault. Told fault
        (line_text (meanings_of names.now) line (pool_of pool.old) (map part_of parts.now))) }
{
    if has_word_name(parts) {
        return Err(LineFault::BadName);
    }
    match load_of(parts) {
        Some(load) => load_text(alloc, names, pool, line, load),
        None => body_of(alloc, names, parts),
    }
}
