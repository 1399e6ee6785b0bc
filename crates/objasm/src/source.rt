ghost use Rattle.std.specs.Prelude.{◌≡◌, ◌≤◌, ◌||◌, ◌∷◌, ◌++◌, [], false, IfOk, IfErr, OnOk, Ok, length};
ghost use Rattle.std.specs.Prelude.{eqb, map};
ghost use Rattle.std.specs.List.{dedup, range_with_len};
ghost use Rattle.std.specs.Str.{bytes_eq};
ghost use Rattle.asm_text.specs.Pieces.{first_blank};
ghost use Rattle.asm_text.specs.Source.{lines_of};
ghost use Rattle.objasm.specs.Conditions.{all_closed, open_in};
ghost use Rattle.objasm.specs.Literals.{no_pool, pool_of};
ghost use Rattle.objasm.specs.Names.{Meanings, Told, mapped, meanings_of};
ghost use Rattle.objasm.specs.Parts.{part_of, parts};
ghost use Rattle.objasm.specs.Source.{FaultedAt, assembled_line, body, body_len, end_given, ends, fault_at};
ghost use Rattle.objasm.specs.Source.{flow_in};
ghost use Rattle.objasm.specs.Source.{given_if, is_end, is_ltorg_at, is_ltorg_line, line_settled, line_shown};
ghost use Rattle.objasm.specs.Source.{lines_behind, meanings_in, no_lines, nothing_waits, plain_lines};
ghost use Rattle.objasm.specs.Source.{plain_of, pool_lines, set_if, settings, shown, shown_line, state_in, stripped};
ghost use Rattle.objasm.specs.Source.{taken_line, translated, trimmed, with_lines};
ghost use Rattle.objasm.specs.declared.source.DialectFault.TheVariants.{Memory};

use crate::conditions::{
    Conditions, innermost, is_hidden, is_taken, no_conditions, step_conditions,
};
use crate::faults::LineFault;
use crate::literals::{Pool, line_text, no_pool};
use crate::maps::{Pass, settle};
use crate::names::Names;
use crate::token::{Token, after_blanks, tokens};
use crate::words::is_ltorg;
use asm_text::{first_line, is_blank};
use std::alloc::{AllocError, AllocFailed, Global};
use thiserror::Error;

/// A text of the dialect in our grammar.
#[derive(Drop)]
pub struct PlainSource {
    /// Its lines, each ended by LF: what stands for a line of the author's, and that line as a comment behind
    /// it where it is not the same; behind those of LTORG and the end the words that are loaded.
    pub text: Vec<u8>,
    /// The number, from 1, of the author's line that each line comes from.
    pub origins: Vec<usize>,
}

// The words that wait, and the lines so far.
#[derive(Drop)]
struct Output {
    pool: Pool,
    plain: PlainSource,
}

// A line, its number from 1, and whether the source ends at it or above it.
#[derive(Clone, Copy)]
struct Place<'a> {
    line: &'a [u8],
    number: usize,
    is_below: bool,
}

/// Why a text of the dialect is not translated.
#[derive(Clone, Copy, Debug, PartialEq, Eq, Drop, Error)]
pub enum DialectFault {
    /// An allocation failed.
    #[error("Memory")]
    Memory,
    /// A line's fault, and its number from 1.
    #[error("{0} at line {1}")]
    Line(LineFault, usize),
}

impl From<AllocError> for DialectFault {
    ghost from_gives = { λ _ fault. fault ≡ Memory };

    fn from(_refused: AllocError) -> DialectFault {
        DialectFault::Memory
    }
}

impl<T: Drop> From<AllocFailed<T>> for DialectFault {
    ghost from_gives = { λ _ fault. fault ≡ Memory };

    fn from(_refused: AllocFailed<T>) -> DialectFault {
        DialectFault::Memory
    }
}

fn fault_at(fault: LineFault, line: usize) -> DialectFault
    ensures { result ≡ fault_at fault line }
{
    match fault {
        LineFault::Memory => DialectFault::Memory,
        _ => DialectFault::Line(fault, line),
    }
}

// The bytes in front of a line's comment.
fn body_len(line: &[u8]) -> usize
    ensures len { result ≡ body_len line.now }
    ensures within { result ≤ length line.now }
{
    line.iter().take_while(|b| **b != b';').count()
}

// The text without the white space round it.
fn stripped(text: &[u8]) -> &[u8]
    ensures { result.now ≡ stripped text.now }
{
    text.trim_ascii()
}

fn first_blank(text: &[u8]) -> bool
    ensures { result ≡ first_blank text.now }
{
    match text {
        [first, ..] => is_blank(*first),
        _ => false,
    }
}

// Whether the source ends at a line.
fn is_end(line: &[u8]) -> bool
    ensures { result ≡ is_end line.now }
{
    first_blank(line) & (stripped(&line[..body_len(line)]) == b"END".as_slice())
}

// Whether the source ends at a line.
fn ends(conditions: &Conditions, line: &[u8]) -> bool
    ensures { result ≡ ends (open_in conditions.now) line.now }
{
    is_taken(conditions) && is_end(line)
}

// Sets what a line sets, if it is assembled.
fn set_if(
    alloc: Global,
    names: &mut Names,
    is_taken: bool,
    pass: Pass,
    parts: &[Token<'_>],
) -> Result<(), LineFault>
    ensures ok { OnOk result
        (set_if is_taken pass (meanings_of names.old) (map part_of parts.now) ≡ Ok (meanings_of names.new)) }
    ensures fault { IfErr result
        (λ fault. Told fault (set_if is_taken pass (meanings_of names.old) (map part_of parts.now))) }
{
    if !is_taken {
        return Ok(());
    }
    settle(alloc, names, pass, parts)
}

// Notes what a line says of conditions, and sets what it sets.
fn settle_line(
    alloc: Global,
    names: &mut Names,
    conditions: &mut Conditions,
    pass: Pass,
    place: Place<'_>,
) -> Result<(), LineFault>
    ensures ok { OnOk result
        (line_settled pass (flow_in (meanings_of names.old) (open_in conditions.old)) place.entry.number
        place.entry.line.now ≡ Ok (flow_in (meanings_of names.new) (open_in conditions.new))) }
    ensures fault { IfErr result (λ fault.
        Told fault (line_settled pass (flow_in (meanings_of names.old) (open_in conditions.old))
        place.entry.number place.entry.line.now)) }
{
    let parts = tokens(alloc, &place.line[..body_len(place.line)])?;
    let is_taken = is_taken(conditions);
    step_conditions(alloc, names, conditions, place.number, &parts)?;
    set_if(alloc, names, is_taken, pass, &parts)?;
    Ok(())
}

// Refuses the innermost of conditions that are open at the end.
fn all_closed(conditions: &Conditions) -> Result<(), DialectFault>
    ensures ok { OnOk result ((m : Meanings) → all_closed (open_in conditions.now) m ≡ Ok m) }
    ensures fault { IfErr result
        (λ fault. (m : Meanings) → FaultedAt fault (all_closed (open_in conditions.now) m)) }
{
    match innermost(conditions) {
        Some(condition) => Err(DialectFault::Line(LineFault::ConditionOpen, condition.line)),
        None => Ok(()),
    }
}

// Goes through the lines for the names that they set.
fn settle_lines(
    alloc: Global,
    names: &mut Names,
    pass: Pass,
    source: &[u8],
) -> Result<(), DialectFault>
    ensures ok { OnOk result
        (settings pass (flow_in (meanings_of names.old) []) 1 (lines_of source.now)
        ≡ Ok (meanings_of names.new)) }
    ensures fault { IfErr result (λ fault.
        FaultedAt fault (settings pass (flow_in (meanings_of names.old) []) 1 (lines_of source.now))) }
{
    let mut conditions = no_conditions(alloc);
    let mut rest = source;
    let mut number = 1;
    while let Some((line, after)) = first_line(rest) {
        if ends(&conditions, line) {
            return all_closed(&conditions);
        }
        let place = Place {
            line,
            number,
            is_below: false,
        };
        if let Err(fault) = settle_line(alloc, names, &mut conditions, pass, place) {
            return Err(fault_at(fault, number));
        }
        rest = after;
        number += 1;
    }
    all_closed(&conditions)
}

fn names_of(alloc: Global, source: &[u8]) -> Result<Names, DialectFault>
    ensures ok { IfOk result (λ names. meanings_in (lines_of source.now) ≡ Ok (meanings_of names)) }
    ensures fault { IfErr result (λ fault. FaultedAt fault (meanings_in (lines_of source.now))) }
{
    let mut names = Names::new(alloc);
    settle_lines(alloc, &mut names, Pass::First, source)?;
    settle_lines(alloc, &mut names, Pass::Second, source)?;
    Ok(names)
}

// The text without the white space at its end.
fn trimmed(text: &[u8]) -> &[u8]
    ensures { result.now ≡ trimmed text.now }
{
    text.trim_ascii_end()
}

fn is_same(plain: &[u8], body: &[u8]) -> bool
    ensures { result ≡ bytes_eq (trimmed plain.now) (trimmed body.now) }
{
    trimmed(plain) == trimmed(body)
}

// Puts the line itself, where but for blanks that is what stands for it, else that, and the line as a comment
// behind it.
fn put_shown(out: &mut Vec<u8>, plain: &[u8], line: &[u8]) -> Result<(), AllocError>
    ensures { OnOk result (out.new.items ≡ out.old.items ++ shown_line plain.now line.now) }
{
    if is_same(plain, &line[..body_len(line)]) {
        return out.extend_from_slice(line);
    }
    out.extend_from_slice(trimmed(plain))?;
    out.extend_from_slice(b" ; ")?;
    out.extend_from_slice(line)
}

// Puts what is shown of a line, and an LF.
fn put_ended(out: &mut Vec<u8>, plain: &[u8], line: &[u8]) -> Result<(), AllocError>
    ensures { OnOk result
        (out.new.items ≡ out.old.items ++ (shown_line plain.now line.now ++ 10 ∷ [])) }
{
    put_shown(out, plain, line)?;
    out.push(b'\n')?;
    Ok(())
}

// Puts what is shown of a line.
fn put_shown_line(out: &mut PlainSource, text: &[u8], place: Place<'_>) -> Result<(), AllocError>
    ensures { OnOk result
        (plain_of out.new
        ≡ with_lines (plain_of out.old) (shown place.entry.number text.now place.entry.line.now)) }
{
    put_ended(&mut out.text, text, place.line)?;
    out.origins.push(place.number)?;
    Ok(())
}

// Puts a number once for each line of a text.
fn put_origins(text: &[u8], number: usize, origins: &mut Vec<usize>) -> Result<(), AllocError>
    ensures { OnOk result
        (origins.new.items ≡ origins.old.items ++ map (λ _. number) (lines_of text.now)) }
{
    let mut rest = text;
    while let Some((_, after)) = first_line(rest) {
        origins.push(number)?;
        rest = after;
    }
    Ok(())
}

fn put_pool_lines(pool: &Pool, number: usize, out: &mut PlainSource) -> Result<(), AllocError>
    ensures { OnOk result
        (plain_of out.new ≡ with_lines (plain_of out.old) (pool_lines number (pool_of pool.now))) }
{
    out.text.extend_from_slice(&pool.lines)?;
    put_origins(&pool.lines, number, &mut out.origins)
}

// Puts the words that wait, if the line of this number gives them.
fn give_if(alloc: Global, gives: bool, number: usize, out: &mut Output) -> Result<(), AllocError>
    ensures { OnOk result
        ((pool_of out.new.pool, plain_of out.new.plain)
        ≡ given_if gives number (pool_of out.old.pool) (plain_of out.old.plain)) }
{
    if gives {
        put_pool_lines(&out.pool, number, &mut out.plain)?;
        out.pool = no_pool(alloc);
    }
    Ok(())
}

fn is_ltorg_at(parts: &[Token<'_>]) -> bool
    ensures { result ≡ is_ltorg_at (map part_of parts.now) }
{
    match parts {
        [Token::Run(word), ..] => is_ltorg(word),
        _ => false,
    }
}

fn is_ltorg_line(parts: &[Token<'_>]) -> bool
    ensures { result ≡ is_ltorg_line (map part_of parts.now) }
{
    match parts {
        [Token::Run(_), rest @ ..] => is_ltorg_at(after_blanks(rest)),
        _ => is_ltorg_at(after_blanks(parts)),
    }
}

// Puts what stands for a line that is assembled.
fn put_assembled(
    alloc: Global,
    names: &Names,
    place: Place<'_>,
    parts: &[Token<'_>],
    out: &mut Output,
) -> Result<(), LineFault>
    ensures ok { OnOk result
        (lines_behind (plain_of out.old.plain)
        (assembled_line (meanings_of names.now) place.entry.number (pool_of out.old.pool)
        (map part_of parts.now) place.entry.line.now)
        ≡ Ok (pool_of out.new.pool, plain_of out.new.plain)) }
    ensures fault { IfErr result (λ fault. Told fault
        (assembled_line (meanings_of names.now) place.entry.number (pool_of out.old.pool)
        (map part_of parts.now) place.entry.line.now)) }
{
    let text = line_text(alloc, names, &mut out.pool, place.number, parts)?;
    put_shown_line(&mut out.plain, &text, place)?;
    give_if(alloc, is_ltorg_line(parts), place.number, out)?;
    Ok(())
}

// Puts what stands for the line of the end, or for one below it.
#[tactic(auto, using(crate::proofs::SourceLaws::ended))]
fn put_end(alloc: Global, place: Place<'_>, out: &mut Output) -> Result<(), AllocError>
    ensures { OnOk result
        (lines_behind (plain_of out.old.plain)
        (end_given place.entry.number (pool_of out.old.pool) place.entry.line.now)
        ≡ Ok (pool_of out.new.pool, plain_of out.new.plain)) }
{
    put_shown_line(&mut out.plain, &[], place)?;
    give_if(alloc, true, place.number, out)?;
    Ok(())
}

// Puts what stands for a line in front of the end, and notes what it says of conditions.
#[tactic(auto, using(crate::proofs::SourceLaws::behind_conditions))]
fn put_taken(
    alloc: Global,
    names: &Names,
    conditions: &mut Conditions,
    place: Place<'_>,
    out: &mut Output,
) -> Result<(), LineFault>
    ensures ok { OnOk result
        (lines_behind (plain_of out.old.plain)
        (taken_line (meanings_of names.now) (state_in (open_in conditions.old) (pool_of out.old.pool))
        place.entry.number (parts (body place.entry.line.now)) place.entry.line.now)
        ≡ Ok (state_in (open_in conditions.new) (pool_of out.new.pool), plain_of out.new.plain)) }
    ensures fault { IfErr result (λ fault. Told fault
        (taken_line (meanings_of names.now) (state_in (open_in conditions.old) (pool_of out.old.pool))
        place.entry.number (parts (body place.entry.line.now)) place.entry.line.now)) }
{
    let parts = tokens(alloc, &place.line[..body_len(place.line)])?;
    let is_hidden = is_hidden(conditions, &parts);
    step_conditions(alloc, names, conditions, place.number, &parts)?;
    if is_hidden {
        put_shown_line(&mut out.plain, &[], place)?;
        return Ok(());
    }
    put_assembled(alloc, names, place, &parts, out)
}

// Puts what stands for a line.
#[tactic(auto, using(crate::proofs::SourceLaws::behind_conditions))]
fn put_line(
    alloc: Global,
    names: &Names,
    conditions: &mut Conditions,
    place: Place<'_>,
    out: &mut Output,
) -> Result<(), LineFault>
    ensures ok { OnOk result
        (lines_behind (plain_of out.old.plain)
        (line_shown place.entry.is_below (meanings_of names.now)
        (state_in (open_in conditions.old) (pool_of out.old.pool)) place.entry.number place.entry.line.now)
        ≡ Ok (state_in (open_in conditions.new) (pool_of out.new.pool), plain_of out.new.plain)) }
    ensures fault { IfErr result (λ fault. Told fault
        (line_shown place.entry.is_below (meanings_of names.now)
        (state_in (open_in conditions.old) (pool_of out.old.pool)) place.entry.number place.entry.line.now)) }
{
    if place.is_below {
        put_end(alloc, place, out)?;
        return Ok(());
    }
    put_taken(alloc, names, conditions, place, out)
}

// Whether a line is the end of the source, or below it.
fn is_below(ended: bool, conditions: &Conditions, line: &[u8]) -> bool
    ensures { result ≡ (ended || ends (open_in conditions.now) line.now) }
{
    ended || ends(conditions, line)
}

// The lines, unless words wait at the end.
fn given(out: Output) -> Result<PlainSource, DialectFault>
    ensures ok { IfOk result (λ p.
        mapped (with_lines (plain_of out.plain)) (nothing_waits (pool_of out.pool).first no_lines)
        ≡ Ok (plain_of p)) }
    ensures fault { IfErr result (λ fault.
        FaultedAt fault (nothing_waits (pool_of out.pool).first no_lines)) }
{
    match out.pool.first {
        Some(line) => Err(DialectFault::Line(LineFault::PoolMissing, line)),
        None => Ok(out.plain),
    }
}

fn plain_with(alloc: Global, names: &Names, source: &[u8]) -> Result<PlainSource, DialectFault>
    ensures ok { IfOk result (λ p.
        plain_lines false (meanings_of names.now) (state_in [] no_pool) 1 (lines_of source.now)
        ≡ Ok (plain_of p)) }
    ensures fault { IfErr result (λ fault. FaultedAt fault
        (plain_lines false (meanings_of names.now) (state_in [] no_pool) 1 (lines_of source.now))) }
{
    let mut out = Output {
        pool: no_pool(alloc),
        plain: PlainSource {
            text: Vec::with_capacity(alloc, source.len())?,
            origins: Vec::new(alloc),
        },
    };
    let mut conditions = no_conditions(alloc);
    let mut rest = source;
    let mut number = 1;
    let mut ended = false;
    while let Some((line, after)) = first_line(rest) {
        ended = is_below(ended, &conditions, line);
        let place = Place {
            line,
            number,
            is_below: ended,
        };
        if let Err(fault) = put_line(alloc, names, &mut conditions, place, &mut out) {
            return Err(fault_at(fault, number));
        }
        rest = after;
        number += 1;
    }
    given(out)
}

// The text of the definitions.
fn translated(alloc: Global, source: &[u8]) -> Result<PlainSource, DialectFault>
    ensures ok { IfOk result (λ p. translated source.now ≡ Ok (plain_of p)) }
    ensures fault { IfErr result (λ fault. FaultedAt fault (translated source.now)) }
{
    let names = names_of(alloc, source)?;
    plain_with(alloc, &names, source)
}

/// A text of the dialect in our grammar: for each of its lines a line, and behind those of LTORG and the end
/// one for each word that is loaded above.
///
/// # Errors
///
/// The lines are gone through three times: for the names that they set, for those names whose values need one
/// that a line further down sets, and for what stands for each line. The first line at fault is answered, by
/// the earliest of these times. `Memory`: an allocation failed.
pub fn plain_source(alloc: Global, source: &[u8]) -> Result<PlainSource, DialectFault>
    ensures ok { IfOk result (λ p. translated source.now ≡ Ok (plain_of p)) }
    ensures lines { IfOk result (λ p. length p.origins.items ≡ length (lines_of p.text.items)) }
    ensures origins { IfOk result
        (λ p. dedup eqb p.origins.items ≡ range_with_len 1 (length (lines_of source.now))) }
    ensures fault { IfErr result (λ fault. FaultedAt fault (translated source.now)) }
{
    translated(alloc, source)
}
