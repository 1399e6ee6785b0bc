//! Storage maps: names for places in memory that follow one another.

ghost use Rattle.std.specs.Prelude.{◌≡◌, IfOk, IfErr, OnOk, Ok, map, option_map};
ghost use Rattle.objasm.specs.Maps.{Named, lone_line, map_line_of, map_set, map_view, named_line, placed};
ghost use Rattle.objasm.specs.Maps.{register_in, register_named, set_in, start_line};
ghost use Rattle.objasm.specs.Maps.{start_with};
ghost use Rattle.objasm.specs.Names.{Told, meanings_of};
ghost use Rattle.objasm.specs.Parts.{part_of};

use crate::faults::LineFault;
use crate::names::{Address, Kind, Names};
use crate::settings::{is_no_name, set_name, set_name_again, value_of};
use crate::token::{Token, after_blanks, after_field, first_field, lone_run};
use asm_text::register_of;
use std::alloc::Global;

/// When the lines are gone through for the names that they set.
#[derive(Clone, Copy)]
pub enum Pass {
    /// First: a name whose value is not known yet waits.
    First,
    /// Again, for the names that wait.
    Second,
}

/// What a line says of a map.
#[derive(Clone, Copy)]
pub(crate) enum MapLine<'a, 'b> {
    /// `^`: where places begin.
    Start(&'b [Token<'a>]),
    /// The same, and the base register of the places.
    Based(&'b [Token<'a>], &'b [Token<'a>]),
    /// `#`: how many bytes a place has.
    Space(&'b [Token<'a>]),
    /// The same, and its name.
    Named(&'a [u8], &'b [Token<'a>]),
}

fn start_with<'a, 'b>(all: &'b [Token<'a>], behind: &'b [Token<'a>]) -> MapLine<'a, 'b>
    ensures { map_view result ≡ start_with (map part_of all.now) (map part_of behind.now) }
{
    match behind {
        [Token::Byte(b), base @ ..] => {
            if *b == b',' {
                MapLine::Based(first_field(all), base)
            } else {
                MapLine::Start(all)
            }
        }
        _ => MapLine::Start(all),
    }
}

// What follows `^`.
fn start_line<'a, 'b>(tokens: &'b [Token<'a>]) -> MapLine<'a, 'b>
    ensures { map_view result ≡ start_line (map part_of tokens.now) }
{
    start_with(tokens, after_field(tokens))
}

// A line without a name.
fn lone_line<'a, 'b>(tokens: &'b [Token<'a>]) -> Option<MapLine<'a, 'b>>
    ensures { option_map map_view result ≡ lone_line (map part_of tokens.now) }
{
    match tokens {
        [Token::Byte(b), rest @ ..] => match *b {
            b'^' => Some(start_line(rest)),
            b'#' => Some(MapLine::Space(rest)),
            _ => None,
        },
        [Token::Run(word), rest @ ..] => {
            if *word == b"MAP".as_slice() {
                Some(start_line(rest))
            } else if *word == b"FIELD".as_slice() {
                Some(MapLine::Space(rest))
            } else {
                None
            }
        }
        _ => None,
    }
}

// What follows a name.
fn named_line<'a, 'b>(name: &'a [u8], tokens: &'b [Token<'a>]) -> Option<MapLine<'a, 'b>>
    ensures { option_map map_view result ≡ named_line name.now (map part_of tokens.now) }
{
    match tokens {
        [Token::Byte(b), size @ ..] => {
            if *b == b'#' {
                Some(MapLine::Named(name, size))
            } else {
                None
            }
        }
        [Token::Run(word), size @ ..] => {
            if *word == b"FIELD".as_slice() {
                Some(MapLine::Named(name, size))
            } else {
                None
            }
        }
        _ => None,
    }
}

/// What a line says of a map, if it is of one.
pub(crate) fn map_line_of<'a, 'b>(tokens: &'b [Token<'a>]) -> Option<MapLine<'a, 'b>>
    ensures { option_map map_view result ≡ map_line_of (map part_of tokens.now) }
{
    match tokens {
        [Token::Run(name), rest @ ..] => named_line(name, after_blanks(rest)),
        _ => lone_line(after_blanks(tokens)),
    }
}

fn register_named(names: &Names, run: &[u8]) -> Option<u32>
    ensures { result ≡ register_named (meanings_of names.now) run.now }
{
    match names.registers.get(run) {
        Some(n) => Some(n),
        None => match register_of(run) {
            Some(register) => Some(register.number()),
            None => None,
        },
    }
}

fn register_in(names: &Names, tokens: &[Token<'_>]) -> Result<u32, LineFault>
    ensures { result ≡ register_in (meanings_of names.now) (map part_of tokens.now) }
{
    match lone_run(after_blanks(tokens)) {
        Some(run) => register_named(names, run).ok_or(LineFault::BadRegister),
        None => Err(LineFault::BadRegister),
    }
}

// Sets a name to the counter.
fn place(alloc: Global, names: &mut Names, name: &[u8]) -> Result<(), LineFault>
    ensures ok { OnOk result (meanings_of names.new
        ≡ placed name.now (meanings_of names.old).base (meanings_of names.old)) }
    ensures memory { IfErr result (λ fault. fault ≡ LineFault.Memory) }
{
    let offset = names.counter;
    match names.base {
        Some(base) => names.put_address(alloc, name, Address { base, offset }),
        None => names.put(alloc, name, Kind::Constant, offset),
    }
}

// Names a place of so many bytes as the expression says.
fn put_named(
    alloc: Global,
    names: &mut Names,
    name: &[u8],
    size: &[Token<'_>],
) -> Result<(), LineFault>
    ensures ok { OnOk result
        (map_set (meanings_of names.old) (Named name.now (map part_of size.now))
        ≡ Ok (meanings_of names.new)) }
    ensures fault { IfErr result (λ fault.
        Told fault (map_set (meanings_of names.old) (Named name.now (map part_of size.now)))) }
{
    if is_no_name(name) {
        return Err(LineFault::BadName);
    }
    if names.is_set(name) {
        return Err(LineFault::NameTwice);
    }
    let bytes = value_of(alloc, names, size)?;
    place(alloc, names, name)?;
    names.advance(bytes);
    Ok(())
}

fn put_map(alloc: Global, names: &mut Names, line: MapLine<'_, '_>) -> Result<(), LineFault>
    ensures ok { OnOk result
        (map_set (meanings_of names.old) (map_view line.entry) ≡ Ok (meanings_of names.new)) }
    ensures fault { IfErr result
        (λ fault. Told fault (map_set (meanings_of names.old) (map_view line.entry))) }
{
    match line {
        MapLine::Start(at) => {
            let n = value_of(alloc, names, at)?;
            names.begin(n, None);
            Ok(())
        }
        MapLine::Based(at, base) => {
            let n = value_of(alloc, names, at)?;
            let base = register_in(names, base)?;
            names.begin(n, Some(base));
            Ok(())
        }
        MapLine::Space(size) => {
            let bytes = value_of(alloc, names, size)?;
            names.advance(bytes);
            Ok(())
        }
        MapLine::Named(name, size) => put_named(alloc, names, name, size),
    }
}

/// Sets what a line sets. First the names in a map's line must be known, and any other name whose value needs
/// one that is not known is noted; the second time its value must be known.
pub(crate) fn settle(
    alloc: Global,
    names: &mut Names,
    pass: Pass,
    tokens: &[Token<'_>],
) -> Result<(), LineFault>
    ensures ok { OnOk result
        (set_in pass (meanings_of names.old) (map part_of tokens.now) ≡ Ok (meanings_of names.new)) }
    ensures fault { IfErr result
        (λ fault. Told fault (set_in pass (meanings_of names.old) (map part_of tokens.now))) }
{
    match map_line_of(tokens) {
        Some(line) => match pass {
            Pass::First => put_map(alloc, names, line),
            Pass::Second => Ok(()),
        },
        None => match pass {
            Pass::First => set_name(alloc, names, tokens),
            Pass::Second => set_name_again(alloc, names, tokens),
        },
    }
}
