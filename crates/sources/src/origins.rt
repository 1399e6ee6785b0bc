//! Where the lines of a text are placed, of which each has one line or several in our grammar.

ghost use Rattle.std.specs.Prelude.{◌≡◌, ◌∷◌, ◌++◌, [], List, Ok, IfErr, IfOk, MatchOption, drop, map};
ghost use Rattle.objasm.specs.Names.{mapped};
ghost use Rattle.objasm.specs.Source.{FaultedAt};
ghost use Rattle.sources.specs.Origins.{Stretch, first_origin, gathered, gathered_from, have_one_origin};
ghost use Rattle.sources.specs.Origins.{scattered_at, stretch_of, together, end_of};

use assembler::PlacedLine;
use objasm::{DialectFault, LineFault};
use std::alloc::Global;

// Whether the first two of some lines come from one.
fn have_one_origin(origins: &[usize]) -> bool
    ensures { result ≡ have_one_origin origins.now }
{
    match origins {
        [number, next, ..] => *next == *number,
        _ => false,
    }
}

fn first_origin(origins: &[usize]) -> usize
    ensures { result ≡ first_origin origins.now }
{
    match origins {
        [number, ..] => *number,
        [] => 0,
    }
}

fn behind_first(origins: &[usize]) -> &[usize]
    ensures { result.now ≡ drop 1 origins.now }
{
    match origins {
        [_, behind @ ..] => behind,
        [] => origins,
    }
}

fn end_of(line: PlacedLine) -> usize
    ensures { result ≡ end_of (stretch_of line) }
{
    line.at as usize + 4 * line.words
}

// Two lines of which the second lies behind the words of the first, as one.
fn together(line: PlacedLine, next: PlacedLine) -> PlacedLine
    requires { next.at ≡ end_of (stretch_of line) }
    ensures { stretch_of result ≡ together (stretch_of line) (stretch_of next) }
{
    PlacedLine {
        at: line.at,
        words: line.words + next.words,
    }
}

// The first of some lines, and the others.
fn first_placed(placed: &[PlacedLine]) -> Option<(PlacedLine, &[PlacedLine])>
    ensures { MatchOption result (placed.now ≡ []) (λ r. placed.now ≡ r.0 ∷ r.1.now) }
{
    match placed {
        [line, others @ ..] => Some((*line, others)),
        [] => None,
    }
}

// Puts a line, unless the next comes from the same: then the two are one. Answers the line to go on with.
fn put_before(
    origins: &[usize],
    line: PlacedLine,
    next: PlacedLine,
    out: &mut Vec<PlacedLine>,
) -> Result<PlacedLine, DialectFault>
    ensures ok { IfOk result (λ new. (rest : List Stretch)
        → mapped (λ more. map stretch_of out.old.items ++ more)
        (gathered_from origins.now (stretch_of line) (stretch_of next ∷ rest))
        ≡ mapped (λ more. map stretch_of out.new.items ++ more)
        (gathered_from (drop 1 origins.now) (stretch_of new) rest)) }
    ensures fault { IfErr result (λ fault. (rest : List Stretch)
        → FaultedAt fault
        (scattered_at (gathered_from origins.now (stretch_of line) (stretch_of next ∷ rest)))) }
{
    if !have_one_origin(origins) {
        out.push(line)?;
        return Ok(next);
    }
    if next.at as usize != end_of(line) {
        return Err(DialectFault::Line(LineFault::Scattered, first_origin(origins)));
    }
    Ok(together(line, next))
}

/// The lines that these stand for, by the numbers of the lines that they come from.
///
/// # Errors
///
/// `Line`, with `Scattered`: what stands for one does not lie side by side. `Memory`: an allocation failed.
pub(crate) fn gathered(
    alloc: Global,
    origins: &[usize],
    placed: &[PlacedLine],
) -> Result<Vec<PlacedLine>, DialectFault>
    ensures ok { IfOk result (λ lines.
        gathered origins.now (map stretch_of placed.now) ≡ Ok (map stretch_of lines.items)) }
    ensures fault { IfErr result (λ fault.
        FaultedAt fault (scattered_at (gathered origins.now (map stretch_of placed.now)))) }
{
    let mut out = Vec::new(alloc);
    let Some((first, others)) = first_placed(placed) else {
        return Ok(out);
    };
    let mut line = first;
    let mut lines = others;
    let mut numbers = origins;
    while let Some((next, after)) = first_placed(lines) {
        line = put_before(numbers, line, next, &mut out)?;
        numbers = behind_first(numbers);
        lines = after;
    }
    out.push(line)?;
    Ok(out)
}
