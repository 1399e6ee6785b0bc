ghost use Rattle.std.specs.Prelude.{◌≡◌, ◌++◌, IfOk, OnOk};
ghost use Rattle.text_objections.specs.Texts.{bound_heading, cost_line, cost_words, edge_lines, header_line};
ghost use Rattle.text_objections.specs.Texts.{heavy_lines, item_line, numbers_line, objection_text};
ghost use Rattle.text_objections.specs.Texts.{place_line};

use crate::line_parts::{put_edge, put_place};
use cert_check::{COST_CAP, FailingRow, HeavyRow};
use control_flow::{Edge, Place};
use std::alloc::{AllocError, Global};
use text_rows::{put, put_decimal};

const WRONG_PROFILE: &[u8] = b"The certificate's prices are not those of the handler's graph.\n";

const MISSING_PLACE: &[u8] = b"No row is about this place:\n";

const MISSING_INSTANCE: &[u8] = b"No row is about this loop:\n";

const EXTRA_PLACE: &[u8] = b"A row is about this, which is no place of the handler:\n";

const EXTRA_INSTANCE: &[u8] = b"A row is about this, which is no loop of the handler:\n";

const TOO_LARGE: &[u8] = b"The row of this edge asks for 2^63 ticks or more:\n";

const EDGE: &[u8] = b"The row of this edge does not hold:\n";

const ROUND: &[u8] = b"The row of this edge, which goes back, does not hold:\n";

const LEAVE: &[u8] = b"The row of this edge, which leaves a loop, does not hold:\n";

const OPEN: &[u8] = b"The walk ends here, inside the handler:\n";

const AT: &[u8] = b"at";

const HEADER: &[u8] = b"header";

// A heading, and under it a place after a word.
fn at_place(
    alloc: Global,
    heading: &[u8],
    word: &[u8],
    place: &Place,
) -> Result<Vec<u8>, AllocError>
    ensures { IfOk result (λ text. text.items ≡ heading.now ++ place_line word.now place.now) }
{
    let mut out = Vec::from_slice(alloc, heading)?;
    put_place(&mut out, word, place)?;
    Ok(out)
}

// A heading, and under it an edge.
fn at_edge(alloc: Global, heading: &[u8], edge: &Edge) -> Result<Vec<u8>, AllocError>
    ensures { IfOk result (λ text. text.items ≡ heading.now ++ edge_lines edge.now) }
{
    let mut out = Vec::from_slice(alloc, heading)?;
    put_edge(&mut out, edge)?;
    Ok(out)
}

// Adds what a row states, and what it asks for.
fn put_numbers(out: &mut Vec<u8>, row: &HeavyRow) -> Result<(), AllocError>
    ensures { OnOk result (out.new.items ≡ out.old.items ++ numbers_line row.now) }
{
    put(out, b"  ")?;
    put_decimal(out, row.stated)?;
    put(out, b" is less than ")?;
    put_decimal(out, row.needed)?;
    put(out, b"\n")
}

// A heading, and under it a row that does not hold.
fn at_row(alloc: Global, heading: &[u8], row: &HeavyRow) -> Result<Vec<u8>, AllocError>
    ensures { IfOk result (λ text. text.items ≡ heading.now ++ heavy_lines row.now) }
{
    let mut out = at_edge(alloc, heading, &row.edge)?;
    put_numbers(&mut out, row)?;
    Ok(out)
}

fn item_line(alloc: Global, index: usize) -> Result<Vec<u8>, AllocError>
    ensures { IfOk result (λ text. text.items ≡ item_line index) }
{
    let mut out = Vec::from_slice(alloc, b"Item ")?;
    put_decimal(&mut out, index as u64)?;
    put(
        &mut out,
        b" of the walk, counted from 0, cannot be followed.\n",
    )?;
    Ok(out)
}

fn bound_heading(alloc: Global, bound: u32) -> Result<Vec<u8>, AllocError>
    ensures { IfOk result (λ text. text.items ≡ bound_heading bound) }
{
    let mut out = Vec::from_slice(alloc, b"The walk turns back more than ")?;
    put_decimal(&mut out, u64::from(bound))?;
    put(&mut out, b" times in a stay in this loop:\n")?;
    Ok(out)
}

fn bound_text(alloc: Global, header: &Place, bound: u32) -> Result<Vec<u8>, AllocError>
    ensures { IfOk result (λ text. text.items ≡ bound_heading bound ++ header_line header.now) }
{
    let heading = bound_heading(alloc, bound)?;
    at_place(alloc, &heading, HEADER, header)
}

// Adds a cost that is capped.
fn put_cost(out: &mut Vec<u8>, cost: u128) -> Result<(), AllocError>
    ensures { OnOk result (out.new.items ≡ out.old.items ++ cost_words cost) }
{
    if cost < COST_CAP {
        return put_decimal(out, cost as u64);
    }
    put(out, b"2^64 or more")
}

fn cost_line(alloc: Global, cost: u128) -> Result<Vec<u8>, AllocError>
    ensures { IfOk result (λ text. text.items ≡ cost_line cost) }
{
    let mut out = Vec::from_slice(alloc, b"The walk costs ")?;
    put_cost(&mut out, cost)?;
    put(&mut out, b" ticks, which is not the bound.\n")?;
    Ok(out)
}

/// What fails in a certificate, in lines of at most 80 columns, each with its end. A place is shown as a
/// certificate has it: the calls that it is inside of, and its address.
///
/// # Errors
///
/// `AllocError` where an allocation failed.
pub fn objection_text(alloc: Global, row: &FailingRow) -> Result<Vec<u8>, AllocError>
    ensures { IfOk result (λ text. text.items ≡ objection_text row.now) }
{
    match row {
        FailingRow::WrongProfile => Vec::from_slice(alloc, WRONG_PROFILE),
        FailingRow::MissingPlace(place) => at_place(alloc, MISSING_PLACE, AT, place),
        FailingRow::MissingInstance(header) => at_place(alloc, MISSING_INSTANCE, HEADER, header),
        FailingRow::ExtraPlace(place) => at_place(alloc, EXTRA_PLACE, AT, place),
        FailingRow::ExtraInstance(header) => at_place(alloc, EXTRA_INSTANCE, HEADER, header),
        FailingRow::NumberTooLarge(edge) => at_edge(alloc, TOO_LARGE, edge),
        FailingRow::EdgeTooHeavy(heavy) => at_row(alloc, EDGE, heavy),
        FailingRow::RoundTooHeavy(heavy) => at_row(alloc, ROUND, heavy),
        FailingRow::LeaveTooHeavy(heavy) => at_row(alloc, LEAVE, heavy),
        FailingRow::BrokenWalk(index) => item_line(alloc, *index),
        FailingRow::OpenWalk(place) => at_place(alloc, OPEN, AT, place),
        FailingRow::WalkOverBound(header, bound) => bound_text(alloc, header, *bound),
        FailingRow::WalkCost(cost) => cost_line(alloc, *cost),
    }
}
