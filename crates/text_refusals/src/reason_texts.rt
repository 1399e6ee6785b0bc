ghost use Rattle.std.specs.Prelude.{◌≡◌, ◌++◌, [], IfOk, OnOk};
ghost use Rattle.asm_text.specs.Appended.{Appends};
ghost use Rattle.text_rows.specs.Rows.{AreRows};
ghost use Rattle.text_refusals.specs.Rows.{IsPlaceRow, IsRow};
ghost use Rattle.text_refusals.specs.Texts.{IsCycleText, IsEntryFront, IsEntryText, IsStartRow, IsUnder};
ghost use Rattle.text_refusals.specs.Texts.{IsChainText, IsFaultText, IsLeadText, addresses_text, chain_of};
ghost use Rattle.text_refusals.specs.Texts.{IsCrossingText, key_text, loop_text, shared_text};
ghost use Rattle.text_refusals.specs.Texts.{IsDeepText, headers_of, in_loops, stated_text, two_loops};

use crate::crossings::Crossing;
use crate::extents::CycleExtent;
use crate::mid_entries::MidEntry;
use crate::nested::DeepPlace;
use crate::word_lines::WordLines;
use crate::word_rows::around_number;
use control_flow::{BuildFault, Edge, FaultyPlace, Place};
use loop_bounds::LoopInstance;
use statement::Loop;
use std::alloc::{AllocError, Global};
use text_rows::{put, put_decimal};

const ENTERED: &[u8] = b"A loop is entered elsewhere than at its header. From here:\n";

const NINE: &[u8] = b"Nine calls, each inside the one before it; eight is the most:\n";

const LEADS: &[u8] = b"No word is there. This leads to it:\n";

const TO_HERE: &[u8] = b"To here:\n";

const ONE_HEADER: &[u8] = b"These two loops have one header:\n";

const CROSS: &[u8] = b"These two loops cross:\n";

const BOTH: &[u8] = b"Both have this word:\n";

const FIRST: &[u8] = b"The first alone has this one:\n";

const SECOND: &[u8] = b"The second alone has this one:\n";

const BEGINS: &[u8] = b"The handler begins in a loop elsewhere than at its header. Here:\n";

// Adds a key of a loop, with an address.
fn put_key(out: &mut Vec<u8>, words: &WordLines<'_>, key: &[u8], at: u32) -> Result<(), AllocError>
    ensures { OnOk result (out.new.items ≡ out.old.items ++ key_text words.now.lines key.now at) }
{
    put(out, b"  ")?;
    put(out, key)?;
    put(out, b" = ")?;
    words.put_name(out, at)?;
    put(out, b"\n")
}

// Adds the addresses of a loop as a statement has it.
fn put_addresses(
    out: &mut Vec<u8>,
    words: &WordLines<'_>,
    extent: &CycleExtent,
) -> Result<(), AllocError>
    ensures { OnOk result
        (out.new.items ≡ out.old.items ++ addresses_text words.now.lines extent.now) }
{
    put(out, b"  [[loop]]\n")?;
    put_key(out, words, b"header", extent.header)?;
    put_key(out, words, b"first", extent.first)?;
    put_key(out, words, b"last", extent.last)
}

// Adds a loop as a statement has it.
fn put_stated(out: &mut Vec<u8>, words: &WordLines<'_>, stated: &Loop) -> Result<(), AllocError>
    ensures { OnOk result (out.new.items ≡ out.old.items ++ stated_text words.now.lines stated.now) }
{
    let extent = CycleExtent {
        header: stated.header,
        first: stated.first,
        last: stated.last,
    };
    put_addresses(out, words, &extent)?;
    put(out, b"  bound = ")?;
    put_decimal(out, stated.bound as u64)?;
    put(out, b"\n")
}

// Adds a loop as a statement has it, with a question mark for its bound.
fn put_loop(
    out: &mut Vec<u8>,
    words: &WordLines<'_>,
    extent: &CycleExtent,
) -> Result<(), AllocError>
    ensures { OnOk result (out.new.items ≡ out.old.items ++ loop_text words.now.lines extent.now) }
{
    put_addresses(out, words, extent)?;
    put(out, b"  bound = \"?\"\n")
}

// Adds the rows of the places where the edges begin.
fn put_starts(out: &mut Vec<u8>, words: &WordLines<'_>, cycle: &[Edge]) -> Result<(), AllocError>
    ensures { OnOk result (Appends (AreRows (IsStartRow words.now) cycle.now) out.old.items out.new.items) }
{
    for edge in cycle {
        words.put_place(out, &edge.from)?;
    }
    Ok(())
}

/// A cycle that no loop bounds, place by place, and a loop with its extent to be put into the statement.
///
/// # Errors
///
/// An allocation failed.
pub fn cycle_text(
    alloc: Global,
    words: &WordLines<'_>,
    cycle: &[Edge],
    extent: &CycleExtent,
) -> Result<Vec<u8>, AllocError>
    ensures { IfOk result (λ text. IsCycleText words.now cycle.now extent.now text.items) }
{
    let mut out = Vec::from_slice(alloc, b"This cycle has no [[loop]]:\n")?;
    put_starts(&mut out, words, cycle)?;
    put(
        &mut out,
        b"For its statement, with the most times that it turns back for the question mark:\n",
    )?;
    put_loop(&mut out, words, extent)?;
    Ok(out)
}

// Adds a line, and under it the row of a place.
fn put_under(
    out: &mut Vec<u8>,
    words: &WordLines<'_>,
    heading: &[u8],
    place: &Place,
) -> Result<(), AllocError>
    ensures { OnOk result (Appends (IsUnder words.now heading.now place.now) out.old.items out.new.items) }
{
    put(out, heading)?;
    words.put_place(out, place)
}

// Adds how the loop is entered.
fn put_entry(out: &mut Vec<u8>, words: &WordLines<'_>, entry: &MidEntry) -> Result<(), AllocError>
    ensures { OnOk result
        (Appends (IsEntryFront words.now entry.now.place entry.now.edge) out.old.items out.new.items) }
{
    match &entry.edge {
        Some(edge) => {
            put_under(out, words, ENTERED, &edge.from)?;
            put_under(out, words, TO_HERE, &entry.place)
        }
        None => put_under(out, words, BEGINS, &entry.place),
    }
}

/// Where a loop is entered elsewhere than at its header, and that header.
///
/// # Errors
///
/// An allocation failed.
pub fn entry_text(
    alloc: Global,
    words: &WordLines<'_>,
    entry: &MidEntry,
) -> Result<Vec<u8>, AllocError>
    ensures { IfOk result (λ text. IsEntryText words.now entry.now text.items) }
{
    let mut out = Vec::new(alloc);
    put_entry(&mut out, words, entry)?;
    put(&mut out, b"The loop's header:\n")?;
    words.put_row(&mut out, entry.instance.stated.header)?;
    Ok(out)
}

// A line, and under it two loops.
fn two_loops(
    alloc: Global,
    words: &WordLines<'_>,
    heading: &[u8],
    one: &Loop,
    other: &Loop,
) -> Result<Vec<u8>, AllocError>
    ensures { IfOk result
        (λ text. text.items ≡ two_loops words.now.lines heading.now one.now other.now) }
{
    let mut out = Vec::from_slice(alloc, heading)?;
    put_stated(&mut out, words, one)?;
    put_stated(&mut out, words, other)?;
    Ok(out)
}

/// Two loops with one header.
///
/// # Errors
///
/// An allocation failed.
pub fn shared_text(
    alloc: Global,
    words: &WordLines<'_>,
    one: &Loop,
    other: &Loop,
) -> Result<Vec<u8>, AllocError>
    ensures { IfOk result (λ text. text.items ≡ shared_text words.now.lines one.now other.now) }
{
    two_loops(alloc, words, ONE_HEADER, one, other)
}

/// Two loops that cross, a word of both, and one that each has alone.
///
/// # Errors
///
/// An allocation failed.
pub fn crossing_text(
    alloc: Global,
    words: &WordLines<'_>,
    crossing: &Crossing,
) -> Result<Vec<u8>, AllocError>
    ensures { IfOk result (λ text. IsCrossingText words.now crossing.now text.items) }
{
    let one = &crossing.one.stated;
    let other = &crossing.other.stated;
    let mut out = two_loops(alloc, words, CROSS, one, other)?;
    put_under(&mut out, words, BOTH, &crossing.shared)?;
    put_under(&mut out, words, FIRST, &crossing.one_has)?;
    put_under(&mut out, words, SECOND, &crossing.other_has)?;
    Ok(out)
}

// The text above a place in so many loops.
fn in_loops(alloc: Global, count: usize) -> Result<Vec<u8>, AllocError>
    ensures { IfOk result (λ text. text.items ≡ in_loops count) }
{
    around_number(
        alloc,
        b"This word is in ",
        count,
        b" loops; 16 is the most:\n",
    )
}

fn headers_of(alloc: Global, found: &[LoopInstance]) -> Result<Vec<u32>, AllocError>
    ensures { IfOk result (λ headers. headers.items ≡ headers_of found.now) }
{
    found.iter().map(|one| one.stated.header).collect(alloc)
}

/// A word that is in more than sixteen loops, and the headers of those.
///
/// # Errors
///
/// An allocation failed.
pub fn deep_text(
    alloc: Global,
    words: &WordLines<'_>,
    deep: &DeepPlace,
) -> Result<Vec<u8>, AllocError>
    ensures { IfOk result (λ text. IsDeepText words.now deep.now text.items) }
{
    let found = deep.instances.as_slice();
    let heading = in_loops(alloc, found.len())?;
    let headers = headers_of(alloc, found)?;
    let mut out = Vec::new(alloc);
    put_under(&mut out, words, &heading, &deep.place)?;
    put(&mut out, b"Their headers, the outermost loop's first:\n")?;
    put_rows(&mut out, words, &headers)?;
    Ok(out)
}

// Adds the rows of words.
fn put_rows(out: &mut Vec<u8>, words: &WordLines<'_>, named: &[u32]) -> Result<(), AllocError>
    ensures { OnOk result (Appends (AreRows (IsRow words.now) named.now) out.old.items out.new.items) }
{
    for at in named {
        words.put_row(out, *at)?;
    }
    Ok(())
}

// The addresses of the calls that a place is inside of, and then its own; none of Exit.
fn chain_of(alloc: Global, place: &Place) -> Result<Vec<u32>, AllocError>
    ensures { IfOk result (λ chain. chain.items ≡ chain_of place.now) }
{
    match place {
        Place::At(calls, address) => {
            let mut chain = Vec::from_slice(alloc, calls.items())?;
            chain.push(*address)?;
            Ok(chain)
        }
        Place::Exit => Ok(Vec::new(alloc)),
    }
}

// The calls that a place is inside of, and its own.
fn chain_text(alloc: Global, words: &WordLines<'_>, place: &Place) -> Result<Vec<u8>, AllocError>
    ensures { IfOk result (λ text. IsChainText words.now place.now text.items) }
{
    let chain = chain_of(alloc, place)?;
    let mut out = Vec::from_slice(alloc, NINE)?;
    put_rows(&mut out, words, &chain)?;
    Ok(out)
}

// The word where the edge begins.
fn lead_text(
    alloc: Global,
    words: &WordLines<'_>,
    edge: &Option<Edge>,
) -> Result<Vec<u8>, AllocError>
    ensures { IfOk result (λ text. IsLeadText words.now edge.now text.items) }
{
    let mut out = Vec::new(alloc);
    if let Some(edge) = edge {
        put_under(&mut out, words, LEADS, &edge.from)?;
    }
    Ok(out)
}

// The row of a place.
fn row_text(alloc: Global, words: &WordLines<'_>, place: &Place) -> Result<Vec<u8>, AllocError>
    ensures { IfOk result (λ text. IsPlaceRow words.now place.now text.items) }
{
    let mut out = Vec::new(alloc);
    words.put_place(&mut out, place)?;
    Ok(out)
}

/// Why a place has no edges: the nine calls that are one inside another, the word that leads to a place where
/// there is none, or else the word of the place.
///
/// # Errors
///
/// An allocation failed.
pub fn place_text(
    alloc: Global,
    words: &WordLines<'_>,
    faulty: &FaultyPlace,
) -> Result<Vec<u8>, AllocError>
    ensures { IfOk result (λ text. IsFaultText words.now faulty.now faulty.now.fault text.items) }
{
    match faulty.fault {
        BuildFault::TooDeep => chain_text(alloc, words, &faulty.place),
        BuildFault::OutsideImage(_) => lead_text(alloc, words, &faulty.edge),
        _ => row_text(alloc, words, &faulty.place),
    }
}

/// The row of the word at an address.
///
/// # Errors
///
/// An allocation failed.
pub fn word_text(alloc: Global, words: &WordLines<'_>, at: u32) -> Result<Vec<u8>, AllocError>
    ensures { IfOk result (λ text. Appends (IsRow words.now at) [] text.items) }
{
    let mut out = Vec::new(alloc);
    words.put_row(&mut out, at)?;
    Ok(out)
}
