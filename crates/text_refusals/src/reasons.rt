//! What shows why the flow graph or the loops of a handler are refused.

ghost use Rattle.std.specs.Prelude.{◌≡◌, ◌⊎◌, IfOk, OnOk};
ghost use Rattle.asm_text.specs.Appended.{Appends};
ghost use Rattle.control_flow.specs.Faulty.{AreSound, IsFaultyPlace};
ghost use Rattle.control_flow.specs.Graph.{IsCrowd};
ghost use Rattle.loop_bounds.specs.Nest.{HasCrossing, HasDeepPlace, HasMidEntry, HasSharedHeader};
ghost use Rattle.loop_bounds.specs.Nest.{HasUnboundedCycle};
ghost use Rattle.text_refusals.specs.Crossings.{IsCrossing};
ghost use Rattle.text_refusals.specs.Entries.{IsMidEntry};
ghost use Rattle.text_refusals.specs.Nested.{IsDeep};
ghost use Rattle.text_refusals.specs.Reasons.{IsGraphReason, IsLoopsReason, IsUnbounded, Shows};
ghost use Rattle.text_refusals.specs.SharedHeaders.{IsSharedBy};
ghost use Rattle.text_refusals.specs.Texts.{IsCrossingText, IsCycleText, IsDeepText};
ghost use Rattle.text_refusals.specs.Mends.{IsEntryReason, IsMendText};
ghost use Rattle.text_refusals.specs.Texts.{IsFaultText, shared_text};

use crate::crossings::loops_that_cross;
use crate::cycles::unbounded_cycle;
use crate::extents::extent_of;
use crate::mends::{mended, put_mend};
use crate::mid_entries::{MidEntry, mid_entry};
use crate::nested::deep_place;
use crate::reason_texts::{
    crossing_text, cycle_text, deep_text, entry_text, place_text, shared_text, word_text,
};
use crate::shared_headers::shared_header;
use crate::word_lines::WordLines;
use bus_ticks::Profile;
use control_flow::{BuildFault, FaultyPlace, Graph, faulty_place, graphs_are_well_formed};
use loop_bounds::NestFault;
use statement::{Loop, StatedLoops, Statement};
use std::alloc::{AllocError, Global};

fn cycle_reason(
    alloc: Global,
    words: &WordLines<'_>,
    graph: &Graph,
    loops: &StatedLoops,
) -> Result<Vec<u8>, AllocError>
    ensures { IfOk result
        (λ text. Shows (IsUnbounded graph.now loops.now) (λ found. IsCycleText words.now found.0 found.1)
        (HasUnboundedCycle graph.now loops.now → ⊥) text.items) }
{
    graphs_are_well_formed(graph);
    let Some(cycle) = unbounded_cycle(alloc, graph, loops)? else {
        return Ok(Vec::new(alloc));
    };
    match extent_of(&cycle) {
        Some(extent) => cycle_text(alloc, words, &cycle, &extent),
        None => Ok(Vec::new(alloc)),
    }
}

fn crossing_reason(
    alloc: Global,
    words: &WordLines<'_>,
    graph: &Graph,
    loops: &StatedLoops,
) -> Result<Vec<u8>, AllocError>
    ensures { IfOk result
        (λ text. Shows (IsCrossing graph.now loops.now) (IsCrossingText words.now)
        (HasCrossing graph.now loops.now → ⊥) text.items) }
{
    match loops_that_cross(graph, loops) {
        Some(crossing) => crossing_text(alloc, words, &crossing),
        None => Ok(Vec::new(alloc)),
    }
}

fn shared_reason(
    alloc: Global,
    words: &WordLines<'_>,
    loops: &[Loop],
) -> Result<Vec<u8>, AllocError>
    ensures { IfOk result
        (λ text. Shows (λ (pair : Loop × Loop). IsSharedBy loops.now pair.0 pair.1)
        (λ pair rows. rows ≡ shared_text words.now.lines pair.0 pair.1)
        (HasSharedHeader loops.now → ⊥) text.items) }
{
    match shared_header(loops) {
        Some((one, other)) => shared_text(alloc, words, &one, &other),
        None => Ok(Vec::new(alloc)),
    }
}

// Adds words apart that mend an entry, if some are found.
fn put_mended(
    out: &mut Vec<u8>,
    words: &WordLines<'_>,
    graph: &Graph,
    loops: &StatedLoops,
    alloc: Global,
) -> Result<(), AllocError>
    ensures { OnOk result (Appends (IsMendText words.now graph.now loops.now) out.old.items out.new.items) }
{
    match mended(alloc, graph, loops)? {
        Some(new) => put_mend(out, words, new.apart().stretches()),
        None => Ok(()),
    }
}

// Where a loop is entered, and words apart that mend it.
fn shown_entry(
    alloc: Global,
    words: &WordLines<'_>,
    graph: &Graph,
    loops: &StatedLoops,
    entry: &MidEntry,
) -> Result<Vec<u8>, AllocError>
    ensures { IfOk result (λ text. IsEntryReason words.now graph.now loops.now entry.now text.items) }
{
    let mut text = entry_text(alloc, words, entry)?;
    put_mended(&mut text, words, graph, loops, alloc)?;
    Ok(text)
}

fn entry_reason(
    alloc: Global,
    words: &WordLines<'_>,
    graph: &Graph,
    loops: &StatedLoops,
) -> Result<Vec<u8>, AllocError>
    ensures { IfOk result
        (λ text. Shows (IsMidEntry graph.now loops.now) (IsEntryReason words.now graph.now loops.now)
        (HasMidEntry graph.now loops.now → ⊥) text.items) }
{
    match mid_entry(graph, loops) {
        Some(entry) => shown_entry(alloc, words, graph, loops, &entry),
        None => Ok(Vec::new(alloc)),
    }
}

fn deep_reason(
    alloc: Global,
    words: &WordLines<'_>,
    graph: &Graph,
    loops: &StatedLoops,
) -> Result<Vec<u8>, AllocError>
    ensures { IfOk result
        (λ text. Shows (IsDeep graph.now loops.now) (IsDeepText words.now)
        (HasDeepPlace graph.now loops.now → ⊥) text.items) }
{
    match deep_place(alloc, graph, loops)? {
        Some(deep) => deep_text(alloc, words, &deep),
        None => Ok(Vec::new(alloc)),
    }
}

/// The places that show why the loops of a flow graph are refused: those of a cycle without a bound, of two
/// loops that cross, of an entry elsewhere than at the header, or of one in too many loops; of two loops with
/// one header, both.
///
/// # Errors
///
/// An allocation failed.
pub fn loops_reason(
    alloc: Global,
    words: &WordLines<'_>,
    graph: &Graph,
    loops: &StatedLoops,
    fault: NestFault,
) -> Result<Vec<u8>, AllocError>
    ensures { IfOk result
        (λ text. IsLoopsReason words.now graph.now loops.now fault text.items) }
{
    match fault {
        NestFault::UnboundedCycle => cycle_reason(alloc, words, graph, loops),
        NestFault::LoopsCross => crossing_reason(alloc, words, graph, loops),
        NestFault::SharedHeader => shared_reason(alloc, words, loops.list()),
        NestFault::EntersMidLoop => entry_reason(alloc, words, graph, loops),
        NestFault::NestedTooDeep => deep_reason(alloc, words, graph, loops),
        NestFault::Memory => Ok(Vec::new(alloc)),
    }
}

// The place without edges, if there is one.
fn place_reason(
    alloc: Global,
    words: &WordLines<'_>,
    statement: &Statement,
    profile: &Profile,
) -> Result<Vec<u8>, AllocError>
    ensures { IfOk result
        (λ text. Shows (IsFaultyPlace words.now.image.now statement.now profile.now)
        (λ faulty. IsFaultText words.now faulty faulty.fault)
        (AreSound words.now.image.now statement.now profile.now
        ⊎ IsCrowd words.now.image.now statement.now profile.now) text.items) }
{
    match faulty_place(alloc, words.image, statement, profile) {
        Ok(Some(faulty)) => place_text(alloc, words, &faulty),
        Ok(None) => Ok(Vec::new(alloc)),
        Err(BuildFault::Memory) => Err(AllocError),
        // Too many places: the one line says all there is to say.
        Err(_) => Ok(Vec::new(alloc)),
    }
}

/// The words that show why a handler has no flow graph: the one that cannot have a target, or that of the
/// place without edges, and how it is reached. Nothing where there are too many places.
///
/// # Errors
///
/// An allocation failed.
pub fn graph_reason(
    alloc: Global,
    words: &WordLines<'_>,
    statement: &Statement,
    profile: &Profile,
    fault: BuildFault,
) -> Result<Vec<u8>, AllocError>
    ensures { IfOk result
        (λ text. IsGraphReason words.now statement.now profile.now fault text.items) }
{
    match fault {
        BuildFault::TargetNotWriter(at) => word_text(alloc, words, at),
        _ => place_reason(alloc, words, statement, profile),
    }
}
