ghost use Rattle.std.specs.Prelude.{◌≡◌, ◌++◌, IfOk, IfSome, OnOk};
ghost use Rattle.std.specs.List.{flat_map};
ghost use Rattle.loop_bounds.specs.Nest.{HasMidEntry};
ghost use Rattle.text_refusals.specs.Mends.{Mends, SetsApart, mend_text, stretch_text};

use crate::crossings::loops_that_cross;
use crate::mid_entries::{MidEntry, mid_entry};
use crate::strangers::strangers_round;
use crate::word_lines::WordLines;
use control_flow::Graph;
use statement::{ApartStretch, StatedLoops};
use std::alloc::{AllocError, Global};
use text_rows::put;

// The most stretches that are proposed.
const MOST_PROPOSED: usize = 16;

// The loops with one more stretch apart, round where one is entered, if no way leads from there to its
// header.
fn with_stretch(
    alloc: Global,
    graph: &Graph,
    loops: &StatedLoops,
    entry: &MidEntry,
) -> Result<Option<StatedLoops>, AllocError>
    ensures { IfOk result (λ found. IfSome found (SetsApart loops.now)) }
{
    let at = entry.place.address();
    let Some(stretch) = strangers_round(alloc, graph, loops.apart(), &entry.instance, at)? else {
        return Ok(None);
    };
    loops.also_apart(alloc, &[stretch])
}

// The new loops, of which each is entered at its header alone, if no two cross.
fn uncrossed(graph: &Graph, loops: &StatedLoops, new: StatedLoops) -> Option<StatedLoops>
    requires sets { SetsApart loops.now new }
    requires entered { HasMidEntry graph.now new → ⊥ }
    ensures { IfSome result (Mends graph.now loops.now) }
{
    match loops_that_cross(graph, &new) {
        Some(_) => None,
        None => Some(new),
    }
}

/// The loops with more words apart, where with these each is entered at its header alone and no two cross, if
/// a search finds such words.
///
/// # Errors
///
/// An allocation failed.
pub(crate) fn mended(
    alloc: Global,
    graph: &Graph,
    loops: &StatedLoops,
) -> Result<Option<StatedLoops>, AllocError>
    ensures { IfOk result (λ found. IfSome found (Mends graph.now loops.now)) }
{
    let Some(entry) = mid_entry(graph, loops) else {
        return Ok(None);
    };
    let Some(first) = with_stretch(alloc, graph, loops, &entry)? else {
        return Ok(None);
    };
    let mut current = first;
    for _ in 0..MOST_PROPOSED {
        let Some(entry) = mid_entry(graph, &current) else {
            return Ok(uncrossed(graph, loops, current));
        };
        let Some(next) = with_stretch(alloc, graph, &current, &entry)? else {
            return Ok(None);
        };
        current = next;
    }
    Ok(None)
}

fn put_stretch(
    out: &mut Vec<u8>,
    words: &WordLines<'_>,
    stretch: &ApartStretch,
) -> Result<(), AllocError>
    ensures { OnOk result (out.new.items ≡ out.old.items ++ stretch_text words.now.lines stretch.now) }
{
    put(out, b"    [")?;
    words.put_name(out, stretch.first)?;
    put(out, b", ")?;
    words.put_name(out, stretch.last)?;
    put(out, b"],\n")
}

fn put_stretches(
    out: &mut Vec<u8>,
    words: &WordLines<'_>,
    stretches: &[ApartStretch],
) -> Result<(), AllocError>
    ensures { OnOk result
        (out.new.items ≡ out.old.items ++ flat_map (stretch_text words.now.lines) stretches.now) }
{
    for stretch in stretches {
        put_stretch(out, words, stretch)?;
    }
    Ok(())
}

/// Adds words apart as a statement has them.
///
/// # Errors
///
/// An allocation failed.
pub(crate) fn put_mend(
    out: &mut Vec<u8>,
    words: &WordLines<'_>,
    stretches: &[ApartStretch],
) -> Result<(), AllocError>
    ensures { OnOk result (out.new.items ≡ out.old.items ++ mend_text words.now.lines stretches.now) }
{
    put(
        out,
        b"In front of the statement's tables, so that loops are entered at their headers alone:\n",
    )?;
    put(out, b"  apart = [\n")?;
    put_stretches(out, words, stretches)?;
    put(out, b"  ]\n")
}
