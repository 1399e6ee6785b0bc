ghost use Rattle.std.specs.Prelude.{◌≡◌, ◌<◌, ◌++◌, OnOk, length};
ghost use Rattle.std.specs.List.{flat_map, slice_get};
ghost use Rattle.text_graph.specs.Parts.{scene_of};
ghost use Rattle.text_graph.specs.Pieces.{escaped};
ghost use Rattle.text_graph.specs.Stretches.{AreNumbers, CanDraw};
ghost use Rattle.text_graph.specs.Text.{label_of, node, row, stretch};

use crate::clusters::{put_closed, put_opened};
use crate::drawn_edges::put_edges;
use crate::pieces::{put_address, put_escaped, put_name, put_node_end};
use crate::stretches::{passes, stretch_ticks};
use crate::tables::Drawn;
use loop_bounds::place_in;
use std::alloc::AllocError;
use text_rows::put;

// Adds the label of a place, by its position among the graph's places.
fn put_label(out: &mut Vec<u8>, labels: &[Vec<u8>], place: usize) -> Result<(), AllocError>
    ensures { OnOk result
        (out.new.items ≡ out.old.items ++ escaped (label_of (slice_get labels.now place))) }
{
    match labels.get(place) {
        Some(label) => put_escaped(out, label),
        None => Ok(()),
    }
}

// Adds the address of a number and its label.
fn put_row(out: &mut Vec<u8>, drawn: Drawn<'_, '_>, number: usize) -> Result<(), AllocError>
    requires drawn { CanDraw drawn }
    requires known { number < length drawn.graph.now.places }
    ensures { OnOk result (out.new.items ≡ out.old.items ++ row (scene_of drawn.entry) number) }
{
    put_address(out, place_in(drawn.graph, drawn.tree, number).address())?;
    put(out, b"  ")?;
    put_label(out, drawn.labels, drawn.tree.order()[number])?;
    put(out, b"\\l")
}

// Adds the addresses and labels of a stretch.
fn put_rows(out: &mut Vec<u8>, drawn: Drawn<'_, '_>, numbers: &[usize]) -> Result<(), AllocError>
    requires drawn { CanDraw drawn }
    requires known { AreNumbers drawn.graph.now numbers.now }
    ensures { OnOk result
        (out.new.items ≡ out.old.items ++ flat_map (row (scene_of drawn.entry)) numbers.now) }
{
    for number in numbers {
        put_row(out, drawn, *number)?;
    }
    Ok(())
}

// Adds the node of a stretch.
fn put_node(out: &mut Vec<u8>, drawn: Drawn<'_, '_>, numbers: &[usize]) -> Result<(), AllocError>
    requires drawn { CanDraw drawn }
    requires known { AreNumbers drawn.graph.now numbers.now }
    ensures { OnOk result (out.new.items ≡ out.old.items ++ node (scene_of drawn.entry) numbers.now) }
{
    let first = numbers[0];
    put_name(out, first)?;
    put(out, b" [label=\"")?;
    put_rows(out, drawn, numbers)?;
    put_node_end(
        out,
        passes(drawn, first),
        stretch_ticks(drawn, numbers),
        drawn.bound,
    )
}

/// Adds a stretch: its node inside its clusters, and the edges that leave its last number.
pub(crate) fn put_stretch(
    out: &mut Vec<u8>,
    drawn: Drawn<'_, '_>,
    numbers: &[usize],
) -> Result<(), AllocError>
    requires drawn { CanDraw drawn }
    requires known { AreNumbers drawn.graph.now numbers.now }
    ensures { OnOk result (out.new.items ≡ out.old.items ++ stretch (scene_of drawn.entry) numbers.now) }
{
    let first = numbers[0];
    put_opened(out, drawn, first)?;
    put_node(out, drawn, numbers)?;
    put_closed(out, drawn, first)?;
    put(out, b"\n")?;
    put_edges(out, drawn, first, numbers[numbers.len() - 1])
}
