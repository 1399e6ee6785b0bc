ghost use Rattle.std.specs.Prelude.{◌≡◌, ◌<◌, ◌++◌, IfOk, OnOk, length};
ghost use Rattle.std.specs.List.{flat_map, range_with_len};
ghost use Rattle.loop_bounds.specs.Tree.{IsTree};
ghost use Rattle.text_graph.specs.Parts.{scene_of};
ghost use Rattle.text_graph.specs.Stretches.{AreBegins, CanDraw, stretch_from};
ghost use Rattle.text_graph.specs.Text.{IsDrawing, begun, drawing_text, stretch};

use crate::extent::{Extent, is_drawn};
use crate::labels::place_labels;
use crate::nodes::put_stretch;
use crate::pieces::put_name;
use crate::stretches::{begins, passes, stretch_from};
use crate::tables::{Drawn, arrivals, callers};
use longest_walk::Longest;
use loop_bounds::Handler;
use numbered_walks::Index;
use sources::Source;
use std::alloc::{AllocError, Global};
use text_rows::put;
use walk_counts::edge_counts;

// The settings of nodes: their shapes, and their fonts with those of edges.
const HEADING: &[u8] =
    b"digraph handler {\nnode [shape=box, style=filled, fillcolor=white, margin=\"0.08,0.04\"];\n";

const FONTS: &[u8] =
    b"node [fontname=\"Courier\", fontsize=10];\nedge [fontname=\"Courier\", fontsize=10];\n";

// Those of clusters, and the gaps between nodes.
const GAPS: &[u8] =
    b"graph [fontname=\"Courier\", fontsize=10, labeljust=l, ranksep=0.3, nodesep=0.2];\n";

// Adds the stretch that begins with a number.
fn put_first(
    alloc: Global,
    out: &mut Vec<u8>,
    drawn: Drawn<'_, '_>,
    number: usize,
) -> Result<(), AllocError>
    requires drawn { CanDraw drawn }
    requires known { number < length drawn.graph.now.places }
    ensures { OnOk result
        (out.new.items
        ≡ out.old.items
        ++ stretch (scene_of drawn.entry)
        (stretch_from drawn.entry.graph.now drawn.entry.tree.now number)) }
{
    let numbers = stretch_from(alloc, drawn, number)?;
    put_stretch(out, drawn, &numbers)
}

// Adds the stretch that begins with a number, if one does and is drawn.
fn put_begun(
    alloc: Global,
    out: &mut Vec<u8>,
    drawn: Drawn<'_, '_>,
    begins: &[bool],
    number: usize,
) -> Result<(), AllocError>
    requires drawn { CanDraw drawn }
    requires begins { AreBegins drawn.graph.now drawn.tree.now begins.now }
    requires known { number < length drawn.graph.now.places }
    ensures { OnOk result (out.new.items ≡ out.old.items ++ begun (scene_of drawn.entry) number) }
{
    if !begins[number] {
        return Ok(());
    }
    if is_drawn(drawn.extent, passes(drawn, number)) {
        return put_first(alloc, out, drawn, number);
    }
    Ok(())
}

// Adds all stretches, by where stretches begin.
fn put_stretches(
    alloc: Global,
    out: &mut Vec<u8>,
    drawn: Drawn<'_, '_>,
    begins: &[bool],
) -> Result<(), AllocError>
    requires drawn { CanDraw drawn }
    requires begins { AreBegins drawn.graph.now drawn.tree.now begins.now }
    ensures { OnOk result
        (out.new.items
        ≡ out.old.items
        ++ flat_map (begun (scene_of drawn.entry))
        (range_with_len 0 (length drawn.entry.graph.now.places))) }
{
    for number in 0..drawn.graph.places().len() {
        put_begun(alloc, out, drawn, begins, number)?;
    }
    Ok(())
}

// The whole drawing, by its tables.
fn drawn_text(alloc: Global, drawn: Drawn<'_, '_>, begins: &[bool]) -> Result<Vec<u8>, AllocError>
    requires drawn { CanDraw drawn }
    requires begins { AreBegins drawn.graph.now drawn.tree.now begins.now }
    ensures { IfOk result (λ text. text.items ≡ drawing_text (scene_of drawn.entry)) }
{
    let mut out = Vec::from_slice(alloc, HEADING)?;
    put(&mut out, FONTS)?;
    put(&mut out, GAPS)?;
    put_stretches(alloc, &mut out, drawn, begins)?;
    put_name(&mut out, drawn.graph.places().len())?;
    put(&mut out, b" [label=\"Exit\", shape=oval];\n}\n")?;
    Ok(out)
}

/// The drawing of a handler's flow graph with what a greatest walk takes, in DOT: a node for each straight
/// stretch, with the address of each of its places and its line without the comment, how often the walk
/// passes it, its ticks and their share of the bound, by which it is filled; the edges between stretches,
/// with their ticks and how often the walk takes them; and Exit. Nodes are in frames: one for each list of
/// calls, with the names of the routines that the last of them calls and its address, and one for each
/// instance of a loop, with the header's name, how often the walk goes back to it, its ticks and their share.
/// Bold is what the walk takes, grey what it does not, or left out where the path alone is drawn. Numbers are
/// capped at 2^64 - 1.
///
/// A stretch goes on from a place to the next where one edge alone leaves the place, no other leads to the
/// next, which is not the entry, and both are inside the same calls and loops.
///
/// # Errors
///
/// An allocation failed.
pub fn drawing(
    alloc: Global,
    source: &Source<'_>,
    handler: &Handler<'_>,
    longest: &Longest,
    extent: Extent,
) -> Result<Vec<u8>, AllocError>
    requires { IsTree handler.now.graph handler.now.tree }
    ensures { IfOk result
        (λ text. IsDrawing source.now handler.now.graph handler.now.tree longest.now extent text.items) }
{
    let graph = &handler.graph;
    let tree = &handler.tree;
    let lines = source.lines(alloc)?;
    let labels = place_labels(alloc, source, &lines, graph)?;
    let counts = edge_counts(alloc, graph, &longest.walk)?;
    let index = Index::of(alloc, tree.edges(), tree.spans(), graph.places().len())?;
    let arrivals = arrivals(alloc, graph, tree)?;
    let callers = callers(alloc, graph, tree)?;
    let drawn = Drawn {
        graph,
        tree,
        counts: &counts,
        labels: &labels,
        lines: &lines,
        index: &index,
        arrivals: &arrivals,
        callers: &callers,
        bound: longest.bound,
        extent,
    };
    let begins = begins(alloc, drawn)?;
    drawn_text(alloc, drawn, &begins)
}
