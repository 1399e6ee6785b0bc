ghost use Rattle.std.specs.Prelude.{◌≡◌, ◌<◌, ◌++◌, OnOk, length};
ghost use Rattle.std.specs.List.{flat_map};
ghost use Rattle.longest_walk.specs.Built.{step_at};
ghost use Rattle.numbered_walks.specs.Index.{edge_at};
ghost use Rattle.text_graph.specs.Parts.{scene_of};
ghost use Rattle.text_graph.specs.Stretches.{CanDraw, leaving};
ghost use Rattle.text_graph.specs.Text.{drawn_edge, edge};

use crate::extent::is_drawn;
use crate::pieces::{put_edge_end, put_name};
use crate::stretches::count_of;
use crate::tables::Drawn;
use control_flow::Edge;
use loop_bounds::edge_range_in;
use std::alloc::AllocError;
use text_rows::put;

// An edge, and the number that it leads to.
fn edge_of(drawn: Drawn<'_, '_>, number: usize) -> (Edge, usize)
    requires drawn { CanDraw drawn }
    requires known { number < length drawn.graph.now.edges }
    ensures edge { result.0 ≡ step_at drawn.entry.graph.now.edges number }
    ensures to { result.1 ≡ (edge_at drawn.entry.tree.now.edges number).to }
{
    (drawn.graph.edges()[number], drawn.tree.edges()[number].to)
}

// Adds an edge that leaves the stretch that begins with a number.
fn put_edge(
    out: &mut Vec<u8>,
    drawn: Drawn<'_, '_>,
    first: usize,
    number: usize,
) -> Result<(), AllocError>
    requires drawn { CanDraw drawn }
    requires known { number < length drawn.graph.now.edges }
    ensures { OnOk result (out.new.items ≡ out.old.items ++ edge (scene_of drawn.entry) first number) }
{
    let (edge, to) = edge_of(drawn, number);
    put_name(out, first)?;
    put(out, b" -> ")?;
    put_name(out, to)?;
    put_edge_end(out, edge.label, count_of(drawn, number), edge.cost)
}

// Adds it if it is drawn.
fn put_drawn_edge(
    out: &mut Vec<u8>,
    drawn: Drawn<'_, '_>,
    first: usize,
    number: usize,
) -> Result<(), AllocError>
    requires drawn { CanDraw drawn }
    requires known { number < length drawn.graph.now.edges }
    ensures { OnOk result
        (out.new.items ≡ out.old.items ++ drawn_edge (scene_of drawn.entry) first number) }
{
    if is_drawn(drawn.extent, count_of(drawn, number)) {
        return put_edge(out, drawn, first, number);
    }
    Ok(())
}

/// Adds the edges that leave a stretch, by its first and its last number.
pub(crate) fn put_edges(
    out: &mut Vec<u8>,
    drawn: Drawn<'_, '_>,
    first: usize,
    last: usize,
) -> Result<(), AllocError>
    requires drawn { CanDraw drawn }
    requires known { last < length drawn.graph.now.places }
    ensures { OnOk result
        (out.new.items ≡ out.old.items
        ++ flat_map (drawn_edge (scene_of drawn.entry) first)
        (leaving drawn.entry.graph.now drawn.entry.tree.now last)) }
{
    let (begin, end) = edge_range_in(drawn.graph, drawn.tree, last);
    for number in begin..end {
        put_drawn_edge(out, drawn, first, number)?;
    }
    Ok(())
}
