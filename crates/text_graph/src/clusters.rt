ghost use Rattle.std.specs.Prelude.{◌≡◌, ◌≤◌, ◌<◌, ◌^◌, ◌++◌, OnOk, length, replicate};
ghost use Rattle.numbered_walks.specs.Index.{edge_at};
ghost use Rattle.text_graph.specs.Clusters.{call_label, call_label_by, call_label_if, call_names, call_text};
ghost use Rattle.text_graph.specs.Clusters.{call_texts, called_name, closed, clusters, depth_in, loop_label};
ghost use Rattle.text_graph.specs.Clusters.{loop_label_by, loop_taken, loop_text, name_at, opened};
ghost use Rattle.text_graph.specs.Clusters.{routine_name, routine_names};
ghost use Rattle.text_graph.specs.Labels.{label_or_address};
ghost use Rattle.text_graph.specs.Parts.{scene_of};
ghost use Rattle.text_graph.specs.Stretches.{AreInside, CanDraw, caller_of};

use crate::loops::{loop_ticks, turns};
use crate::pieces::{put_address, put_escaped, put_shared};
use crate::stretches::{calls_in, loops_of};
use crate::tables::{Drawn, caller_at, is_call};
use loop_bounds::{edge_range_in, place_in};
use numbered_walks::{NumberedEdge, Span};
use std::alloc::AllocError;
use text_rows::{put, put_decimal};

// Adds a label, or the address where there is none.
fn put_label_or_address(out: &mut Vec<u8>, label: &[u8], address: u32) -> Result<(), AllocError>
    ensures { OnOk result (out.new.items ≡ out.old.items ++ label_or_address label.now address) }
{
    if let [] = label {
        return put_address(out, address);
    }
    put_escaped(out, label)
}

// Adds the label of the word at an address, else the address.
fn put_name_at(out: &mut Vec<u8>, drawn: Drawn<'_, '_>, address: u32) -> Result<(), AllocError>
    ensures { OnOk result (out.new.items ≡ out.old.items ++ name_at (scene_of drawn.entry) address) }
{
    match drawn.lines.get(&address) {
        Some(line) => put_label_or_address(out, line.label, address),
        None => put_address(out, address),
    }
}

// Adds what the name of a routine's cluster has of its calls.
fn put_call_names(out: &mut Vec<u8>, calls: &[u32]) -> Result<(), AllocError>
    ensures { OnOk result (out.new.items ≡ out.old.items ++ call_names calls.now) }
{
    for address in calls {
        put(out, b"_")?;
        put_address(out, *address)?;
    }
    Ok(())
}

fn edge_at(drawn: Drawn<'_, '_>, number: usize) -> NumberedEdge
    requires drawn { CanDraw drawn }
    requires known { number < length drawn.graph.now.edges }
    ensures { result ≡ edge_at drawn.entry.tree.now.edges number }
{
    drawn.tree.edges()[number]
}

// Adds the name of the routine that begins with a number.
fn put_routine_name(
    out: &mut Vec<u8>,
    drawn: Drawn<'_, '_>,
    number: usize,
) -> Result<(), AllocError>
    ensures { OnOk result (out.new.items ≡ out.old.items ++ routine_name (scene_of drawn.entry) number) }
{
    put_name_at(
        out,
        drawn,
        place_in(drawn.graph, drawn.tree, number).address(),
    )?;
    put(out, b", ")
}

// Adds the name of the routine into which an edge leads, if it leads into one.
fn put_called_name(out: &mut Vec<u8>, drawn: Drawn<'_, '_>, number: usize) -> Result<(), AllocError>
    requires drawn { CanDraw drawn }
    requires known { number < length drawn.graph.now.edges }
    ensures { OnOk result (out.new.items ≡ out.old.items ++ called_name (scene_of drawn.entry) number) }
{
    let edge = edge_at(drawn, number);
    if is_call(drawn.graph, drawn.tree, edge) {
        return put_routine_name(out, drawn, edge.to);
    }
    Ok(())
}

// Adds the names of the routines that a place calls.
fn put_routine_names(
    out: &mut Vec<u8>,
    drawn: Drawn<'_, '_>,
    caller: usize,
) -> Result<(), AllocError>
    requires drawn { CanDraw drawn }
    requires known { caller < length drawn.graph.now.places }
    ensures { OnOk result
        (out.new.items ≡ out.old.items ++ routine_names (scene_of drawn.entry) caller) }
{
    let (first, end) = edge_range_in(drawn.graph, drawn.tree, caller);
    for number in first..end {
        put_called_name(out, drawn, number)?;
    }
    Ok(())
}

// Adds what stands at the frame of a call.
fn put_call_label(
    out: &mut Vec<u8>,
    drawn: Drawn<'_, '_>,
    caller: usize,
    at: u32,
) -> Result<(), AllocError>
    requires drawn { CanDraw drawn }
    requires known { caller < length drawn.graph.now.places }
    ensures { OnOk result
        (out.new.items ≡ out.old.items ++ call_label (scene_of drawn.entry) caller at) }
{
    put(out, b"label=\"routine ")?;
    put_routine_names(out, drawn, caller)?;
    put(out, b"called at ")?;
    put_address(out, at)?;
    put(out, b"\"; ")
}

// Adds it where a routine begins with the number.
fn put_call_label_if(
    out: &mut Vec<u8>,
    drawn: Drawn<'_, '_>,
    first: usize,
    at: u32,
) -> Result<(), AllocError>
    requires drawn { CanDraw drawn }
    ensures { OnOk result
        (out.new.items ≡ out.old.items ++ call_label_if (scene_of drawn.entry)
        (caller_of drawn.entry.graph.now drawn.entry.tree.now first) at) }
{
    match caller_at(drawn.callers, first) {
        Some(caller) => put_call_label(out, drawn, caller, at),
        None => Ok(()),
    }
}

// A node, by its first number and the calls around it.
#[derive(Clone, Copy)]
struct Node<'a> {
    first: usize,
    calls: &'a [u32],
}

// Adds it at the innermost frame.
fn put_call_label_by(
    out: &mut Vec<u8>,
    drawn: Drawn<'_, '_>,
    node: Node<'_>,
    depth: usize,
) -> Result<(), AllocError>
    requires drawn { CanDraw drawn }
    requires inside { depth < length node.calls.now }
    ensures { OnOk result
        (out.new.items ≡ out.old.items
        ++ call_label_by (scene_of drawn.entry) node.entry.first node.entry.calls.now depth) }
{
    if depth + 1 == node.calls.len() {
        return put_call_label_if(out, drawn, node.first, node.calls[depth]);
    }
    Ok(())
}

// Opens the cluster of a call around a node.
fn put_call(
    out: &mut Vec<u8>,
    drawn: Drawn<'_, '_>,
    node: Node<'_>,
    depth: usize,
) -> Result<(), AllocError>
    requires drawn { CanDraw drawn }
    requires inside { depth < length node.calls.now }
    ensures { OnOk result
        (out.new.items ≡ out.old.items
        ++ call_text (scene_of drawn.entry) node.entry.first node.entry.calls.now depth) }
{
    put(out, b"subgraph cluster_call")?;
    put_call_names(out, &node.calls[..depth + 1])?;
    put(out, b" { ")?;
    put_call_label_by(out, drawn, node, depth)
}

// Opens the clusters of the calls around a node, from one on, before another.
fn put_calls(
    out: &mut Vec<u8>,
    drawn: Drawn<'_, '_>,
    node: Node<'_>,
    from: usize,
    to: usize,
) -> Result<(), AllocError>
    requires drawn { CanDraw drawn }
    requires inside { to ≤ length node.calls.now }
    ensures { OnOk result
        (out.new.items ≡ out.old.items
        ++ call_texts (scene_of drawn.entry) node.entry.first node.entry.calls.now from to) }
{
    for depth in from..to {
        put_call(out, drawn, node, depth)?;
    }
    Ok(())
}

// How many of these calls a loop is inside of.
fn depth_in(drawn: Drawn<'_, '_>, calls: &[u32], span: &Span) -> usize
    ensures { result ≡ depth_in (scene_of drawn.entry) calls.now span.now }
{
    calls_in(drawn, span.header).items().len().min(calls.len())
}

// Adds what the walk takes in a loop, if it comes there.
fn put_loop_taken(out: &mut Vec<u8>, turns: u64, ticks: u64, bound: u64) -> Result<(), AllocError>
    ensures { OnOk result (out.new.items ≡ out.old.items ++ loop_taken turns ticks bound) }
{
    if ticks == 0 {
        return Ok(());
    }
    put(out, b", turns ")?;
    put_decimal(out, turns)?;
    put(out, b", ")?;
    put_shared(out, ticks, bound)
}

// Adds what stands at the frame of a loop.
fn put_loop_label(out: &mut Vec<u8>, drawn: Drawn<'_, '_>, span: &Span) -> Result<(), AllocError>
    requires drawn { CanDraw drawn }
    requires inside { span.now.last < length drawn.graph.now.places }
    ensures { OnOk result (out.new.items ≡ out.old.items ++ loop_label (scene_of drawn.entry) span.now) }
{
    put(out, b"label=\"loop ")?;
    put_name_at(
        out,
        drawn,
        place_in(drawn.graph, drawn.tree, span.header).address(),
    )?;
    put_loop_taken(
        out,
        turns(drawn, span),
        loop_ticks(drawn, span),
        drawn.bound,
    )?;
    put(out, b"\"; ")
}

// Adds it where the node begins with the header.
fn put_loop_label_by(
    out: &mut Vec<u8>,
    drawn: Drawn<'_, '_>,
    first: usize,
    span: &Span,
) -> Result<(), AllocError>
    requires drawn { CanDraw drawn }
    requires inside { span.now.last < length drawn.graph.now.places }
    ensures { OnOk result
        (out.new.items ≡ out.old.items ++ loop_label_by (scene_of drawn.entry) first span.now) }
{
    if first == span.header {
        return put_loop_label(out, drawn, span);
    }
    Ok(())
}

// Opens the cluster of a loop around the node that begins with a number.
fn put_loop(
    out: &mut Vec<u8>,
    drawn: Drawn<'_, '_>,
    first: usize,
    span: &Span,
) -> Result<(), AllocError>
    requires drawn { CanDraw drawn }
    requires inside { span.now.last < length drawn.graph.now.places }
    ensures { OnOk result
        (out.new.items ≡ out.old.items ++ loop_text (scene_of drawn.entry) first span.now) }
{
    put(out, b"subgraph cluster_loop_")?;
    put_decimal(out, span.header as u64)?;
    put(out, b" { ")?;
    put_loop_label_by(out, drawn, first, span)
}

// Opens the clusters of calls and of loops around a node, the outermost first.
fn put_clusters(
    out: &mut Vec<u8>,
    drawn: Drawn<'_, '_>,
    node: Node<'_>,
    loops: &[Span],
) -> Result<(), AllocError>
    requires drawn { CanDraw drawn }
    requires inside { AreInside drawn.graph.now loops.now }
    ensures { OnOk result
        (out.new.items ≡ out.old.items
        ++ clusters (scene_of drawn.entry) node.entry.first node.entry.calls.now 0 loops.now) }
{
    let mut inside = 0;
    for span in loops {
        let depth = depth_in(drawn, node.calls, span);
        put_calls(out, drawn, node, inside, depth)?;
        put_loop(out, drawn, node.first, span)?;
        inside = inside.max(depth);
    }
    put_calls(out, drawn, node, inside, node.calls.len())
}

/// Opens the clusters around the node of a number.
pub(crate) fn put_opened(
    out: &mut Vec<u8>,
    drawn: Drawn<'_, '_>,
    number: usize,
) -> Result<(), AllocError>
    requires drawn { CanDraw drawn }
    requires known { number ≤ length drawn.graph.now.places }
    ensures { OnOk result (out.new.items ≡ out.old.items ++ opened (scene_of drawn.entry) number) }
{
    let mut loops = Vec::from_slice(*out.allocator(), loops_of(drawn, number))?;
    loops.reverse();
    let calls = calls_in(drawn, number);
    let node = Node {
        first: number,
        calls: calls.items(),
    };
    put_clusters(out, drawn, node, &loops)
}

// Closes so many clusters.
fn put_ends(out: &mut Vec<u8>, count: usize) -> Result<(), AllocError>
    requires { count < 2 ^ 63 }
    ensures { OnOk result (out.new.items ≡ out.old.items ++ replicate count 125) }
{
    let len = out.len() + count;
    out.resize(len, b'}')
}

/// Closes the clusters around the node of a number.
pub(crate) fn put_closed(
    out: &mut Vec<u8>,
    drawn: Drawn<'_, '_>,
    number: usize,
) -> Result<(), AllocError>
    requires drawn { CanDraw drawn }
    requires known { number ≤ length drawn.graph.now.places }
    ensures { OnOk result (out.new.items ≡ out.old.items ++ closed (scene_of drawn.entry) number) }
{
    put_ends(out, calls_in(drawn, number).items().len())?;
    put_ends(out, loops_of(drawn, number).len())
}
