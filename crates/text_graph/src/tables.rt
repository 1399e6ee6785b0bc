ghost use Rattle.std.specs.Prelude.{◌≡◌, ◌≤◌, ◌+◌, ◌∷◌, [], ℕ, IfOk, OnOk, length, nat_eq, slice_index};
ghost use Rattle.std.specs.BTreeMap.{get};
ghost use Rattle.std.specs.Map.{update_all};
ghost use Rattle.std.specs.Ordering.{nat_cmp};
ghost use Rattle.loop_bounds.specs.Tree.{IsTree};
ghost use Rattle.text_graph.specs.Stretches.{AreCallers, arrivals, calls_by, calls_in, is_call};

use crate::extent::Extent;
use control_flow::{Calls, Graph, Place};
use loop_bounds::{LoopTree, place_in};
use numbered_walks::{Index, NumberedEdge};
use std::alloc::{AllocError, Global};
use std::collections::BTreeMap;
use text_rows::SourceLine;

/// What is drawn: a graph, the tree of its loops, how often a walk takes each edge, a label for each place,
/// and the lines of the source. Loops, arrivals and callers are found by number.
#[derive(Clone, Copy)]
pub(crate) struct Drawn<'a, 's> {
    pub(crate) graph: &'a Graph,
    pub(crate) tree: &'a LoopTree,
    pub(crate) counts: &'a [u64],
    pub(crate) labels: &'a [Vec<u8>],
    pub(crate) lines: &'a BTreeMap<u32, SourceLine<'s>>,
    pub(crate) index: &'a Index,
    pub(crate) arrivals: &'a [usize],
    /// By the numbers with which routines begin, those of the places that call them.
    pub(crate) callers: &'a BTreeMap<usize, usize>,
    /// The greatest run time, in ticks.
    pub(crate) bound: u64,
    pub(crate) extent: Extent,
}

/// How many edges lead to each number.
pub(crate) fn arrivals(
    alloc: Global,
    graph: &Graph,
    tree: &LoopTree,
) -> Result<Vec<usize>, AllocError>
    requires { IsTree graph.now tree.now }
    ensures { IfOk result
        (λ counted. (length counted.items ≡ length graph.now.places + 1)
        × ((n : ℕ) → n ≤ length graph.now.places
        → slice_index counted.items n ≡ arrivals graph.now tree.now n)) }
{
    let mut counted = vec![in alloc; 0; graph.places().len() + 1]?;
    for edge in tree.edges() {
        counted[edge.to] += 1;
    }
    Ok(counted)
}

/// The calls inside of which the place of a number is.
pub(crate) fn calls_in(graph: &Graph, tree: &LoopTree, number: usize) -> Calls
    ensures { result ≡ calls_in graph.now tree.now number }
{
    match place_in(graph, tree, number) {
        Place::At(calls, _) => calls,
        Place::Exit => Calls::new(),
    }
}

/// Whether an edge leads into a routine.
pub(crate) fn is_call(graph: &Graph, tree: &LoopTree, edge: NumberedEdge) -> bool
    ensures { result ≡ is_call graph.now tree.now edge }
{
    calls_in(graph, tree, edge.from).items().len() < calls_in(graph, tree, edge.to).items().len()
}

// Notes that the place of one number calls the routine that begins with another.
fn put_caller(
    callers: &mut BTreeMap<usize, usize>,
    from: usize,
    to: usize,
) -> Result<(), AllocError>
    ensures { OnOk result
        ((n : ℕ)
        → get nat_cmp callers.new n ≡ update_all nat_eq (get nat_cmp callers.old) ((to, from) ∷ []) n) }
{
    callers.insert(to, from)?;
    Ok(())
}

// Notes it of an edge that leads into a routine.
fn note_caller(
    callers: &mut BTreeMap<usize, usize>,
    graph: &Graph,
    tree: &LoopTree,
    edge: NumberedEdge,
) -> Result<(), AllocError>
    ensures { OnOk result
        ((n : ℕ)
        → get nat_cmp callers.new n
        ≡ update_all nat_eq (get nat_cmp callers.old) (calls_by graph.now tree.now edge) n) }
{
    if is_call(graph, tree, edge) {
        return put_caller(callers, edge.from, edge.to);
    }
    Ok(())
}

/// By the numbers with which routines begin, those of the places that call them.
pub(crate) fn callers(
    alloc: Global,
    graph: &Graph,
    tree: &LoopTree,
) -> Result<BTreeMap<usize, usize>, AllocError>
    ensures { IfOk result (λ callers. AreCallers graph.now tree.now callers) }
{
    let mut callers = BTreeMap::new(alloc);
    for edge in tree.edges() {
        note_caller(&mut callers, graph, tree, *edge)?;
    }
    Ok(callers)
}

/// From where the routine that begins with a number is called, if one does.
pub(crate) fn caller_at(callers: &BTreeMap<usize, usize>, number: usize) -> Option<usize>
    ensures { result ≡ get nat_cmp callers.now number }
{
    callers.get(&number).copied()
}
