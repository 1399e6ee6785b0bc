ghost use Rattle.std.specs.Prelude.{◌≡◌, ◌+◌, ◌<◌, ◌≤◌, ◌⊎◌, Contains, IfNone, IfOk, IfSome, List};
ghost use Rattle.std.specs.Prelude.{[], MatchBool, OnOk, length, replicate, slice_set, true};
ghost use Rattle.control_flow.specs.declared.places.Place.TheVariants.{Exit};
ghost use Rattle.control_flow.specs.Flow.{Flow, HasEdge, IsWellFormed};
ghost use Rattle.control_flow.specs.Places.{place_at};
ghost use Rattle.statement.specs.Stated.{StatedLoops};
ghost use Rattle.loop_bounds.specs.Nest.{IsPlainEdge};
ghost use Rattle.text_refusals.specs.Cycles.{EndsCleared, IsCleared, IsClosed, IsCycleOf, IsEnded};
ghost use Rattle.text_refusals.specs.Cycles.{IsIdle, IsOnceRound, IsOpen};
ghost use Rattle.text_refusals.specs.Cycles.{IsSearching, LeadToCleared, steps_left};

use crate::members::turns_back;
use control_flow::{Edge, Graph, Place};
use statement::StatedLoops;
use std::alloc::{AllocError, Global};

/// A depth-first search for a cycle, along the edges that are no back edges.
#[derive(Drop)]
pub(crate) struct CycleSearch {
    // of each place, and then of Exit: 0 where no cycle goes through it, 1 on the path, 2 elsewhere
    marks: Vec<u8>,
    // where the path begins, and its edges
    start: Place,
    path: Vec<Edge>,
    // the index of the place where it ends
    at: usize,
}

// The index of a place among the graph's; that of Exit comes after them.
fn index_of(graph: &Graph, place: &Place) -> usize
    requires { (place.now ≡ Exit) ⊎ Contains graph.now.places place.now }
    ensures number { place_at graph.now.places result ≡ place.now }
    ensures most { result ≤ length graph.now.places }
    ensures inside { Contains graph.now.places place.now → result < length graph.now.places }
{
    let places = graph.places();
    places.binary_search(place).unwrap_or(places.len())
}

// The index of the place where the edge ends, if that is not cleared and the edge is no back edge.
fn open_end(graph: &Graph, loops: &StatedLoops, marks: &[u8], edge: &Edge) -> Option<usize>
    requires well_formed { IsWellFormed graph.now }
    requires has { HasEdge graph.now edge.now }
    requires whole { length marks.now ≡ length graph.now.places + 1 }
    ensures open { IfSome result (IsOpen graph.now loops.now marks.now edge.now) }
    ensures cleared { IfNone result
        (IsPlainEdge graph.now loops.now edge.now → EndsCleared graph.now loops.now marks.now edge.now) }
{
    if turns_back(loops, edge) {
        return None;
    }
    let to = index_of(graph, &edge.to);
    if marks[to] == 0 {
        return None;
    }
    Some(to)
}

// The first such edge of the place of an index, and the index of the place where it ends.
fn next_of(graph: &Graph, loops: &StatedLoops, marks: &[u8], at: usize) -> Option<(Edge, usize)>
    requires inside { at < length graph.now.places }
    requires whole { length marks.now ≡ length graph.now.places + 1 }
    ensures open { IfSome result (λ next. IsOpen graph.now loops.now marks.now next.0 next.1) }
    ensures from { IfSome result (λ next. next.0.from ≡ place_at graph.now.places at) }
    ensures none { IfNone result
        (LeadToCleared graph.now loops.now marks.now (place_at graph.now.places at)) }
    ensures well_formed { IsWellFormed graph.now }
{
    let (first, end) = graph.edge_range(at);
    for number in first..end {
        let edge = &graph.edges()[number];
        if let Some(to) = open_end(graph, loops, marks, edge) {
            return Some((*edge, to));
        }
    }
    None
}

// The end of a path that is closed: from where an edge of it begins at the place where it ends.
fn cycle_of(alloc: Global, path: &[Edge], end: &Place) -> Result<Vec<Edge>, AllocError>
    ensures cycle { IfOk result
        (λ cycle. (flow : Flow) (loops : StatedLoops) → IsClosed flow loops path.now end.now
        → IsCycleOf flow loops cycle.items) }
    ensures once { IfOk result (λ cycle. IsOnceRound path.now → IsOnceRound cycle.items) }
{
    for (k, edge) in path.iter().enumerate() {
        if edge.from == *end {
            return Vec::from_slice(alloc, &path[k..]);
        }
    }
    Ok(Vec::new(alloc))
}

impl CycleSearch {
    /// No place is met.
    pub(crate) fn new(alloc: Global, graph: &Graph) -> Result<CycleSearch, AllocError>
        ensures marks { IfOk result
            (λ search. search.marks.items
            ≡ slice_set (replicate (length graph.now.places + 1) 2) (length graph.now.places) 0) }
        ensures path { IfOk result (λ search. search.path.items ≡ []) }
    {
        let count = graph.places().len();
        let mut marks = vec![in alloc; 2; count + 1]?;
        marks[count] = 0;
        Ok(CycleSearch {
            marks,
            start: Place::Exit,
            path: Vec::new(alloc),
            at: 0,
        })
    }

    // Follows one edge more, to a place that is not cleared, or else clears the place at hand and goes back.
    // Whether the search goes on.
    fn step(&mut self, graph: &Graph, loops: &StatedLoops) -> Result<bool, AllocError>
        requires { IsSearching graph.now loops.now self.old }
        ensures state { IfOk result
            (λ goes_on. MatchBool goes_on (IsSearching graph.now loops.now self.new)
            (IsEnded graph.now loops.now self.new)) }
        ensures start { OnOk result (self.new.start ≡ self.old.start) }
        ensures left { OnOk result (steps_left self.new < steps_left self.old + 2) }
        ensures nearer { IfOk result
            (λ goes_on. goes_on ≡ true → steps_left self.new < steps_left self.old) }
    {
        if let Some((edge, to)) = next_of(graph, loops, &self.marks, self.at) {
            self.path.push(edge)?;
            self.at = to;
            if self.marks[to] == 1 {
                return Ok(false);
            }
            self.marks[to] = 1;
            return Ok(true);
        }
        self.marks[self.at] = 0;
        let Some(edge) = self.path.pop() else {
            return Ok(false);
        };
        self.at = index_of(graph, &edge.from);
        Ok(true)
    }

    /// Searches from a place on. A cycle, or None where the place is cleared.
    pub(crate) fn visit(
        &mut self,
        alloc: Global,
        graph: &Graph,
        loops: &StatedLoops,
        root: &Place,
    ) -> Result<Option<Vec<Edge>>, AllocError>
        requires idle { IsIdle graph.now loops.now self.old }
        requires has { Contains graph.now.places root.now }
        ensures cycle { IfOk result
            (λ found. IfSome found (λ cycle. IsCycleOf graph.now loops.now cycle.items)) }
        ensures once { IfOk result (λ found. IfSome found (λ cycle. IsOnceRound cycle.items)) }
        ensures idle { IfOk result (λ found. IfNone found (IsIdle graph.now loops.now self.new)) }
        ensures cleared { IfOk result (λ found. IfNone found (IsCleared graph.now loops.now root.now)) }
    {
        let at = index_of(graph, root);
        if self.marks[at] == 0 {
            return Ok(None);
        }
        self.at = at;
        self.start = *root;
        self.marks[at] = 1;
        let mut goes_on = true;
        while goes_on {
            goes_on = self.step(graph, loops)?;
        }
        if self.path.is_empty() {
            return Ok(None);
        }
        let cycle = cycle_of(alloc, &self.path, &graph.places()[self.at])?;
        Ok(Some(cycle))
    }
}
