//! What a walk takes in all in the routines that are called.

ghost use Rattle.std.specs.Prelude.{◌≡◌, ◌++◌, ◌||◌, ℕ, IfOk, OnOk, length, nat_lt};
ghost use Rattle.std.specs.BTreeSet.{contains};
ghost use Rattle.std.specs.List.{list_any};
ghost use Rattle.std.specs.Ordering.{nat_cmp};
ghost use Rattle.asm_text.specs.Appended.{Appends};
ghost use Rattle.longest_walk.specs.Folded.{unfolded};
ghost use Rattle.sources.specs.Lines.{AreLines};
ghost use Rattle.sources.specs.declared.read.Source.{Source};
ghost use Rattle.text_rows.specs.Rows.{AreRows};
ghost use Rattle.text_explained.specs.PartSums.{in_group};
ghost use Rattle.text_explained.specs.Sums.{AreRoutineSums, begun_row, calls_from, calls_of, is_call_to};
ghost use Rattle.text_explained.specs.Sums.{is_site, routine_row};

use crate::counted_walk::CountedWalk;
use crate::part_groups::{PartGroups, insert_if};
use crate::part_sums::{PartSum, PartSums, Parts};
use crate::sums::put_sum;
use control_flow::{Edge, Graph, Place};
use std::alloc::{AllocError, Global};
use std::collections::{BTreeMap, BTreeSet};
use text_rows::{SourceLine, section};

// The calls inside of which a place is.
fn calls_of(place: &Place) -> &[u32]
    ensures { result.now ≡ calls_of place.now }
{
    match place {
        Place::At(calls, _) => calls.items(),
        Place::Exit => &[],
    }
}

// Whether an edge leads deeper than the place from which it comes.
fn is_deeper(edge: &Edge) -> bool
    ensures { result ≡ nat_lt (length (calls_of edge.now.from)) (length (calls_of edge.now.to)) }
{
    calls_of(&edge.from).len() < calls_of(&edge.to).len()
}

// The routines, whose numbers are their addresses.
#[derive(Drop)]
struct Routines {
    // under the address of each word those that it may call
    called_by: PartGroups,
}

impl Parts for Routines {
    ghost begins = { λ _ n. is_call_to n };

    ghost inside = { λ r n e. list_any (λ call. in_group r.called_by.by_key call n) (calls_of e.from) };

    fn begun_by(&self, alloc: Global, edge: &Edge) -> Result<BTreeSet<usize>, AllocError> {
        let mut begun = BTreeSet::new(alloc);
        let Place::At(_, address) = edge.to else {
            return Ok(begun);
        };
        insert_if(&mut begun, address as usize, is_deeper(edge))?;
        Ok(begun)
    }

    fn around(&self, alloc: Global, edge: &Edge) -> Result<BTreeSet<usize>, AllocError> {
        let mut parts = BTreeSet::new(alloc);
        self.add_called(&mut parts, calls_of(&edge.from))?;
        Ok(parts)
    }
}

impl Routines {
    // Adds those that one of the words may call.
    fn add_called(&self, parts: &mut BTreeSet<usize>, calls: &[u32]) -> Result<(), AllocError>
        ensures { OnOk result
            ((n : ℕ) → contains nat_cmp parts.new n
            ≡ (contains nat_cmp parts.old n
            || list_any (λ call. in_group self.now.called_by.by_key call n) calls.now)) }
    {
        for call in calls {
            self.called_by.add_to(parts, u64::from(*call))?;
        }
        Ok(())
    }

    // Adds the routine that the edge calls, if it does.
    fn note(&mut self, alloc: Global, edge: &Edge) -> Result<(), AllocError>
        ensures { OnOk result
            ((site n : ℕ) → in_group self.new.called_by.by_key site n
            ≡ (in_group self.old.called_by.by_key site n || calls_from n site edge.now)) }
    {
        if !is_deeper(edge) {
            return Ok(());
        }
        let Place::At(_, site) = edge.from else {
            return Ok(());
        };
        let Place::At(_, called) = edge.to else {
            return Ok(());
        };
        self.called_by.note(alloc, u64::from(site), called as usize)
    }

    // Those of a graph.
    fn of_graph(alloc: Global, graph: &Graph) -> Result<Routines, AllocError>
        ensures { IfOk result
            (λ routines. (site n : ℕ) → in_group routines.called_by.by_key site n
            ≡ is_site graph.now.edges n site) }
    {
        let mut routines = Routines {
            called_by: PartGroups::new(alloc),
        };
        for edge in graph.edges() {
            routines.note(alloc, edge)?;
        }
        Ok(routines)
    }
}

// Adds the row of a part, if the walk begins it.
fn put_begun(
    out: &mut Vec<u8>,
    lines: &BTreeMap<u32, SourceLine<'_>>,
    bound: u64,
    at: u32,
    sum: PartSum,
) -> Result<(), AllocError>
    ensures { OnOk result (out.new.items ≡ out.old.items ++ begun_row lines.now bound at sum) }
{
    if sum.times == 0 {
        return Ok(());
    }
    put_sum(out, lines, bound, at, sum)
}

// Adds the rows of words: of those that the walk calls as routines.
fn put_routines(
    out: &mut Vec<u8>,
    lines: &BTreeMap<u32, SourceLine<'_>>,
    walk: CountedWalk<'_, '_>,
    routines: &Routines,
    words: &[(u32, u32)],
) -> Result<(), AllocError>
    requires { (site n : ℕ) → in_group routines.now.called_by.by_key site n
        ≡ is_site walk.handler.now.graph.edges n site }
    ensures { OnOk result
        (Appends (AreRows (λ e row. row ≡ routine_row lines.now walk.entry.handler.now.graph
        (unfolded walk.entry.longest.now.walk) walk.entry.longest.now.bound e.0) words.now)
        out.old.items out.new.items) }
{
    let sums = PartSums::of_walk(*out.allocator(), walk, routines)?;
    for (at, _) in words {
        let sum = sums.of_part(*at as usize);
        put_begun(out, lines, walk.longest.bound, *at, sum)?;
    }
    Ok(())
}

/// What a greatest walk takes of each routine, by its address: the calls of it that the walk makes, the ticks
/// inside of them, also at the words of what it calls in turn, and what part of the bound these are, with the
/// label of its address, or the number. Where a word may call several routines, what it calls counts for each
/// that the walk calls. The lines are those of a source by the addresses of their words. No text where the
/// walk calls none.
///
/// # Errors
///
/// An allocation failed.
pub fn routine_sums(
    alloc: Global,
    lines: &BTreeMap<u32, SourceLine<'_>>,
    walk: CountedWalk<'_, '_>,
) -> Result<Vec<u8>, AllocError>
    ensures { (source : Source) → AreLines source lines.now → IfOk result
        (λ text. AreRoutineSums source walk.entry.handler.now.image.now walk.entry.handler.now.graph
        (unfolded walk.entry.longest.now.walk) walk.entry.longest.now.bound text.items) }
{
    let routines = Routines::of_graph(alloc, &walk.handler.graph)?;
    let words = walk.handler.image.listed(alloc)?;
    let mut rows = Vec::new(alloc);
    put_routines(&mut rows, lines, walk, &routines, &words)?;
    section(
        alloc,
        b"\nRoutines, with what they call:\n   calls     ticks   share  routine\n",
        &rows,
    )
}
