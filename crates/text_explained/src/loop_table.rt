//! The stated loops in which a word lies, found without going through all of them.

ghost use Rattle.std.specs.Prelude.{◌≡◌, ◌+◌, ◌==◌, ◌&&◌, ◌||◌, ℕ, IfOk, OnOk, nat_le, nat_lt};
ghost use Rattle.std.specs.BTreeSet.{contains};
ghost use Rattle.std.specs.List.{list_any};
ghost use Rattle.std.specs.Ordering.{nat_cmp};
ghost use Rattle.loop_bounds.specs.Instance.{is_back_edge_of};
ghost use Rattle.statement.specs.Stated.{lies_at, lies_within};
ghost use Rattle.text_explained.specs.LoopTable.{IsLoopTable, is_cut, spans};
ghost use Rattle.text_explained.specs.PartSums.{in_group, passes_at};
ghost use Rattle.text_explained.specs.Sums.{is_in_loop};

use crate::part_groups::{PartGroups, insert_if};
use crate::part_sums::Parts;
use control_flow::{Edge, Place};
use loop_bounds::is_back_edge_of;
use statement::{ApartWords, Loop};
use std::alloc::{AllocError, Global};
use std::collections::BTreeSet;

// Where words lie for loops: from the first, up to before the end.
#[derive(Clone, Copy)]
struct Span {
    first: u64,
    end: u64,
}

/// The stated loops, by their numbers. From one cut up to the next all words lie in the same loops.
#[derive(Drop)]
pub(crate) struct LoopTable<'a> {
    apart: &'a ApartWords,
    loops: &'a [Loop],
    cuts: BTreeSet<u64>,
    // under each cut the loops in which the words from there on lie
    from_cuts: PartGroups,
    ghost is_table: { IsLoopTable apart.now loops.now cuts from_cuts.by_key },
}

// Where the words of a loop lie.
fn span_of(apart: &ApartWords, stated: &Loop) -> Span
    ensures first { result.first ≡ lies_at apart.now stated.now.first }
    ensures end { result.end ≡ lies_at apart.now stated.now.last + 1 }
{
    Span {
        first: apart.lies_at(stated.first),
        end: apart.lies_at(stated.last) + 1,
    }
}

// Adds where the words of a loop begin, and where they end.
fn note_cuts(cuts: &mut BTreeSet<u64>, span: Span) -> Result<(), AllocError>
    ensures { OnOk result
        ((at : ℕ) → contains nat_cmp cuts.new at
        ≡ (contains nat_cmp cuts.old at || (at == span.first || at == span.end))) }
{
    cuts.insert(span.first)?;
    cuts.insert(span.end)?;
    Ok(())
}

// The cuts of all loops.
fn cuts_of(alloc: Global, apart: &ApartWords, loops: &[Loop]) -> Result<BTreeSet<u64>, AllocError>
    ensures { IfOk result
        (λ cuts. (at : ℕ) → contains nat_cmp cuts at ≡ list_any (is_cut apart.now at) loops.now) }
{
    let mut cuts = BTreeSet::new(alloc);
    for stated in loops {
        note_cuts(&mut cuts, span_of(apart, stated))?;
    }
    Ok(cuts)
}

// Puts a loop under the cuts among its words.
fn note_loop(
    alloc: Global,
    groups: &mut PartGroups,
    cuts: &BTreeSet<u64>,
    span: Span,
    number: usize,
) -> Result<(), AllocError>
    ensures { OnOk result
        ((at n : ℕ) → in_group groups.new.by_key at n
        ≡ (in_group groups.old.by_key at n
        || ((contains nat_cmp cuts.now at && (nat_le span.first at && nat_lt at span.end)) && n == number))) }
{
    if span.end <= span.first {
        return Ok(());
    }
    for cut in cuts.range(span.first..span.end) {
        groups.note(alloc, *cut, number)?;
    }
    Ok(())
}

// The loops that stand under each cut.
fn grouped(
    alloc: Global,
    apart: &ApartWords,
    loops: &[Loop],
    cuts: &BTreeSet<u64>,
) -> Result<PartGroups, AllocError>
    ensures { IfOk result
        (λ groups. (at n : ℕ) → in_group groups.by_key at n
        ≡ (contains nat_cmp cuts.now at && passes_at loops.now (spans apart.now at) n)) }
{
    let mut groups = PartGroups::new(alloc);
    for number in 0..loops.len() {
        let span = span_of(apart, &loops[number]);
        note_loop(alloc, &mut groups, cuts, span, number)?;
    }
    Ok(groups)
}

impl<'a> LoopTable<'a> {
    /// The table of these loops. `AllocError`: an allocation failed.
    pub(crate) fn new(
        alloc: Global,
        apart: &'a ApartWords,
        loops: &'a [Loop],
    ) -> Result<LoopTable<'a>, AllocError>
        ensures { IfOk result
            (λ table. (table.apart.now ≡ apart.now) × (table.loops.now ≡ loops.now)) }
    {
        let cuts = cuts_of(alloc, apart, loops)?;
        let from_cuts = grouped(alloc, apart, loops, &cuts)?;
        Ok(LoopTable {
            apart,
            loops,
            cuts,
            from_cuts,
        })
    }

    /// The stated loops, in the order of their numbers.
    pub(crate) fn loops(&self) -> &'a [Loop]
        ensures { result.now ≡ self.now.loops.now }
    {
        self.loops
    }

    // Adds the loops in which the word at an address lies.
    fn add_to(&self, parts: &mut BTreeSet<usize>, address: u32) -> Result<(), AllocError>
        ensures { OnOk result
            ((n : ℕ) → contains nat_cmp parts.new n
            ≡ (contains nat_cmp parts.old n
            || passes_at self.now.loops.now (λ l. lies_within self.now.apart.now l.first address l.last) n)) }
    {
        let word = self.apart.lies_at(address);
        match self.cuts.range(..=word).next_back() {
            Some(cut) => self.from_cuts.add_to(parts, *cut),
            None => Ok(()),
        }
    }

    // Adds those in which one of the calls lies.
    fn add_calls(&self, parts: &mut BTreeSet<usize>, calls: &[u32]) -> Result<(), AllocError>
        ensures { OnOk result
            ((n : ℕ) → contains nat_cmp parts.new n
            ≡ (contains nat_cmp parts.old n
            || list_any (λ call. passes_at self.now.loops.now
            (λ l. lies_within self.now.apart.now l.first call l.last) n) calls.now)) }
    {
        for call in calls {
            self.add_to(parts, *call)?;
        }
        Ok(())
    }

    // Whether the edge is a back edge of the loop.
    fn is_back_edge(&self, number: usize, edge: &Edge) -> bool
        ensures { result
            ≡ passes_at self.now.loops.now (λ l. is_back_edge_of self.now.apart.now l edge.now) number }
    {
        match self.loops.get(number) {
            Some(stated) => is_back_edge_of(self.apart, stated, edge),
            None => false,
        }
    }
}

impl Parts for LoopTable<'_> {
    ghost begins = { λ t n e. passes_at t.loops.now (λ l. is_back_edge_of t.apart.now l e) n };

    ghost inside = { λ t n e. passes_at t.loops.now (λ l. is_in_loop t.apart.now l e.from) n };

    fn begun_by(&self, alloc: Global, edge: &Edge) -> Result<BTreeSet<usize>, AllocError> {
        let around = self.around(alloc, edge)?;
        let mut begun = BTreeSet::new(alloc);
        for number in &around {
            let is_begun = self.is_back_edge(*number, edge);
            insert_if(&mut begun, *number, is_begun)?;
        }
        Ok(begun)
    }

    fn around(&self, alloc: Global, edge: &Edge) -> Result<BTreeSet<usize>, AllocError> {
        let mut parts = BTreeSet::new(alloc);
        let Place::At(calls, address) = &edge.from else {
            return Ok(parts);
        };
        self.add_calls(&mut parts, calls.items())?;
        self.add_to(&mut parts, *address)?;
        Ok(parts)
    }
}
