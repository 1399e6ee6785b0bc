//! What a walk takes in all of each part of a handler: one pass over the edges serves all parts.

ghost use Rattle.std.specs.Prelude.{◌≡◌, ℕ, Bool, IfOk, OnOk};
ghost use Rattle.std.specs.BTreeSet.{contains};
ghost use Rattle.std.specs.Ordering.{nat_cmp};
ghost use Rattle.control_flow.specs.declared.edges.Edge.{Edge};
ghost use Rattle.longest_walk.specs.Folded.{unfolded};
ghost use Rattle.text_explained.specs.PartSums.{added_if, sum_in, with_edge, with_part};
ghost use Rattle.text_explained.specs.Sums.{sum_of};

use crate::counted_walk::CountedWalk;
use std::alloc::{AllocError, Global};
use std::collections::{BTreeMap, BTreeSet};
use walk_counts::{capped_product, capped_sum};

/// What a walk takes in all of a part of a handler, each counted up to 2^64 - 1.
#[derive(Clone, Copy)]
pub(crate) struct PartSum {
    /// How often it begins it.
    pub(crate) times: u64,
    /// The ticks that it takes inside.
    pub(crate) ticks: u64,
}

impl PartSum {
    const NOTHING: PartSum = PartSum { times: 0, ticks: 0 };

    // Both in all.
    fn with(self, more: PartSum) -> PartSum
        ensures { result ≡ with_part self more }
    {
        PartSum {
            times: capped_sum(self.times, more.times),
            ticks: capped_sum(self.ticks, more.ticks),
        }
    }
}

/// What a walk takes of parts, by their numbers: of those that are not in it, nothing.
#[derive(Drop)]
pub(crate) struct PartSums {
    by_number: BTreeMap<usize, PartSum>,
}

/// Parts of a handler, by their numbers. They may lie in one another.
pub(crate) trait Parts {
    ghost begins: { Self → ℕ → Edge → Bool };

    ghost inside: { Self → ℕ → Edge → Bool };

    /// The parts that a walk begins by the edge. `AllocError`: an allocation failed.
    fn begun_by(
        &self,
        alloc: Global,
        edge: &control_flow::Edge,
    ) -> Result<BTreeSet<usize>, AllocError>
        ensures { IfOk result
            (λ parts. (n : ℕ) → contains nat_cmp parts n ≡ begins self.now n edge.now) };

    /// The parts inside of which the edge is. `AllocError`: an allocation failed.
    fn around(
        &self,
        alloc: Global,
        edge: &control_flow::Edge,
    ) -> Result<BTreeSet<usize>, AllocError>
        ensures { IfOk result
            (λ parts. (n : ℕ) → contains nat_cmp parts n ≡ inside self.now n edge.now) };
}

impl PartSums {
    /// What is taken of the part.
    pub(crate) fn of_part(&self, number: usize) -> PartSum
        ensures { result ≡ sum_in self.now.by_number number }
    {
        self.by_number
            .get(&number)
            .copied()
            .unwrap_or(PartSum::NOTHING)
    }

    // Adds as much to each of the parts.
    fn add_to_each(&mut self, parts: &BTreeSet<usize>, more: PartSum) -> Result<(), AllocError>
        ensures { OnOk result
            ((n : ℕ) → sum_in self.new.by_number n
            ≡ added_if (contains nat_cmp parts.now n) (sum_in self.old.by_number n) more) }
    {
        for number in parts {
            let sum = self.of_part(*number).with(more);
            self.by_number.insert(*number, sum)?;
        }
        Ok(())
    }

    // Adds an edge that is taken so many times.
    fn add<P: Parts>(
        &mut self,
        alloc: Global,
        parts: &P,
        edge: &control_flow::Edge,
        count: u64,
    ) -> Result<(), AllocError>
        ensures { OnOk result
            ((n : ℕ) → sum_in self.new.by_number n
            ≡ with_edge (P.begins parts.now n edge.now) (P.inside parts.now n edge.now) count edge.now.cost
            (sum_in self.old.by_number n)) }
    {
        let turns = PartSum {
            times: count,
            ticks: 0,
        };
        let taken = PartSum {
            times: 0,
            ticks: capped_product(count, edge.cost),
        };
        let begun = parts.begun_by(alloc, edge)?;
        self.add_to_each(&begun, turns)?;
        let around = parts.around(alloc, edge)?;
        self.add_to_each(&around, taken)
    }

    /// What the walk takes of each part, in time linear in the edges, and for each in the parts around it.
    /// `AllocError`: an allocation failed.
    pub(crate) fn of_walk<P: Parts>(
        alloc: Global,
        walk: CountedWalk<'_, '_>,
        parts: &P,
    ) -> Result<PartSums, AllocError>
        ensures { IfOk result
            (λ sums. (n : ℕ) → sum_in sums.by_number n
            ≡ sum_of walk.entry.handler.now.graph (unfolded walk.entry.longest.now.walk)
            (P.begins parts.now n) (P.inside parts.now n)) }
    {
        let edges = walk.handler.graph.edges();
        let mut sums = PartSums {
            by_number: BTreeMap::new(alloc),
        };
        for number in 0..edges.len() {
            sums.add(alloc, parts, &edges[number], walk.counts[number])?;
        }
        Ok(sums)
    }
}
