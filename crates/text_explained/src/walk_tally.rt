ghost use Rattle.std.specs.Prelude.{◌≡◌, IfOk, List, OnOk, cond, length};
ghost use Rattle.std.specs.BTreeMap.{get};
ghost use Rattle.std.specs.Ordering.{nat_cmp};
ghost use Rattle.control_flow.specs.declared.edges.Edge.{Edge};
ghost use Rattle.control_flow.specs.declared.edges.Label.TheVariants.{Do};
ghost use Rattle.longest_walk.specs.Folded.{unfolded};
ghost use Rattle.walk_counts.specs.Counts.{AreCounts, is_same_label};
ghost use Rattle.text_explained.specs.Taken.{Adds, IsTally, Puts, Starts, with_edge, widened};

use control_flow::{Edge, Graph, Label, Place};
use longest_walk::FoldedWalk;
use std::alloc::{AllocError, Global};
use std::collections::BTreeMap;
use walk_counts::{capped_product, capped_sum, edge_counts};

/// The least and the greatest cost in ticks of some edges from an instruction.
#[derive(Clone, Copy)]
pub struct Costs {
    pub least: u32,
    pub greatest: u32,
}

/// How often a walk passes an instruction, and what that costs in ticks, each counted up to 2^64 - 1.
#[derive(Clone, Copy)]
pub struct Taken {
    pub passes: u64,
    /// How many of the passes do it, as its condition holds.
    pub done: u64,
    pub ticks: u64,
    /// What a pass costs, by the edges that the walk takes; None where it never passes.
    pub costs: Option<Costs>,
    /// What a pass may cost, by all edges of the graph.
    pub prices: Option<Costs>,
}

/// What a walk takes at each address where the graph has a place.
#[derive(Drop)]
pub struct WalkTally {
    by_address: BTreeMap<u32, Taken>,
}

// A cost more.
fn widened(costs: Option<Costs>, cost: u32) -> Option<Costs>
    ensures { result ≡ widened costs cost }
{
    match costs {
        None => Some(Costs {
            least: cost,
            greatest: cost,
        }),
        Some(costs) => Some(Costs {
            least: costs.least.min(cost),
            greatest: costs.greatest.max(cost),
        }),
    }
}

// How often the instruction is done, where an edge is taken so many times.
fn done_count(edge: &Edge, count: u64) -> u64
    ensures { result ≡ cond (is_same_label edge.now.label Do) count 0 }
{
    match edge.label {
        Label::Do => count,
        Label::Skip => 0,
    }
}

impl Taken {
    const NOTHING: Taken = Taken {
        passes: 0,
        done: 0,
        ticks: 0,
        costs: None,
        prices: None,
    };

    // The costs with an edge's, if that is taken.
    fn costs_with(self, edge: &Edge, count: u64) -> Option<Costs>
        ensures { result ≡ (with_edge self edge.now count).costs }
    {
        if count == 0 {
            return self.costs;
        }
        widened(self.costs, edge.cost)
    }
}

impl WalkTally {
    // Sets what is taken at a place's address.
    fn put(&mut self, place: &Place, taken: Taken) -> Result<(), AllocError>
        ensures { OnOk result (Puts place.now taken self.old self.new) }
    {
        let Place::At(_, address) = place else {
            return Ok(());
        };
        self.by_address.insert(*address, taken)?;
        Ok(())
    }

    // Nothing at the places.
    fn of_places(alloc: Global, places: &[Place]) -> Result<WalkTally, AllocError>
        ensures { IfOk result (Starts places.now) }
    {
        let mut tally = WalkTally {
            by_address: BTreeMap::new(alloc),
        };
        for place in places {
            tally.put(place, Taken::NOTHING)?;
        }
        Ok(tally)
    }

    // Adds an edge that is taken so many times.
    fn add(&mut self, edge: &Edge, count: u64) -> Result<(), AllocError>
        ensures { OnOk result (Adds edge.now count self.old self.new) }
    {
        let Place::At(_, address) = edge.from else {
            return Ok(());
        };
        let before = self.at(address).unwrap_or(Taken::NOTHING);
        let after = Taken {
            passes: capped_sum(before.passes, count),
            done: capped_sum(before.done, done_count(edge, count)),
            ticks: capped_sum(before.ticks, capped_product(count, edge.cost)),
            costs: before.costs_with(edge, count),
            prices: widened(before.prices, edge.cost),
        };
        self.put(&edge.from, after)
    }

    /// What the walk takes at the graph's places, in time linear in the walk as it is folded.
    ///
    /// # Errors
    ///
    /// An allocation failed.
    pub fn of_walk(alloc: Global, graph: &Graph, walk: &FoldedWalk) -> Result<WalkTally, AllocError>
        ensures { IfOk result (IsTally graph.now (unfolded walk.now)) }
    {
        let counts = edge_counts(alloc, graph, walk)?;
        WalkTally::of_counts(alloc, graph, &counts)
    }

    /// What a walk takes at the graph's places that takes each edge so many times. `AllocError`: an
    /// allocation failed.
    pub(crate) fn of_counts(
        alloc: Global,
        graph: &Graph,
        counts: &[u64],
    ) -> Result<WalkTally, AllocError>
        requires { length counts.now ≡ length graph.now.edges }
        ensures { IfOk result (λ tally. (walk : List Edge) → AreCounts graph.now.edges walk counts.now
            → IsTally graph.now walk tally) }
    {
        let mut tally = WalkTally::of_places(alloc, graph.places())?;
        for number in 0..graph.edges().len() {
            tally.add(&graph.edges()[number], counts[number])?;
        }
        Ok(tally)
    }

    /// What the walk takes at the address; None where the graph has no place.
    pub fn at(&self, address: u32) -> Option<Taken>
        ensures { result ≡ get nat_cmp self.now.by_address address }
    {
        self.by_address.get(&address).copied()
    }
}
