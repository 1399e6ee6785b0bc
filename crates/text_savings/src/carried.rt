ghost use Rattle.std.specs.Prelude.{◌≡◌, IfOk, OnOk};
ghost use Rattle.longest_walk.specs.Folded.{unfolded};
ghost use Rattle.text_savings.specs.Carried.{Adds, AreTimes, times_in};

use control_flow::{Edge, Label, Place};
use std::alloc::{AllocError, Global};
use std::collections::BTreeMap;
use text_explained::CountedWalk;
use walk_counts::capped_sum;

/// How often the word at an address is carried out, capped at 2^64 - 1.
pub(crate) fn times_in(times: &BTreeMap<u32, u64>, at: u32) -> u64
    ensures { result ≡ times_in times.now at }
{
    times.get(&at).copied().unwrap_or(0)
}

// Adds an edge that is taken so many times, if it carries out its word.
fn add(times: &mut BTreeMap<u32, u64>, edge: &Edge, count: u64) -> Result<(), AllocError>
    ensures { OnOk result (Adds edge.now count times.old times.new) }
{
    let Label::Do = edge.label else {
        return Ok(());
    };
    let Place::At(_, address) = edge.from else {
        return Ok(());
    };
    let before = times_in(times, address);
    times.insert(address, capped_sum(before, count))?;
    Ok(())
}

/// How often the walk carries out the word at each address. `AllocError`: an allocation failed.
pub(crate) fn times_carried_out(
    alloc: Global,
    walk: CountedWalk<'_, '_>,
) -> Result<BTreeMap<u32, u64>, AllocError>
    ensures { IfOk result
        (AreTimes walk.entry.handler.now.graph.edges (unfolded walk.entry.longest.now.walk)) }
{
    let edges = walk.handler.graph.edges();
    let mut times = BTreeMap::new(alloc);
    for number in 0..edges.len() {
        add(&mut times, &edges[number], walk.counts[number])?;
    }
    Ok(times)
}
