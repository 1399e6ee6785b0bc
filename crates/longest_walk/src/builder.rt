ghost use Rattle.std.specs.Prelude.{◌≡◌, IfOk, IfErr};
ghost use Rattle.longest_walk.specs.Built.{IsBuilt};
ghost use Rattle.longest_walk.specs.Ways.{AreSearched};

use crate::folded::FoldedWalk;
use crate::rounds::{add_rounds, add_way, all_rounds};
use crate::trace::{Search, trace};
use numbered_walks::WalkFault;
use std::alloc::Global;

/// A greatest walk from the entry to Exit, with all rounds of each instance that it enters as a repeat.
pub(crate) fn fold_walk(alloc: Global, search: Search<'_>) -> Result<FoldedWalk, WalkFault>
    requires { AreSearched search.graph.now search.tree.now search.index.now search.tables.now }
    ensures walk { IfOk result
        (IsBuilt search.entry.graph.now search.entry.tree.now search.entry.tables.now) }
    ensures memory { IfErr result (λ fault. fault ≡ WalkFault.Memory) }
{
    let Search { graph, tree, .. } = search;
    let rounds = all_rounds(alloc, search)?;
    let exit = graph.places().len();
    let way = trace(alloc, search, None, exit)?;
    let mut walk = Vec::new(alloc);
    add_rounds(&mut walk, &rounds, 0)?;
    add_way(&mut walk, graph, tree, &rounds, &way)?;
    Ok(FoldedWalk::of(walk))
}
