ghost use Rattle.std.specs.Prelude.{◌≡◌, ◌<◌, ◌++◌, [], ◌∷◌, IfOk, IfErr, IfSome, length, All};
ghost use Rattle.std.specs.Prelude.{slice_index, MatchBool};
ghost use Rattle.loop_bounds.specs.Extents.{AreNested};
ghost use Rattle.loop_bounds.specs.Layout.{AreChains, IsChainFault, AreShallow, chain_of, items_of};
ghost use Rattle.loop_bounds.specs.InPositions.{EnterRight, EnterWrong, IsNesting, IsNestingFault, IsSound};

use crate::extents::Extent;
use crate::fault::NestFault;
use crate::parents::{enters_right, parents};
use crate::ranks::ranks;
use numbered_walks::NumberedEdge;
use std::alloc::{AllocError, Global};
use walks::MOST_INSTANCES;

// The chain, if there is one, and then the rank.
fn extended(
    alloc: Global,
    chains: &[Vec<usize>],
    above: Option<usize>,
    rank: usize,
) -> Result<Vec<usize>, AllocError>
    requires { IfSome above (λ k. k < length chains.now) }
    ensures { IfOk result (λ chain. chain.items ≡ chain_of (items_of chains.now) above ++ rank ∷ []) }
{
    let mut chain = match above {
        Some(k) => chains[k].clone()?,
        None => Vec::new(alloc),
    };
    chain.push(rank)?;
    Ok(chain)
}

/// Of each extent the ranks of the headers of those that hold it, the outermost first and itself the last.
pub(crate) fn chains(
    alloc: Global,
    extents: &[Extent],
    parents: &[Option<usize>],
    ranks: &[usize],
) -> Result<Vec<Vec<usize>>, NestFault>
    requires nested { AreNested extents.now parents.now }
    requires headers { All (λ s. s.header < length ranks.now) extents.now }
    ensures chains { IfOk result
        (λ chains. (length chains.items ≡ length extents.now)
        × AreChains (slice_index ranks.now) extents.now (items_of chains.items) (length extents.now)) }
    ensures shallow { IfOk result (λ chains. AreShallow extents.now) }
    ensures fault { IfErr result (IsChainFault extents.now) }
{
    let mut chains: Vec<Vec<usize>> = Vec::with_capacity(alloc, extents.len())?;
    for k in 0..extents.len() {
        let chain = extended(alloc, &chains, parents[k], ranks[extents[k].header])?;
        if chain.len() > MOST_INSTANCES {
            return Err(NestFault::NestedTooDeep);
        }
        chains.push(chain)?;
    }
    Ok(chains)
}

/// The parents of extents, the ranks of positions, and the chains of extents by ranks.
#[derive(Drop)]
pub(crate) struct Nesting {
    pub parents: Vec<Option<usize>>,
    pub ranks: Vec<usize>,
    pub chains: Vec<Vec<usize>>,
}

// Whether each extent is entered at its header alone, from the entry and along the edges.
fn all_enter_right(
    extents: &[Extent],
    parents: &[Option<usize>],
    edges: &[NumberedEdge],
    entry: usize,
    exit: usize,
) -> bool
    requires { AreNested extents.now parents.now }
    ensures { MatchBool result (EnterRight exit edges.now entry extents.now)
        (EnterWrong exit edges.now entry extents.now) }
{
    if !enters_right(extents, parents, exit, entry) {
        return false;
    }
    for edge in edges {
        if !enters_right(extents, parents, edge.from, edge.to) {
            return false;
        }
    }
    true
}

/// How the extents nest.
pub(crate) fn nest_extents(
    alloc: Global,
    extents: &[Extent],
    edges: &[NumberedEdge],
    entry: usize,
    exit: usize,
) -> Result<Nesting, NestFault>
    requires { IsSound exit edges.now extents.now }
    ensures nesting { IfOk result (IsNesting exit edges.now entry extents.now) }
    ensures fault { IfErr result (IsNestingFault exit edges.now entry extents.now) }
{
    let Some(parents) = parents(alloc, extents)? else {
        return Err(NestFault::LoopsCross);
    };
    if !all_enter_right(extents, &parents, edges, entry, exit) {
        return Err(NestFault::EntersMidLoop);
    }
    let ranks = ranks(alloc, extents, edges, exit)?;
    let chains = chains(alloc, extents, &parents, &ranks)?;
    Ok(Nesting {
        parents,
        ranks,
        chains,
    })
}
