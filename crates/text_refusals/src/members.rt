ghost use Rattle.std.specs.Prelude.{◌≡◌, ◌≢◌, MatchBool};
ghost use Rattle.text_refusals.specs.Cycles.{turns_back};

use control_flow::{Calls, Edge};
use loop_bounds::is_back_edge_of;
use statement::StatedLoops;

/// Whether the two are one list of calls.
pub(crate) fn are_same(list: Calls, other: Calls) -> bool
    ensures { MatchBool result (list ≡ other) (list ≢ other) }
{
    list == other
}

/// Whether the edge is a back edge of an instance of a loop.
pub(crate) fn turns_back(loops: &StatedLoops, edge: &Edge) -> bool
    ensures { result ≡ turns_back loops.now edge.now }
{
    let apart = loops.apart();
    let list = loops.list();
    list.iter()
        .any(|stated| is_back_edge_of(apart, stated, edge))
}
