ghost use Rattle.std.specs.Prelude.{◌≡◌, IfOk};
ghost use Rattle.control_flow.specs.Flow.{HasEdge, edge_shape};
ghost use Rattle.loop_bounds.specs.Tree.{IsTree};
ghost use Rattle.walks.specs.Greatest.{IsGreatest};
ghost use Rattle.longest_walk.specs.Longest.{KeepsTree};
ghost use Rattle.cert_check.specs.Columns.{Ascends};
ghost use Rattle.cert_check.specs.Verdict.{IsVerdict};

use crate::explaining::failing_row;
use crate::failing::verdict_of;
use crate::fault::CheckFault;
use crate::verdict::Verdict;
use certificate::Cert;
use control_flow::{Graph, Place};
use loop_bounds::LoopTree;
use std::alloc::Global;

/// Checks a certificate, whoever wrote it, whose rows ascend, as those of each certificate that is read do:
/// of all objections the first that applies, in the order `WrongProfile`, `MissingPlace`, `ExtraPlace`,
/// `NumberTooLarge`, `EdgeTooHeavy`, `RoundTooHeavy`, `LeaveTooHeavy`, `BrokenWalk`, `WalkOverBound`,
/// `WalkCost`, else `Yes`. Where it answers `Yes`, the certificate's bound, in ticks, is the greatest cost of
/// a complete walk that keeps the loop bounds.
///
/// # Errors
///
/// `Memory` where an allocation failed.
pub fn check(
    alloc: Global,
    graph: &Graph,
    tree: &LoopTree,
    cert: &Cert,
) -> Result<Verdict, CheckFault>
    requires tree { IsTree graph.now tree.now }
    requires ascending { Ascends cert.now }
    ensures verdict { IfOk result (IsVerdict graph.now tree.now cert.now) }
    ensures greatest { result ≡ Ok Verdict.Yes
        → IsGreatest edge_shape (HasEdge graph.now)
        (KeepsTree tree.now) graph.now.entry Place.Exit cert.now.bound }
{
    let _places = graph.places();
    // `?` gets no proof here, where only the row has places and edges
    match failing_row(alloc, graph, tree, cert) {
        Ok(row) => Ok(verdict_of(row)),
        Err(fault) => Err(fault),
    }
}
