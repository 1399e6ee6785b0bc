ghost use Rattle.std.specs.Prelude.{IfOk};
ghost use Rattle.loop_bounds.specs.Tree.{IsTree};
ghost use Rattle.cert_check.specs.Columns.{Ascends};
ghost use Rattle.cert_check.specs.Failing.{IsFirstFailing};
ghost use Rattle.cert_check.specs.Verdict.{objections};

use crate::columns::tables_of;
use crate::failing::FailingRow;
use crate::failing_edge::failing_edge;
use crate::failing_presence::failing_presence;
use crate::failing_walk::failing_walk;
use crate::fault::CheckFault;
use crate::index::Index;
use crate::indexed_tree::IndexedTree;
use certificate::Cert;
use control_flow::Graph;
use loop_bounds::LoopTree;
use std::alloc::Global;

/// What fails in a certificate whose rows ascend, for the objection that [`check`](crate::check) answers, and
/// `None` where that answers `Yes`. Of places, instances, edges, rows and lines of the walk it is the first
/// that fails, in the order of the graph, of the tree or of the certificate. It takes the time of the check.
///
/// # Errors
///
/// `Memory` where an allocation failed.
pub fn failing_row(
    alloc: Global,
    graph: &Graph,
    tree: &LoopTree,
    cert: &Cert,
) -> Result<Option<FailingRow>, CheckFault>
    requires tree { IsTree graph.now tree.now }
    requires ascending { Ascends cert.now }
    ensures { IfOk result (IsFirstFailing graph.now tree.now cert.now objections) }
{
    let exit = graph.places().len();
    if let Some(row) = failing_presence(alloc, graph, tree, cert)? {
        return Ok(Some(row));
    }
    let index = Index::of(alloc, tree.spans(), exit)?;
    let tables = tables_of(alloc, graph, tree, cert)?;
    let indexed = IndexedTree {
        graph,
        tree,
        index: &index,
    };
    if let Some(row) = failing_edge(indexed, cert, &tables) {
        return Ok(Some(row));
    }
    Ok(failing_walk(alloc, indexed, cert)?)
}
