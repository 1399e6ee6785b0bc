ghost use Rattle.std.specs.Prelude.{◌≡◌, ◌↔◌, ◌<◌, IsTrue, MatchOption, length};
ghost use Rattle.control_flow.specs.declared.edges.Edge.{Edge};
ghost use Rattle.control_flow.specs.Flow.{HasEdge, IsWellFormed};
ghost use Rattle.longest_walk.specs.Built.{step_at};
ghost use Rattle.cert_check.specs.Columns.{AreTablesOf};
ghost use Rattle.cert_check.specs.Failing.{IsFirstWithout};
ghost use Rattle.cert_check.specs.Index.{IsIndexed};
ghost use Rattle.cert_check.specs.Weighing.{EdgePasses};

use crate::indexed_tree::IndexedTree;
use crate::weighing::{RowTest, Weighing, passes};
use certificate::Cert;
use numbered_walks::Tables;

/// What a handler's rows are weighed by.
pub(crate) fn weighing_of<'a>(indexed: IndexedTree<'a>, tables: &'a Tables) -> Weighing<'a>
    ensures spans { result.spans.now ≡ indexed.entry.tree.now.spans }
    ensures index { result.index.now ≡ indexed.entry.index.now }
    ensures tables { result.tables.now ≡ tables.now }
    ensures exit { result.exit ≡ length indexed.entry.graph.now.places }
    ensures well_formed { IsWellFormed indexed.entry.graph.now }
{
    Weighing {
        spans: indexed.tree.spans(),
        index: indexed.index,
        tables,
        exit: indexed.graph.places().len(),
    }
}

// Whether the row of the edge with this number passes the test.
fn edge_passes(
    indexed: IndexedTree<'_>,
    cert: &Cert,
    tables: &Tables,
    test: RowTest,
    number: usize,
) -> bool
    requires indexed { IsIndexed indexed }
    requires tables { AreTablesOf indexed.graph.now indexed.tree.now cert.now tables.now }
    requires inside { number < length indexed.graph.now.edges }
    ensures { IsTrue result
        ↔ EdgePasses indexed.entry.tree.now cert.now test (step_at indexed.entry.graph.now.edges number) }
{
    passes(
        weighing_of(indexed, tables),
        test,
        &indexed.tree.edges()[number],
    )
}

/// The number of the first edge whose row does not pass the test.
pub(crate) fn first_not_passed(
    indexed: IndexedTree<'_>,
    cert: &Cert,
    tables: &Tables,
    test: RowTest,
) -> Option<usize>
    requires indexed { IsIndexed indexed }
    requires tables { AreTablesOf indexed.graph.now indexed.tree.now cert.now tables.now }
    ensures { MatchOption result
        ((e : Edge) → HasEdge indexed.entry.graph.now e
        → EdgePasses indexed.entry.tree.now cert.now test e)
        (λ k. (k < length indexed.entry.graph.now.edges)
        × IsFirstWithout (EdgePasses indexed.entry.tree.now cert.now test)
        indexed.entry.graph.now.edges (step_at indexed.entry.graph.now.edges k)) }
{
    for number in 0..indexed.graph.edges().len() {
        if !edge_passes(indexed, cert, tables, test, number) {
            return Some(number);
        }
    }
    None
}
