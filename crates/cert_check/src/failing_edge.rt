ghost use Rattle.std.specs.Prelude.{◌≡◌, ◌<◌, length};
ghost use Rattle.longest_walk.specs.Built.{step_at};
ghost use Rattle.cert_check.specs.Columns.{AreTablesOf};
ghost use Rattle.cert_check.specs.Failing.{IsFirstFailing, IsHeavy};
ghost use Rattle.cert_check.specs.Index.{IsIndexed};
ghost use Rattle.cert_check.specs.Verdict.{RowHolds, row_objections};
ghost use Rattle.cert_check.specs.Weighing.{RowFits};

use crate::failing::{FailingRow, HeavyRow};
use crate::indexed_tree::IndexedTree;
use crate::row_tests::{first_not_passed, weighing_of};
use crate::weighing::{RowTest, weight};
use certificate::Cert;
use numbered_walks::Tables;

// The row of the edge with this number, which does not hold.
fn heavy_row(indexed: IndexedTree<'_>, cert: &Cert, tables: &Tables, number: usize) -> HeavyRow
    requires indexed { IsIndexed indexed }
    requires tables { AreTablesOf indexed.graph.now indexed.tree.now cert.now tables.now }
    requires inside { number < length indexed.graph.now.edges }
    requires fits { RowFits indexed.tree.now cert.now (step_at indexed.graph.now.edges number) }
    requires fails { RowHolds indexed.tree.now cert.now (step_at indexed.graph.now.edges number) → ⊥ }
    ensures edge { result.edge ≡ step_at indexed.entry.graph.now.edges number }
    ensures heavy { IsHeavy indexed.entry.tree.now cert.now result }
{
    let (needed, stated) = weight(weighing_of(indexed, tables), &indexed.tree.edges()[number]);
    HeavyRow {
        edge: indexed.graph.edges()[number],
        needed,
        stated,
    }
}

/// The first edge whose row fails the first of the four tests of rows that is not passed.
pub(crate) fn failing_edge(
    indexed: IndexedTree<'_>,
    cert: &Cert,
    tables: &Tables,
) -> Option<FailingRow>
    requires indexed { IsIndexed indexed }
    requires tables { AreTablesOf indexed.graph.now indexed.tree.now cert.now tables.now }
    ensures { IsFirstFailing indexed.entry.graph.now indexed.entry.tree.now cert.now row_objections result }
{
    if let Some(number) = first_not_passed(indexed, cert, tables, RowTest::Fits) {
        return Some(FailingRow::NumberTooLarge(indexed.graph.edges()[number]));
    }
    if let Some(number) = first_not_passed(indexed, cert, tables, RowTest::Plain) {
        let row = heavy_row(indexed, cert, tables, number);
        return Some(FailingRow::EdgeTooHeavy(row));
    }
    if let Some(number) = first_not_passed(indexed, cert, tables, RowTest::Round) {
        let row = heavy_row(indexed, cert, tables, number);
        return Some(FailingRow::RoundTooHeavy(row));
    }
    if let Some(number) = first_not_passed(indexed, cert, tables, RowTest::Leave) {
        let row = heavy_row(indexed, cert, tables, number);
        return Some(FailingRow::LeaveTooHeavy(row));
    }
    None
}
