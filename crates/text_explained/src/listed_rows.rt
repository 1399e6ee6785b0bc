//! The rows of a bound's table, for what shows them otherwise.

ghost use Rattle.std.specs.Prelude.{IfOk};
ghost use Rattle.longest_walk.specs.Folded.{unfolded};
ghost use Rattle.text_explained.specs.Costing.{first_of};
ghost use Rattle.text_explained.specs.Table.{starts_of};
ghost use Rattle.text_explained.specs.WalkRows.{AreWalkRows};

use crate::cost_figures::Costing;
use crate::counted_walk::CountedWalk;
use crate::starts::WorstStarts;
use crate::table_rows::{TableRow, source_rows};
use sources::Source;
use std::alloc::{AllocError, Global};

/// The rows of [`cost_table`](crate::cost_table), all of them and in the source's order: one for each line
/// that has words, or for each word of an image, with what a greatest walk takes there.
///
/// # Errors
///
/// An allocation failed.
pub fn walk_rows<'a>(
    alloc: Global,
    source: &'a Source<'_>,
    walk: CountedWalk<'_, '_>,
    starts: WorstStarts<'_>,
) -> Result<Vec<TableRow<'a>>, AllocError>
    ensures { IfOk result
        (λ rows. AreWalkRows source.now walk.entry.handler.now.image.now
        walk.entry.handler.now.statement walk.entry.handler.now.graph
        (unfolded walk.entry.longest.now.walk)
        (starts_of walk.entry.handler.now.graph.places starts.entry.latest.now
        (first_of starts.entry.first))
        walk.entry.longest.now.bound rows.items) }
{
    let costing = Costing::of_walk(alloc, walk, starts)?;
    source_rows(alloc, &costing, source)
}
