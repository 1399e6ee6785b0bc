ghost use Rattle.std.specs.Prelude.{◌≡◌, IfOk};
ghost use Rattle.longest_walk.specs.Folded.{unfolded};
ghost use Rattle.text_explained.specs.Costing.{first_of};
ghost use Rattle.text_explained.specs.Table.{starts_of};
ghost use Rattle.text_page.specs.Page.{IsPage};

use crate::folds::Foldable;
use crate::heading::{put_heading, put_names};
use crate::listing::{keep_shown, put_lines};
use crate::notes::Notes;
use crate::page_lines::page_lines;
use sources::Source;
use std::alloc::{AllocError, Global};
use text_explained::{CountedWalk, WorstStarts, walk_rows};
use text_graph::Extent;
use text_rows::put;

/// A page of HTML that shows where the ticks of a handler's greatest run time go: the bound in ticks and in
/// microseconds and the handler's entry, and below a row for each line of the source that has words, or for
/// each word of an image, in their order, with its address, how often a greatest walk passes it, the ticks of
/// that, their share of the bound in per cent and as a bar, and the line. The rows of what the walk does not
/// pass, and of what no walk reaches, are grey, or left out where the path alone is shown. Under the pointer
/// a row says the number of the line, the ticks of a pass, what their price takes for granted, the tick by
/// which the word begins at the latest, the bound of the loop whose header it is, and what is stated that it
/// does. A row is found by its address, as `#a8018`, and the line of a branch leads to the row of its target.
/// Stated loops and routines that are called are folded. What comes from the source is escaped. The page has
/// no script, and loads nothing.
///
/// # Errors
///
/// An allocation failed.
pub fn page(
    alloc: Global,
    source: &Source<'_>,
    walk: CountedWalk<'_, '_>,
    starts: WorstStarts<'_>,
    extent: Extent,
) -> Result<Vec<u8>, AllocError>
    ensures { IfOk result
        (λ text. IsPage source.now walk.entry.handler.now.image.now walk.entry.handler.now.statement
        walk.entry.handler.now.graph (unfolded walk.entry.longest.now.walk)
        (starts_of walk.entry.handler.now.graph.places starts.entry.latest.now
        (first_of starts.entry.first))
        walk.entry.longest.now.bound extent text.items) }
{
    let handler = walk.handler;
    let lines = source.lines(alloc)?;
    let mut rows = walk_rows(alloc, source, walk, starts)?;
    keep_shown(&mut rows, extent);
    let notes = Notes::new(alloc, handler, &lines, &rows)?;
    let foldable = Foldable::new(alloc, handler)?;
    let shown = page_lines(alloc, &foldable, &rows)?;
    let entry = handler.statement.entry();
    let mut out = Vec::new(alloc);
    put_heading(&mut out, walk.longest.bound, entry, notes.label_at(entry))?;
    put_names(&mut out)?;
    put_lines(&mut out, &notes, walk.longest.bound, &shown)?;
    put(&mut out, b"</body>\n</html>\n")?;
    Ok(out)
}
