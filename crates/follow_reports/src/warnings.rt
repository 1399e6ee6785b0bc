//! Which of the returns that a run does an explanation warns of.

ghost use Rattle.std.specs.Prelude.{◌≡◌, ℕ, IfOk, List, OnOk, length};
ghost use Rattle.std.specs.BTreeSet.{contains};
ghost use Rattle.std.specs.Ordering.{nat_cmp};
ghost use Rattle.kept_runs.specs.Passing.{IsTally, Pass};
ghost use Rattle.follow_reports.specs.FollowText.{AreWarnings};
ghost use Rattle.follow_reports.specs.FollowWork.{HasDone, NotesDone};
ghost use Rattle.sources.specs.Source.{IsSource};
ghost use Rattle.sources.specs.File.{File};

use control_flow::{Graph, Place};
use handlers::Handler;
use kept_runs::Passed;
use sources::Source;
use std::alloc::{AllocError, Global};
use std::collections::BTreeSet;
use text_explained::done_text;

// Adds the address of the place, if some of the steps there do its word.
fn note(done: &mut BTreeSet<u32>, place: &Place, passed: Passed) -> Result<(), AllocError>
    ensures { OnOk result
        (NotesDone place.now passed (contains nat_cmp done.old) (contains nat_cmp done.new)) }
{
    let Place::At(_, address) = place else {
        return Ok(());
    };
    if passed.done > 0 {
        done.insert(*address)?;
    }
    Ok(())
}

// The addresses of the words that a run does, by what it does at each place.
fn done_words(
    alloc: Global,
    graph: &Graph,
    by_place: &[Passed],
) -> Result<BTreeSet<u32>, AllocError>
    requires { length by_place.now ≡ length graph.now.places }
    ensures { IfOk result
        (λ done. HasDone graph.now.places by_place.now (length graph.now.places) (contains nat_cmp done)) }
{
    let mut done = BTreeSet::new(alloc);
    for index in 0..graph.places().len() {
        note(&mut done, &graph.places()[index], by_place[index])?;
    }
    Ok(done)
}

/// The returns and ways out of which an explanation warns, of the words alone that a run does, under the same
/// headings. `by_place` says what the run does at each place of the graph, in their order. No text where the
/// run does none of them.
pub(crate) fn warnings(
    alloc: Global,
    read: &Source<'_>,
    handler: &Handler<'_>,
    by_place: &[Passed],
) -> Result<Vec<u8>, AllocError>
    requires image { handler.now.image.now ≡ read.now.image }
    requires places { length by_place.now ≡ length handler.now.graph.places }
    ensures { (source : File) (passes : List Pass) → IsSource source read.now
        → IsTally handler.now.graph passes by_place.now
        → IfOk result
        (λ text. AreWarnings source read.now.image handler.now.statement handler.now.graph passes
        text.items) }
{
    let done = done_words(alloc, &handler.graph, by_place)?;
    done_text(alloc, read, handler, &done)
}
