//! The page of HTML on a handler's greatest run time.

ghost use Rattle.std.specs.Prelude.{◌≡◌, ◌∷◌, [], ℕ, List, IfErr, IfOk};
ghost use Rattle.bus_ticks.specs.declared.profile.Profile.{Profile};
ghost use Rattle.loop_bounds.specs.Handler.{HasItsTree};
ghost use Rattle.explain_reports.specs.PageReport.{IsPageReport, ShowsPage};
ghost use Rattle.handlers.specs.Priced.{Priced, given};
ghost use Rattle.handlers.specs.Refusal.{Carries, CarriesRead, CarriesReadBy, ComesAlone, fault_only};
ghost use Rattle.handlers.specs.Refusal.{stop_fault};
ghost use Rattle.handlers.specs.Report.{BeforeOutput, HasLoops, IsRefused};
ghost use Rattle.sources.specs.Source.{IsSource, Says};
ghost use Rattle.sources.specs.File.{File, file_of};

use crate::graph::DrawnHandler;
use bus_ticks::Profile;
use control_flow::graphs_are_well_formed;
use handlers::{
    Handler, Refusal, ReportFault, Stop, longest_of, print_or_refuse, profile_of, read_handler,
    read_source, with_source,
};
use longest_walk::worst_starts;
use outputs::Output;
use sources::Source;
use std::alloc::Global;
use text_explained::{
    CountedWalk, WorstStarts, latest_starts_are_of_walks, places_are_listed_once,
    totals_are_the_bound,
};
use text_graph::Extent;
use text_page::page;
use walk_counts::edge_counts;

// The page on a handler that was read, with its source.
fn page_of(
    alloc: Global,
    read: &Source<'_>,
    handler: &Handler<'_>,
    extent: Extent,
) -> Result<Vec<u8>, ReportFault>
    requires image { handler.now.image.now ≡ read.now.image }
    requires tree { HasItsTree handler.now }
    ensures shows { (source : File) (statement : List ℕ) (profile : Profile)
        → IsSource source read.now
        → HasLoops source statement profile handler.now.statement handler.now.graph
        → IfOk result (λ text. IsPageReport source statement extent profile text.items) }
    ensures fault { (source : File) (statement : List ℕ) (profile : Profile)
        → HasLoops source statement profile handler.now.statement handler.now.graph
        → IfErr result (BeforeOutput (IsRefused source statement profile)) }
    ensures alone { IfErr result ComesAlone }
{
    let found = longest_of(alloc, handler)?;
    let starts = worst_starts(alloc, &handler.graph, &handler.tree)?;
    graphs_are_well_formed(&handler.graph);
    places_are_listed_once();
    totals_are_the_bound();
    latest_starts_are_of_walks();
    let counts = edge_counts(alloc, &handler.graph, &found.walk)?;
    let begun = WorstStarts {
        latest: &starts,
        first: None,
    };
    let walk = CountedWalk {
        handler,
        longest: &found,
        counts: &counts,
    };
    let text = page(alloc, read, walk, begun, extent)?;
    Ok(text)
}

// The page on the handler of a source that was read.
fn source_page<'a>(
    alloc: Global,
    said: &Source<'_>,
    statement: &'a [u8],
    extent: Extent,
    profile: &Profile,
) -> Result<Vec<u8>, Stop<'a>>
    ensures shows { (source : File) → IsSource source said.now
        → IfOk result (λ text. IsPageReport source statement.now extent profile.now text.items) }
    ensures fault { (source : File) → Says source said.now
        → IfErr result (λ s. BeforeOutput (IsRefused source statement.now profile.now) (stop_fault s)) }
    ensures carries { IfErr result (Carries said.now statement.now profile.now) }
{
    let handler = read_handler(alloc, said, statement, profile)?;
    Ok(page_of(alloc, said, &handler, extent)?)
}

// The page on a source's handler.
fn read_page<'a>(
    alloc: Global,
    drawn: DrawnHandler<'a>,
    profile: &Profile,
) -> Result<Vec<u8>, Refusal<'a>>
    ensures shows { IfOk result
        (λ text. IsPageReport (file_of drawn.entry.source) drawn.entry.statement.now drawn.entry.extent
        profile.now text.items) }
    ensures fault { IfErr (fault_only result)
        (BeforeOutput (IsRefused (file_of drawn.entry.source) drawn.entry.statement.now profile.now)) }
    ensures carries { IfErr result
        (CarriesRead (file_of drawn.entry.source) (drawn.entry.statement.now ∷ []) profile.now) }
{
    let said = read_source(alloc, drawn.source)?;
    let text = source_page(alloc, &said, drawn.statement, drawn.extent, profile);
    with_source(said, text)
}

/// Writes a page of HTML that shows where the ticks of a handler's greatest run time go, by a cycle profile's
/// file or by the first profile: a row for each line of its source that has words, or for each word of an
/// image, with how often a greatest walk passes it, the ticks of that and their share; or of what the walk
/// passes alone.
///
/// # Errors
///
/// Those of `bound_report`. After any but `Device` nothing was written.
pub fn page_report<'a, O: Output>(
    alloc: Global,
    drawn: DrawnHandler<'a>,
    profile: Option<&'a [u8]>,
    out: &mut O,
) -> Result<(), Refusal<'a>>
    ensures answers { Priced (given profile.entry)
        (λ p. ShowsPage O.taken O.failures (file_of drawn.entry.source) drawn.entry.statement.now
        drawn.entry.extent p out.old out.new (fault_only result)) out.old out.new (fault_only result) }
    ensures carries { IfErr result
        (CarriesReadBy (given profile.entry) (file_of drawn.entry.source) (drawn.entry.statement.now ∷ [])) }
{
    let profile = profile_of(alloc, profile)?;
    let text = read_page(alloc, drawn, &profile)?;
    print_or_refuse((), &text, out)
}
