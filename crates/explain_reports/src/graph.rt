//! The drawing of a handler's flow graph, with what its greatest run time takes.

ghost use Rattle.std.specs.Prelude.{◌∷◌, [], ℕ, List, IfErr, IfOk};
ghost use Rattle.bus_ticks.specs.declared.profile.Profile.{Profile};
ghost use Rattle.loop_bounds.specs.Handler.{HasItsTree};
ghost use Rattle.explain_reports.specs.GraphReport.{Draws, IsGraphReport};
ghost use Rattle.handlers.specs.Priced.{Priced, given};
ghost use Rattle.handlers.specs.Refusal.{Carries, CarriesRead, CarriesReadBy, ComesAlone, fault_only};
ghost use Rattle.handlers.specs.Refusal.{stop_fault};
ghost use Rattle.handlers.specs.Report.{BeforeOutput, HasLoops, IsRefused, OfHandler};
ghost use Rattle.sources.specs.Source.{IsSource, Says};
ghost use Rattle.sources.specs.File.{File, file_of};

use bus_ticks::Profile;
use control_flow::graphs_are_well_formed;
use handlers::{
    Handler, Refusal, ReportFault, Stop, longest_of, print_or_refuse, profile_of, read_handler,
    read_source, with_source,
};
use outputs::Output;
use sources::{Source, SourceFile};
use std::alloc::Global;
use text_graph::{Extent, drawing, node_ticks_are_the_bound, places_are_drawn_once};

/// What is drawn, or shown on a page.
#[derive(Clone, Copy)]
pub struct DrawnHandler<'a> {
    /// The bytes of its source, a text or an image.
    pub source: SourceFile<'a>,
    /// The text of the statement on it.
    pub statement: &'a [u8],
    /// How much of its flow graph.
    pub extent: Extent,
}

// The drawing of a handler that was read, with its source.
fn drawing_of(
    alloc: Global,
    read: &Source<'_>,
    handler: &Handler<'_>,
    extent: Extent,
) -> Result<Vec<u8>, ReportFault>
    requires { HasItsTree handler.now }
    ensures draws { (source : File) (statement : List ℕ) (profile : Profile)
        → IsSource source read.now
        → HasLoops source statement profile handler.now.statement handler.now.graph
        → IfOk result (λ text. IsGraphReport source statement extent profile text.items) }
    ensures fault { OfHandler handler.now
        (λ source statement profile. IfErr result (BeforeOutput (IsRefused source statement profile))) }
    ensures alone { IfErr result ComesAlone }
{
    let found = longest_of(alloc, handler)?;
    graphs_are_well_formed(&handler.graph);
    places_are_drawn_once();
    node_ticks_are_the_bound();
    let text = drawing(alloc, read, handler, &found, extent)?;
    Ok(text)
}

// The drawing of the handler of a source that was read.
fn source_drawing<'a>(
    alloc: Global,
    said: &Source<'_>,
    statement: &'a [u8],
    extent: Extent,
    profile: &Profile,
) -> Result<Vec<u8>, Stop<'a>>
    ensures draws { (source : File) → IsSource source said.now
        → IfOk result (λ text. IsGraphReport source statement.now extent profile.now text.items) }
    ensures fault { (source : File) → Says source said.now
        → IfErr result (λ s. BeforeOutput (IsRefused source statement.now profile.now) (stop_fault s)) }
    ensures carries { IfErr result (Carries said.now statement.now profile.now) }
{
    let handler = read_handler(alloc, said, statement, profile)?;
    Ok(drawing_of(alloc, said, &handler, extent)?)
}

// The drawing of a source's handler.
fn read_drawing<'a>(
    alloc: Global,
    drawn: DrawnHandler<'a>,
    profile: &Profile,
) -> Result<Vec<u8>, Refusal<'a>>
    ensures draws { IfOk result
        (λ text. IsGraphReport (file_of drawn.entry.source) drawn.entry.statement.now drawn.entry.extent
        profile.now text.items) }
    ensures fault { IfErr (fault_only result)
        (BeforeOutput (IsRefused (file_of drawn.entry.source) drawn.entry.statement.now profile.now)) }
    ensures carries { IfErr result
        (CarriesRead (file_of drawn.entry.source) (drawn.entry.statement.now ∷ []) profile.now) }
{
    let said = read_source(alloc, drawn.source)?;
    let text = source_drawing(alloc, &said, drawn.statement, drawn.extent, profile);
    with_source(said, text)
}

/// Writes the drawing of a handler's flow graph in DOT, the language of Graphviz, by a cycle profile's file
/// or by the first profile: its straight stretches with their lines of the source, or their words of an
/// image, and the edges between them, in frames for calls and loops, with how often a greatest walk takes
/// each, the ticks of that and their share; or what the walk takes alone.
///
/// # Errors
///
/// Those of `bound_report`. After any but `Device` nothing was written.
pub fn graph_report<'a, O: Output>(
    alloc: Global,
    drawn: DrawnHandler<'a>,
    profile: Option<&'a [u8]>,
    out: &mut O,
) -> Result<(), Refusal<'a>>
    ensures answers { Priced (given profile.entry)
        (λ p. Draws O.taken O.failures (file_of drawn.entry.source) drawn.entry.statement.now
        drawn.entry.extent p out.old out.new (fault_only result)) out.old out.new (fault_only result) }
    ensures carries { IfErr result
        (CarriesReadBy (given profile.entry) (file_of drawn.entry.source) (drawn.entry.statement.now ∷ [])) }
{
    let profile = profile_of(alloc, profile)?;
    let text = read_drawing(alloc, drawn, &profile)?;
    print_or_refuse((), &text, out)
}
