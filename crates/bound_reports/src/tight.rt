//! A machine file whose machine takes an edge of a handler's flow graph at exactly its price.

ghost use Rattle.std.specs.Prelude.{◌≡◌, ◌⊎◌, ◌++◌, ◌∷◌, ◌<◌, ◌≤◌, ℕ, [], All, IfErr, IfOk};
ghost use Rattle.std.specs.Prelude.{IfSome, IsNone, OnOk, length, string_bytes};
ghost use Rattle.image.specs.Image.{AreOf, IsFitted};
ghost use Rattle.control_flow.specs.Flow.{Flow};
ghost use Rattle.control_flow.specs.Free.{IsFree};
ghost use Rattle.control_flow.specs.Graph.{IsFlowGraph};
ghost use Rattle.handlers.specs.Priced.{Priced, given};
ghost use Rattle.handlers.specs.Refusal.{Carries, CarriesRead, CarriesReadBy, ComesAlone, fault_only};
ghost use Rattle.handlers.specs.Refusal.{stop_fault};
ghost use Rattle.handlers.specs.Report.{BeforeOutput, HasGraph};
ghost use Rattle.bound_reports.specs.TightReport.{IsEdgeAt, IsEdgeRefused, IsTightRefused, IsTightReport};
ghost use Rattle.bound_reports.specs.TightReport.{ReportsTight, edge_line};
ghost use Rattle.bound_reports.specs.TightText.{HasTightFile, IsEdgeFile, IsEdgeText};
ghost use Rattle.sources.specs.Source.{IsSource};
ghost use Rattle.sources.specs.File.{file_of};

use bus_ticks::Profile;
use certificate::write_edge;
use control_flow::{Edge, Graph, is_free};
use flow_graph::{TightFault, tight_state};
use handlers::{
    Refusal, ReportFault, Stop, fault_only, print_or_refuse, profile_of, read_handler, read_source,
    with_source,
};
use image::Image;
use loader::LoadFault;
use machine_file::{MachineFile, write_machine};
use outputs::Output;
use sources::{Source, SourceFile};
use statement::Statement;
use std::alloc::{AllocError, Global};

// The flow graph of a source's words by a statement. No `Handler`, as the loops may be refused.
#[derive(Clone, Copy)]
struct StatedGraph<'a> {
    source: &'a Source<'a>,
    statement: &'a Statement,
    graph: &'a Graph,
}

// The edge of a number, in the order of the graph's edges.
fn edge_at(graph: &Graph, number: u32) -> Option<&Edge>
    ensures some { IfSome result (λ edge. IsEdgeAt graph.now number edge.now) }
    ensures none { IsNone result → length graph.now.edges ≤ number }
{
    graph.edges().get(number as usize)
}

// Why an edge has no report, if it has none.
fn fault_of(image: &Image, edge: &Edge) -> Option<ReportFault>
    ensures free { IsNone result → IsFree image.now edge.now }
    ensures fitted { IsNone result → All (λ e. IsFitted e.0) image.now }
    ensures own { AreOf image.now image.now }
    ensures fault { (graph : Flow) (number : ℕ) → IsEdgeAt graph number edge.now
        → IfSome result (IsEdgeRefused image.now graph number) }
{
    let fitted = image.is_fitted();
    if !is_free(image, edge) {
        return Some(ReportFault::NotFree(edge.from.address()));
    }
    if !fitted {
        return Some(ReportFault::Load(LoadFault::NoPage));
    }
    None
}

// The machine file of a free edge.
fn tight_file(
    alloc: Global,
    stated: StatedGraph<'_>,
    number: u32,
    edge: &Edge,
) -> Result<MachineFile, ReportFault>
    requires graph { IsFlowGraph stated.source.now.image stated.statement.now stated.graph.now.profile
        stated.graph.now }
    requires edge { IsEdgeAt stated.graph.now number edge.now }
    requires free { IsFree stated.source.now.image edge.now }
    ensures file { IfOk result
        (HasTightFile stated.entry.source.now.image stated.entry.statement.now stated.entry.graph.now.profile
        edge.now) }
    ensures fault { IfErr result (λ fault. fault ≡ ReportFault.Memory) }
{
    let number = number as usize;
    let image = &stated.source.image;
    match tight_state(alloc, image, stated.statement, stated.graph, number) {
        Ok(tight) => Ok(tight.file),
        Err(TightFault::Memory) => Err(ReportFault::Memory),
        Err(TightFault::NotFree) => unreachable!(),
    }
}

fn put_edge(out: &mut String, edge: &Edge) -> Result<(), AllocError>
    ensures { OnOk result (string_bytes out.new ≡ string_bytes out.old ++ edge_line edge.now) }
{
    out.push_str("# edge ")?;
    write_edge(out, edge)
}

// The edge's line, and the machine file.
fn file_text(alloc: Global, edge: &Edge, file: &MachineFile) -> Result<String, AllocError>
    requires { file.now.schedule.events ≡ [] }
    ensures { IfOk result (λ text. IsEdgeFile edge.now file.now (string_bytes text)) }
{
    let document = write_machine(alloc, file)?;
    let mut text = String::new(alloc);
    put_edge(&mut text, edge)?;
    text.push_str(&document)?;
    Ok(text)
}

// The report of a graph's edge.
fn edge_text(alloc: Global, stated: StatedGraph<'_>, number: u32) -> Result<String, ReportFault>
    requires { IsFlowGraph stated.source.now.image stated.statement.now stated.graph.now.profile
        stated.graph.now }
    ensures text { IfOk result (λ text. IsEdgeText stated.entry.source.now.image stated.entry.statement.now
        stated.entry.graph.now number (string_bytes text)) }
    ensures fault { IfErr result (λ fault. (fault ≡ ReportFault.Memory)
        ⊎ IsEdgeRefused stated.entry.source.now.image stated.entry.graph.now number fault) }
{
    let Some(edge) = edge_at(stated.graph, number) else {
        return Err(ReportFault::NoSuchEdge);
    };
    if let Some(fault) = fault_of(&stated.source.image, edge) {
        return Err(fault);
    }
    let file = tight_file(alloc, stated, number, edge)?;
    let text = file_text(alloc, edge, &file)?;
    Ok(text)
}

/// An edge of the flow graph of a handler, by its number, from 0, in the order of the graph's edges.
#[derive(Clone, Copy)]
pub struct AskedEdge<'a> {
    /// The bytes of the handler's source, a text or an image.
    pub source: SourceFile<'a>,
    /// The text of the statement on it.
    pub statement: &'a [u8],
    pub number: u32,
}

// The report of an edge of the source's graph.
fn graph_edge(
    alloc: Global,
    asked: AskedEdge<'_>,
    stated: StatedGraph<'_>,
) -> Result<String, ReportFault>
    requires said { IsSource (file_of asked.source) stated.source.now }
    requires graph { HasGraph (file_of asked.source) asked.statement.now stated.graph.now.profile
        stated.statement.now stated.graph.now }
    ensures report { IfOk result (λ text. IsTightReport (file_of asked.entry.source) asked.entry.statement.now
        asked.entry.number stated.entry.graph.now.profile (string_bytes text)) }
    ensures fault { IfErr result
        (BeforeOutput (IsTightRefused (file_of asked.entry.source) asked.entry.statement.now
        asked.entry.number stated.entry.graph.now.profile)) }
    ensures alone { IfErr result ComesAlone }
{
    edge_text(alloc, stated, asked.number)
}

// The statement and the graph of a source that was read. The handler's loops may be refused.
fn source_graph<'a>(
    alloc: Global,
    said: &Source<'_>,
    asked: AskedEdge<'a>,
    profile: &Profile,
) -> Result<(Statement, Graph), Stop<'a>>
    requires { IsSource (file_of asked.source) said.now }
    ensures graph { IfOk result
        (λ g. HasGraph (file_of asked.entry.source) asked.entry.statement.now profile.now g.0 g.1) }
    ensures fault { IfErr result
        (λ s. BeforeOutput (IsTightRefused (file_of asked.entry.source) asked.entry.statement.now
        asked.entry.number profile.now) (stop_fault s)) }
    ensures carries { IfErr result (Carries said.now asked.entry.statement.now profile.now) }
{
    match read_handler(alloc, said, asked.statement, profile) {
        Ok(handler) => Ok((handler.statement, handler.graph)),
        Err(Stop::Loops(statement, graph, _)) => Ok((statement, graph)),
        Err(stop) => Err(stop),
    }
}

// The report of an edge of a source that was read.
fn source_edge<'a>(
    alloc: Global,
    said: &Source<'_>,
    asked: AskedEdge<'a>,
    profile: &Profile,
) -> Result<String, Stop<'a>>
    requires { IsSource (file_of asked.source) said.now }
    ensures report { IfOk result (λ text. IsTightReport (file_of asked.entry.source) asked.entry.statement.now
        asked.entry.number profile.now (string_bytes text)) }
    ensures fault { IfErr result
        (λ s. BeforeOutput (IsTightRefused (file_of asked.entry.source) asked.entry.statement.now
        asked.entry.number profile.now) (stop_fault s)) }
    ensures carries { IfErr result (Carries said.now asked.entry.statement.now profile.now) }
{
    let (statement, graph) = source_graph(alloc, said, asked, profile)?;
    let stated = StatedGraph {
        source: said,
        statement: &statement,
        graph: &graph,
    };
    Ok(graph_edge(alloc, asked, stated)?)
}

// The report of an edge.
fn read_edge<'a>(
    alloc: Global,
    asked: AskedEdge<'a>,
    profile: &Profile,
) -> Result<String, Refusal<'a>>
    ensures report { IfOk result (λ text. IsTightReport (file_of asked.entry.source) asked.entry.statement.now
        asked.entry.number profile.now (string_bytes text)) }
    ensures fault { IfErr (fault_only result)
        (BeforeOutput (IsTightRefused (file_of asked.entry.source) asked.entry.statement.now
        asked.entry.number profile.now)) }
    ensures carries { IfErr result
        (CarriesRead (file_of asked.entry.source) (asked.entry.statement.now ∷ []) profile.now) }
{
    let said = read_source(alloc, asked.source)?;
    let text = source_edge(alloc, &said, asked, profile);
    with_source(said, text)
}

/// Writes a machine file whose machine takes an edge of the handler's flow graph in one step, at exactly the
/// cost, in ticks, that the edge has in the graph by a cycle profile's file or the first profile. The edge is
/// that of the number, from 0, in the order of the graph's edges; a comment in front of the file shows it, as
/// `# edge ADDRESS skip|do TO COST`. `run_report` of the same source, file and profile reports a run of one
/// step of that cost.
///
/// # Errors
///
/// The first in the order of the work: profile, source, statement, graph; `NoSuchEdge`, `NotFree` with the
/// address that the edge leaves ([`is_free`](flow_graph::is_free) says which edges are free), and `Load` with
/// `NoPage` where a word of the image lies from 2400000 to 2FFFFFF. The handler's loops are not looked at.
/// After any but `Device` nothing was written.
pub fn tight_report<O: Output>(
    alloc: Global,
    source: SourceFile<'_>,
    statement: &[u8],
    edge: u32,
    profile: Option<&[u8]>,
    out: &mut O,
) -> Result<(), ReportFault>
    ensures { Priced (given profile.entry)
        (λ p. ReportsTight O.taken O.failures (file_of source.entry) statement.now edge p out.old out.new
        result) out.old out.new result }
{
    let asked = AskedEdge {
        source,
        statement,
        number: edge,
    };
    fault_only(print_tight(alloc, asked, profile, out))
}

/// As [`tight_report`]; a refusal comes with what its fault was found in.
///
/// # Errors
///
/// Those of [`tight_report`].
pub fn print_tight<'a, O: Output>(
    alloc: Global,
    asked: AskedEdge<'a>,
    profile: Option<&'a [u8]>,
    out: &mut O,
) -> Result<(), Refusal<'a>>
    ensures answers { Priced (given profile.entry)
        (λ p. ReportsTight O.taken O.failures (file_of asked.entry.source) asked.entry.statement.now
        asked.entry.number p out.old out.new (fault_only result)) out.old out.new (fault_only result) }
    ensures carries { IfErr result (CarriesReadBy (given profile.entry) (file_of asked.entry.source)
        (asked.entry.statement.now ∷ [])) }
{
    let profile = profile_of(alloc, profile)?;
    let text = read_edge(alloc, asked, &profile)?;
    print_or_refuse((), text.as_bytes(), out)
}
