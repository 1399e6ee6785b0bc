//! Which entries of a statement follow from its handler's code.

ghost use Rattle.std.specs.Prelude.{◌≡◌, ◌∷◌, [], ◌==◌, ◌||◌, ℕ, List, IfErr, IfOk, IfSome, not};
ghost use Rattle.control_flow.specs.Graph.{IsFlowGraph};
ghost use Rattle.loop_bounds.specs.Handler.{HasItsTree};
ghost use Rattle.known_places.specs.Destinations.{AreDestinations};
ghost use Rattle.known_places.specs.Endless.{AreEndless};
ghost use Rattle.known_places.specs.OnTrust.{Justifies};
ghost use Rattle.known_places.specs.Outside.{AreOutside};
ghost use Rattle.handlers.specs.Priced.{Priced, given};
ghost use Rattle.handlers.specs.Refusal.{Carries, CarriesRead, CarriesReadBy, ComesAlone, fault_only};
ghost use Rattle.handlers.specs.Refusal.{stop_fault};
ghost use Rattle.handlers.specs.Report.{BeforeOutput, HasLoops, IsRefused};
ghost use Rattle.sources.specs.File.{file_of};
ghost use Rattle.sources.specs.Source.{IsSource};
ghost use Rattle.justify_reports.specs.JustifyReport.{IsJustifyReport, IsJustifyText, ReportsJustified};
ghost use Rattle.justify_reports.specs.JustifyReport.{is_enough};

use crate::row_texts::put_row_texts;
use crate::rows::{Findings, Row, stated_rows};
use crate::summary::{Summary, false_count, follows_count, put_facts, put_summary};
use bus_ticks::Profile;
use control_flow::graphs_are_well_formed;
use flow_graph::run_law;
use handlers::{
    Handler, Refusal, ReportFault, Stop, longest_of, print_or_refuse, profile_of, read_handler,
    read_source, with_source,
};
use known_places::{
    Destination, OnTrust, destinations, endless_loops, left_on_trust, outside_classes, proposed,
};
use known_words::{Given, Knowledge, Range};
use outputs::Output;
use sources::{Source, SourceFile};
use std::alloc::{AllocError, Global};

/// A handler of whose statement it is asked what follows from the code.
#[derive(Clone, Copy)]
pub struct JustifiedHandler<'a, 'g> {
    /// The bytes of its source, a text or an image.
    pub source: SourceFile<'a>,
    /// The text of the statement on it.
    pub statement: &'a [u8],
    /// What is given of the registers at its entry.
    pub given: &'g [Given],
    /// Whether all entries are to follow.
    pub all: bool,
}

// The text of a report, and whether enough follows.
#[derive(Drop)]
struct Justified {
    enough: bool,
    text: Vec<u8>,
}

fn is_enough(all: bool, rows: &[Row]) -> bool
    ensures { result ≡ is_enough all rows.now }
{
    false_count(rows) == 0 && (!all || follows_count(rows) == rows.len())
}

// What is left on trust, `None` where nothing is seen to follow; where the word of each place goes, and where
// it goes outside of its class; and which instances of loops no run leaves.
#[derive(Drop)]
struct Seen {
    left: Option<OnTrust>,
    destinations: Vec<Destination>,
    outside: Vec<Option<Range>>,
    endless: Vec<bool>,
}

fn destinations_of(
    alloc: Global,
    handler: &Handler<'_>,
    given: &[Given],
    table: &[Knowledge],
) -> Result<Vec<Destination>, AllocError>
    requires graph { IsFlowGraph handler.now.image.now handler.now.statement handler.now.graph.profile
        handler.now.graph }
    requires tree { HasItsTree handler.now }
    ensures { IfOk result (λ found. AreDestinations handler.now.image.now handler.now.statement
        handler.now.graph handler.now.tree given.now found.items) }
{
    match destinations(alloc, handler, given, table)? {
        Some(found) => Ok(found),
        None => Ok(Vec::new(alloc)),
    }
}

fn outside_of(
    alloc: Global,
    handler: &Handler<'_>,
    given: &[Given],
    table: &[Knowledge],
) -> Result<Vec<Option<Range>>, AllocError>
    requires graph { IsFlowGraph handler.now.image.now handler.now.statement handler.now.graph.profile
        handler.now.graph }
    requires tree { HasItsTree handler.now }
    ensures { IfOk result (λ found. AreOutside handler.now.image.now handler.now.statement
        handler.now.graph handler.now.tree given.now found.items) }
{
    match outside_classes(alloc, handler, given, table)? {
        Some(found) => Ok(found),
        None => Ok(Vec::new(alloc)),
    }
}

fn endless_of(
    alloc: Global,
    handler: &Handler<'_>,
    given: &[Given],
    table: &[Knowledge],
) -> Result<Vec<bool>, AllocError>
    requires graph { IsFlowGraph handler.now.image.now handler.now.statement handler.now.graph.profile
        handler.now.graph }
    requires tree { HasItsTree handler.now }
    ensures { IfOk result (λ found. AreEndless handler.now.image.now handler.now.statement
        handler.now.graph handler.now.tree given.now found.items) }
{
    match endless_loops(alloc, handler, given, table)? {
        Some(found) => Ok(found),
        None => Ok(Vec::new(alloc)),
    }
}

fn seen_of(alloc: Global, handler: &Handler<'_>, given: &[Given]) -> Result<Seen, AllocError>
    requires graph { IsFlowGraph handler.now.image.now handler.now.statement handler.now.graph.profile
        handler.now.graph }
    requires tree { HasItsTree handler.now }
    ensures left { IfOk result (λ seen. IfSome seen.left
        (Justifies handler.now.image.now handler.now.statement handler.now.graph given.now)) }
    ensures goes { IfOk result (λ seen. AreDestinations handler.now.image.now handler.now.statement
        handler.now.graph handler.now.tree given.now seen.destinations.items) }
    ensures outside { IfOk result (λ seen. AreOutside handler.now.image.now handler.now.statement
        handler.now.graph handler.now.tree given.now seen.outside.items) }
    ensures endless { IfOk result (λ seen. AreEndless handler.now.image.now handler.now.statement
        handler.now.graph handler.now.tree given.now seen.endless.items) }
{
    let table = proposed(alloc, handler, given)?;
    let left = left_on_trust(alloc, handler, given, &table)?;
    let destinations = destinations_of(alloc, handler, given, &table)?;
    let outside = outside_of(alloc, handler, given, &table)?;
    let endless = endless_of(alloc, handler, given, &table)?;
    Ok(Seen {
        left,
        destinations,
        outside,
        endless,
    })
}

fn text_of(alloc: Global, read: &Source<'_>, summary: Summary<'_>) -> Result<Vec<u8>, AllocError>
    ensures { IfOk result
        (λ text. IsJustifyText read.now summary.entry.given.now summary.entry.left.now
        summary.entry.rows.now summary.entry.bound summary.entry.price text.items) }
{
    let mut text = Vec::new(alloc);
    put_facts(&mut text, summary.given)?;
    put_row_texts(&mut text, read, summary.rows)?;
    put_summary(&mut text, summary)?;
    Ok(text)
}

// The report on a handler that was read.
fn handler_justified(
    alloc: Global,
    justified: JustifiedHandler<'_, '_>,
    said: &Source<'_>,
    handler: &Handler<'_>,
    profile: &Profile,
) -> Result<Justified, ReportFault>
    requires said { IsSource (file_of justified.source) said.now }
    requires image { handler.now.image.now ≡ said.now.image }
    requires loops { HasLoops (file_of justified.source) justified.statement.now profile.now
        handler.now.statement handler.now.graph }
    requires tree { HasItsTree handler.now }
    ensures shows { IfOk result
        (λ j. IsJustifyReport (file_of justified.entry.source) justified.entry.statement.now
        justified.entry.given.now justified.entry.all profile.now j.enough j.text.items) }
    ensures fault { IfErr result (BeforeOutput
        (IsRefused (file_of justified.entry.source) justified.entry.statement.now profile.now)) }
    ensures alone { IfErr result ComesAlone }
{
    let found = longest_of(alloc, handler)?;
    let seen = seen_of(alloc, handler, justified.given)?;
    let findings = Findings {
        trusted: &seen.left,
        destinations: &seen.destinations,
        outside: &seen.outside,
        endless: &seen.endless,
    };
    let rows = stated_rows(alloc, handler, findings)?;
    graphs_are_well_formed(&handler.graph);
    run_law();
    let summary = Summary {
        left: &seen.left,
        rows: &rows,
        given: justified.given,
        bound: found.bound,
        price: profile.burst,
    };
    let text = text_of(alloc, said, summary)?;
    Ok(Justified {
        enough: is_enough(justified.all, &rows),
        text,
    })
}

// The report on the handler of a source that was read.
fn source_justified<'a>(
    alloc: Global,
    justified: JustifiedHandler<'a, '_>,
    said: &Source<'_>,
    profile: &Profile,
) -> Result<Justified, Stop<'a>>
    requires { IsSource (file_of justified.source) said.now }
    ensures shows { IfOk result
        (λ j. IsJustifyReport (file_of justified.entry.source) justified.entry.statement.now
        justified.entry.given.now justified.entry.all profile.now j.enough j.text.items) }
    ensures fault { IfErr result (λ s. BeforeOutput
        (IsRefused (file_of justified.entry.source) justified.entry.statement.now profile.now)
        (stop_fault s)) }
    ensures carries { IfErr result (Carries said.now justified.entry.statement.now profile.now) }
{
    let handler = read_handler(alloc, said, justified.statement, profile)?;
    Ok(handler_justified(alloc, justified, said, &handler, profile)?)
}

// The report on a source's handler.
fn read_justified<'a>(
    alloc: Global,
    justified: JustifiedHandler<'a, '_>,
    profile: &Profile,
) -> Result<Justified, Refusal<'a>>
    ensures shows { IfOk result
        (λ j. IsJustifyReport (file_of justified.entry.source) justified.entry.statement.now
        justified.entry.given.now justified.entry.all profile.now j.enough j.text.items) }
    ensures fault { IfErr (fault_only result) (BeforeOutput
        (IsRefused (file_of justified.entry.source) justified.entry.statement.now profile.now)) }
    ensures carries { IfErr result
        (CarriesRead (file_of justified.entry.source) (justified.entry.statement.now ∷ []) profile.now) }
{
    let said = read_source(alloc, justified.source)?;
    let found = source_justified(alloc, justified, &said, profile);
    with_source(said, found)
}

/// Writes which entries of a statement follow from its handler's code, by a cycle profile's file or by the
/// first profile: the facts that are given of the registers at the entry; a row for each load or store that
/// has a stated class, by its address, for each word that returns or leaves, by its address, and for each
/// stated loop, in the statement's order, with what is stated or where the word goes, `follows`, `ON TRUST`
/// or `FALSE`, and the line in the source; then how many follow; then the bound, in ticks, of each run that
/// begins as given and keeps what is on trust. Each entry that follows is proved to hold in each such run,
/// whether it ends or not. Answers no where one is false, or all are to follow and one does not, and else
/// yes.
///
/// # Errors
///
/// Those of `bound_report`. After any but `Device` nothing was written.
pub fn justify_report<'a, O: Output>(
    alloc: Global,
    justified: JustifiedHandler<'a, '_>,
    profile: Option<&'a [u8]>,
    out: &mut O,
) -> Result<bool, Refusal<'a>>
    ensures answers { Priced (given profile.entry)
        (λ p. ReportsJustified O.taken O.failures (file_of justified.entry.source)
        justified.entry.statement.now
        justified.entry.given.now justified.entry.all p out.old out.new (fault_only result)) out.old out.new
        (fault_only result) }
    ensures carries { IfErr result (CarriesReadBy (given profile.entry) (file_of justified.entry.source)
        (justified.entry.statement.now ∷ [])) }
{
    let profile = profile_of(alloc, profile)?;
    let found = read_justified(alloc, justified, &profile)?;
    print_or_refuse(found.enough, &found.text, out)
}
