//! Where the ticks of a handler's greatest run time go.

ghost use Rattle.std.specs.Prelude.{◌≡◌, ◌∷◌, [], ℕ, List, IfErr, IfOk, true};
ghost use Rattle.bus_ticks.specs.declared.profile.Profile.{Profile};
ghost use Rattle.text_explained.specs.Costing.{first_of};
ghost use Rattle.text_explained.specs.Table.{starts_of};
ghost use Rattle.loop_bounds.specs.Handler.{HasItsTree};
ghost use Rattle.control_flow.specs.Flow.{Flow};
ghost use Rattle.explain_reports.specs.ExplainReport.{Explains, IsExplanation, IsFullExplanation};
ghost use Rattle.explain_reports.specs.ExplainReport.{IsTextOf, is_enough};
ghost use Rattle.explain_reports.specs.FirstStarts.{AreAskedFirst};
ghost use Rattle.longest_walk.specs.Folded.{unfolded};
ghost use Rattle.sources.specs.Lines.{AreLines};
ghost use Rattle.handlers.specs.Priced.{Priced, given};
ghost use Rattle.handlers.specs.Refusal.{Carries, CarriesRead, CarriesReadBy, ComesAlone, fault_only};
ghost use Rattle.handlers.specs.Refusal.{stop_fault};
ghost use Rattle.handlers.specs.Report.{BeforeOutput, HasGraph, HasLoops, IsRefused};
ghost use Rattle.sources.specs.Source.{IsSource, Says};
ghost use Rattle.sources.specs.File.{File, file_of};

use crate::each::each_lines;
use crate::first_starts::asked_first;
use bus_ticks::Profile;
use control_flow::graphs_are_well_formed;
use flow_graph::run_law;
use handlers::{
    Handler, Refusal, ReportFault, Stop, longest_of, print_or_refuse, profile_of, read_handler,
    read_source, with_source,
};
use longest_walk::worst_starts;
use outputs::Output;
use sources::{Source, SourceFile};
use statement::Statement;
use std::alloc::{AllocError, Global};
use std::collections::BTreeMap;
use text_explained::{
    Bursts, CountedWalk, RowForm, WorstStarts, assumed_text, burst_lines, cost_table, idle_entries,
    latest_starts_are_of_walks, loop_sums, places_are_listed_once, routine_sums, rule_lines,
    totals_are_the_bound,
};
use text_masked::masks_text;
use text_rows::SourceLine;
use text_savings::savings_text;
use walk_contradictions::contradiction_text;
use walk_counts::edge_counts;

/// How the table of an explanation is printed.
#[derive(Clone, Copy)]
pub struct TableForm {
    /// Whether it has the ticks by which the words begin for the first time at the latest, each of which
    /// takes a search of its own.
    pub first: bool,
    /// Which of its rows are printed, and how.
    pub rows: RowForm,
}

/// A handler whose bound is explained.
#[derive(Clone, Copy)]
pub struct Explained<'a> {
    /// The bytes of its source, a text or an image.
    pub source: SourceFile<'a>,
    /// The text of the statement on it.
    pub statement: &'a [u8],
    /// The most ticks that its bound, without bursts, may have to be enough; for `None` any bound is.
    pub at_most: Option<u64>,
    /// The DMA bursts with which its bound is printed too.
    pub bursts: Bursts,
    /// How the table is printed.
    pub form: TableForm,
    /// Whether its bound for each destination of each target alone is printed too.
    pub each: bool,
}

// What an explanation is made by: the profile, the bursts, how the table is printed, and first starts, if
// that asks for them.
#[derive(Clone, Copy)]
struct Means<'p, 'f> {
    profile: &'p Profile,
    bursts: Bursts,
    form: TableForm,
    first: Option<&'f BTreeMap<u32, u64>>,
}

// A greatest walk with the worst starts of its graph's places, the lines of the source by the addresses of
// their words, which rows of its table are printed, and the bursts that are added to its cost, by the
// profile's price of one.
#[derive(Clone, Copy)]
struct BurstWalk<'w, 'a, 't, 'p, 's> {
    starts: WorstStarts<'t>,
    counted: CountedWalk<'w, 'a>,
    lines: &'w BTreeMap<u32, SourceLine<'s>>,
    rows: RowForm,
    profile: &'p Profile,
    bursts: Bursts,
}

// A bound, in ticks, and the text that explains it.
#[derive(Drop)]
struct Explanation {
    bound: u64,
    text: Vec<u8>,
}

fn is_enough(at_most: Option<u64>, bound: u64) -> bool
    ensures { result ≡ is_enough at_most bound }
{
    match at_most {
        Some(most) => bound <= most,
        None => true,
    }
}

// The explanation by a greatest walk.
fn text_of(
    alloc: Global,
    read: &Source<'_>,
    walk: BurstWalk<'_, '_, '_, '_, '_>,
) -> Result<Vec<u8>, AllocError>
    requires image { walk.counted.handler.now.image.now ≡ read.now.image }
    requires tree { HasItsTree walk.counted.handler.now }
    requires lines { AreLines read.now walk.lines.now }
    ensures { IfOk result
        (λ text. IsTextOf read.now walk.entry.counted.handler.now.statement
        walk.entry.counted.handler.now.graph walk.entry.counted.longest.now
        (starts_of walk.entry.counted.handler.now.graph.places walk.entry.starts.latest.now
        (first_of walk.entry.starts.first))
        walk.entry.rows walk.entry.profile.now.burst walk.entry.bursts text.items) }
{
    let counted = walk.counted;
    let handler = counted.handler;
    let longest = counted.longest;
    let mut text = cost_table(alloc, read, counted, walk.starts, walk.rows)?;
    let mut rest = burst_lines(alloc, walk.profile, longest.bound, walk.bursts)?;
    let loops = loop_sums(alloc, walk.lines, counted)?;
    rest.extend_from_slice(&loops)?;
    let routines = routine_sums(alloc, walk.lines, counted)?;
    rest.extend_from_slice(&routines)?;
    let contradictions = contradiction_text(alloc, read, handler.image, &longest.walk)?;
    rest.extend_from_slice(&contradictions)?;
    let assumptions = assumed_text(alloc, read, handler)?;
    rest.extend_from_slice(&assumptions)?;
    let rules = rule_lines(alloc, handler)?;
    rest.extend_from_slice(&rules)?;
    let idle = idle_entries(alloc, handler)?;
    rest.extend_from_slice(&idle)?;
    let masks = masks_text(alloc, read, handler)?;
    rest.extend_from_slice(&masks)?;
    let saved = savings_text(alloc, read, walk.lines, counted)?;
    rest.extend_from_slice(&saved)?;
    text.extend_from_slice(&rest)?;
    Ok(text)
}

// The explanation of a handler that was read, with its source.
fn explanation_of(
    alloc: Global,
    read: &Source<'_>,
    means: Means<'_, '_>,
    handler: &Handler<'_>,
) -> Result<Explanation, ReportFault>
    requires image { handler.now.image.now ≡ read.now.image }
    requires tree { HasItsTree handler.now }
    requires first { AreAskedFirst handler.now.graph handler.now.statement.loops means.form.first
        (first_of means.first) }
    ensures explains { (source : File) (statement : List ℕ) → IsSource source read.now
        → HasLoops source statement means.entry.profile.now handler.now.statement handler.now.graph
        → IfOk result (λ e. IsExplanation source statement means.entry.bursts means.entry.form
        means.entry.profile.now e.bound e.text.items) }
    ensures fault { (source : File) (statement : List ℕ)
        → HasLoops source statement means.entry.profile.now handler.now.statement handler.now.graph
        → IfErr result (BeforeOutput (IsRefused source statement means.entry.profile.now)) }
    ensures alone { IfErr result ComesAlone }
{
    let found = longest_of(alloc, handler)?;
    let starts = worst_starts(alloc, &handler.graph, &handler.tree)?;
    graphs_are_well_formed(&handler.graph);
    places_are_listed_once();
    totals_are_the_bound();
    latest_starts_are_of_walks();
    run_law();
    let lines = read.lines(alloc)?;
    let counts = edge_counts(alloc, &handler.graph, &found.walk)?;
    let walk = BurstWalk {
        starts: WorstStarts {
            latest: &starts,
            first: means.first,
        },
        counted: CountedWalk {
            handler,
            longest: &found,
            counts: &counts,
        },
        lines: &lines,
        rows: means.form.rows,
        profile: means.profile,
        bursts: means.bursts,
    };
    let text = text_of(alloc, read, walk)?;
    Ok(Explanation {
        bound: found.bound,
        text,
    })
}

// The explanation, with first starts if they are asked for.
fn asked_explanation(
    alloc: Global,
    read: &Source<'_>,
    explained: Explained<'_>,
    profile: &Profile,
    handler: &Handler<'_>,
) -> Result<Explanation, ReportFault>
    requires image { handler.now.image.now ≡ read.now.image }
    requires tree { HasItsTree handler.now }
    ensures explains { (source : File) (statement : List ℕ) → IsSource source read.now
        → HasLoops source statement profile.now handler.now.statement handler.now.graph
        → IfOk result (λ e. IsExplanation source statement explained.entry.bursts explained.entry.form
        profile.now e.bound e.text.items) }
    ensures fault { (source : File) (statement : List ℕ)
        → HasLoops source statement profile.now handler.now.statement handler.now.graph
        → IfErr result (BeforeOutput (IsRefused source statement profile.now)) }
    ensures alone { IfErr result ComesAlone }
{
    let starts = asked_first(alloc, handler, explained.form.first)?;
    let first = starts.as_ref();
    let means = Means {
        profile,
        bursts: explained.bursts,
        form: explained.form,
        first,
    };
    explanation_of(alloc, read, means, handler)
}

// The explanation with the bounds for each destination of a target alone after it.
fn with_each(
    alloc: Global,
    read: &Source<'_>,
    statement: &mut Statement,
    profile: &Profile,
    found: Explanation,
) -> Result<Explanation, AllocError>
    ensures { (source : File) (text : List ℕ) (flow : Flow) (bursts : Bursts) (form : TableForm)
        → IsSource source read.now → HasGraph source text profile.now statement.old flow
        → IsExplanation source text bursts form profile.now found.bound found.text.items
        → IfOk result
        (λ e. IsFullExplanation source text bursts form true profile.now e.bound e.text.items) }
{
    let mut found = found;
    let each = each_lines(alloc, read, statement, profile)?;
    found.text.extend_from_slice(&each)?;
    Ok(found)
}

// The explanation of a handler that was read, with those bounds where they are asked for.
fn full_explanation(
    alloc: Global,
    read: &Source<'_>,
    explained: Explained<'_>,
    profile: &Profile,
    handler: &mut Handler<'_>,
) -> Result<Explanation, ReportFault>
    requires image { handler.now.image.now ≡ read.now.image }
    requires tree { HasItsTree handler.now }
    ensures explains { (source : File) (statement : List ℕ) → IsSource source read.now
        → HasLoops source statement profile.now handler.old.statement handler.old.graph
        → IfOk result (λ e. IsFullExplanation source statement explained.entry.bursts explained.entry.form
        explained.entry.each profile.now e.bound e.text.items) }
    ensures fault { (source : File) (statement : List ℕ)
        → HasLoops source statement profile.now handler.old.statement handler.old.graph
        → IfErr result (BeforeOutput (IsRefused source statement profile.now)) }
    ensures alone { IfErr result ComesAlone }
{
    let found = asked_explanation(alloc, read, explained, profile, handler)?;
    if !explained.each {
        return Ok(found);
    }
    Ok(with_each(alloc, read, &mut handler.statement, profile, found)?)
}

// The explanation of the handler of a source that was read.
fn source_explanation<'a>(
    alloc: Global,
    said: &Source<'_>,
    explained: Explained<'a>,
    profile: &Profile,
) -> Result<Explanation, Stop<'a>>
    ensures explains { (source : File) → IsSource source said.now
        → IfOk result (λ e. IsFullExplanation source explained.entry.statement.now explained.entry.bursts
        explained.entry.form explained.entry.each profile.now e.bound e.text.items) }
    ensures fault { (source : File) → Says source said.now
        → IfErr result (λ s. BeforeOutput (IsRefused source explained.entry.statement.now profile.now)
        (stop_fault s)) }
    ensures carries { IfErr result (Carries said.now explained.entry.statement.now profile.now) }
{
    let mut handler = read_handler(alloc, said, explained.statement, profile)?;
    Ok(full_explanation(alloc, said, explained, profile, &mut handler)?)
}

// The explanation of a source's handler.
fn read_explanation<'a>(
    alloc: Global,
    explained: Explained<'a>,
    profile: &Profile,
) -> Result<Explanation, Refusal<'a>>
    ensures explains { IfOk result
        (λ e. IsFullExplanation (file_of explained.entry.source) explained.entry.statement.now
        explained.entry.bursts explained.entry.form explained.entry.each profile.now e.bound e.text.items) }
    ensures fault { IfErr (fault_only result)
        (BeforeOutput (IsRefused (file_of explained.entry.source) explained.entry.statement.now
        profile.now)) }
    ensures carries { IfErr result
        (CarriesRead (file_of explained.entry.source) (explained.entry.statement.now ∷ []) profile.now) }
{
    let said = read_source(alloc, explained.source)?;
    let found = source_explanation(alloc, &said, explained, profile);
    with_source(said, found)
}

/// Writes where the ticks of a handler's greatest run time go, by a cycle profile's file or by the first
/// profile: a table by the lines of the source, or by the words of an image, with how often a greatest walk
/// passes each, the ticks of a pass and of all, the tick by which it begins for the first time at the latest,
/// if that is asked for, and by which it begins at all, and what the price takes for granted; then the bound,
/// in ticks and in microseconds; then the bound with DMA bursts, if any are given; then what is taken for
/// granted: words that count as returns but do not look like returns, words that leave the handler of an
/// interrupt and restore no flags, words that return by R14 after a call, or an address of the source, has
/// overwritten it, and loads and stores of which no class is stated; then how many words each rule for a base
/// register covers; then the entries of the statement without effect; then the longest step, and how long at
/// most the handler's own words mask interrupts at a time; and then what better entries would save; and then,
/// if it is asked for, the bound for each destination of each target alone, for each of which the handler is
/// bounded anew. Answers whether the bound is enough: without bursts at most so many ticks as are wanted.
///
/// # Errors
///
/// Those of `bound_report`. After any but `Device` nothing was written.
pub fn explain_report<'a, O: Output>(
    alloc: Global,
    explained: Explained<'a>,
    profile: Option<&'a [u8]>,
    out: &mut O,
) -> Result<bool, Refusal<'a>>
    ensures answers { Priced (given profile.entry)
        (λ p. Explains O.taken O.failures (file_of explained.entry.source) explained.entry.statement.now
        explained.entry.at_most explained.entry.bursts explained.entry.form explained.entry.each p out.old
        out.new (fault_only result)) out.old out.new (fault_only result) }
    ensures carries { IfErr result (CarriesReadBy (given profile.entry) (file_of explained.entry.source)
        (explained.entry.statement.now ∷ [])) }
{
    let profile = profile_of(alloc, profile)?;
    let found = read_explanation(alloc, explained, &profile)?;
    print_or_refuse(is_enough(explained.at_most, found.bound), &found.text, out)
}
