ghost use Rattle.std.specs.Prelude.{◌≡◌, ◌⊎◌, ◌∷◌, [], List, ℕ, None, Some, IfErr, IfOk, OnOk, option_map};
ghost use Rattle.handlers.specs.Priced.{Priced, given};
ghost use Rattle.handlers.specs.FiqHandler.{AreApart, IsFiqRefused, IsFiqsRefused, fiq_bytes};
ghost use Rattle.handlers.specs.Meeting.{SourcesShare};
ghost use Rattle.handlers.specs.Refusal.{Carries, CarriesBy, CarriesReadOf, fault_only};
ghost use Rattle.handlers.specs.Refusal.{refusal_fault, stop_fault};
ghost use Rattle.handlers.specs.Report.{BeforeOutput, IsRefused};
ghost use Rattle.sources.specs.Source.{IsSource, Says};
ghost use Rattle.handlers.specs.VisitStops.{refusal_on};
ghost use Rattle.bound_reports.specs.VisitsReport.{AreJoined, AreRefused, AreTooMany, HasBound};
ghost use Rattle.bound_reports.specs.VisitsReport.{HasFiqBound, IsVisitsReport, ReportsVisits, parts_of};
ghost use Rattle.sources.specs.File.{File, file_of};

use crate::bound::{BoundReport, longest_report};
use crate::visit_rate::{VisitRate, most_visits};
use crate::visits_summary::put_summary;
use bus_ticks::Profile;
use handlers::{
    Refusal, ReportFault, Stop, VisitStop, VisitedBound, fiq_handler, print_or_refuse, profile_of,
    read_apart, read_handler, read_source, refused_on, with_source,
};
use longest_walk::WalkFault;
use outputs::Output;
use sources::{Source, SourceFile};
use std::alloc::Global;

/// An interrupt handler, FIQ's, and how often FIQ interrupts it.
#[derive(Clone, Copy)]
pub struct VisitedHandler<'a> {
    /// The bytes of the source of the interrupted handler, a text or an image.
    pub source: SourceFile<'a>,
    /// The text of the statement on that handler.
    pub irq: &'a [u8],
    /// The bytes of the source of FIQ's handler, where it is another one. Both are loaded at the same time.
    pub fiq_source: Option<SourceFile<'a>>,
    /// The text of the statement on FIQ's handler.
    pub fiq: &'a [u8],
    /// How often FIQ interrupts the handler.
    pub rate: VisitRate,
}

// Whether the interrupted handler ends, and the report.
#[derive(Drop)]
struct VisitsText {
    ends: bool,
    text: Vec<u8>,
}

// The report of the interrupted handler.
fn irq_report<'a>(
    alloc: Global,
    said: &Source<'_>,
    statement: &'a [u8],
    profile: &Profile,
) -> Result<BoundReport, Stop<'a>>
    ensures report { (source : File) → Says source said.now
        → IfOk result (λ r. HasBound source statement.now profile.now r.bound r.text.items) }
    ensures fault { (source : File) → Says source said.now
        → IfErr result (λ s. BeforeOutput (IsRefused source statement.now profile.now) (stop_fault s)) }
    ensures carries { IfErr result (Carries said.now statement.now profile.now) }
{
    let handler = read_handler(alloc, said, statement, profile)?;
    Ok(longest_report(alloc, &handler)?)
}

// The report of FIQ's handler.
fn fiq_report<'a>(
    alloc: Global,
    said: &Source<'_>,
    statement: &'a [u8],
    profile: &Profile,
) -> Result<BoundReport, Stop<'a>>
    ensures report { (source : File) → Says source said.now
        → IfOk result (λ r. HasFiqBound source statement.now profile.now r.bound r.text.items) }
    ensures fault { (source : File) → Says source said.now
        → IfErr result (λ s. BeforeOutput (IsFiqRefused source statement.now profile.now) (stop_fault s)) }
    ensures carries { IfErr result (Carries said.now statement.now profile.now) }
{
    let handler = fiq_handler(alloc, said, statement, profile)?;
    Ok(longest_report(alloc, &handler)?)
}

// The same of its own source's bytes, whose words have to be apart from those of the source that was read
// first.
fn own_report<'a>(
    alloc: Global,
    said: &Source<'_>,
    own: SourceFile<'a>,
    statement: &'a [u8],
    profile: &Profile,
) -> Result<BoundReport, Refusal<'a>>
    ensures apart { (source : File) → Says source said.now
        → OnOk result (SourcesShare source (file_of own.entry) None) }
    ensures report { IfOk result
        (λ r. HasFiqBound (file_of own.entry) statement.now profile.now r.bound r.text.items) }
    ensures fault { (source : File) → Says source said.now
        → IfErr (fault_only result)
        (BeforeOutput (IsFiqsRefused source (Some (file_of own.entry)) statement.now profile.now)) }
    ensures carries { IfErr result (CarriesReadOf ((file_of own.entry, statement.now) ∷ []) profile.now) }
{
    let read = read_apart(alloc, said, own)?;
    let report = fiq_report(alloc, &read, statement, profile);
    with_source(read, report)
}

// The report of FIQ's handler, on the source that was read first or on its own.
fn fiqs_report<'a>(
    alloc: Global,
    said: &Source<'_>,
    asked: VisitedHandler<'a>,
    profile: &Profile,
) -> Result<BoundReport, VisitStop<'a>>
    ensures apart { (source : File) → Says source said.now
        → OnOk result (AreApart source (option_map file_of asked.entry.fiq_source)) }
    ensures report { (source : File) → Says source said.now
        → IfOk result (λ r. HasFiqBound (fiq_bytes source (option_map file_of asked.entry.fiq_source))
        asked.entry.fiq.now profile.now r.bound r.text.items) }
    ensures fault { (source : File) → Says source said.now
        → IfErr result
        (λ s. BeforeOutput (IsFiqsRefused source (option_map file_of asked.entry.fiq_source)
        asked.entry.fiq.now profile.now) (refusal_fault (refusal_on said.now s))) }
    ensures carries { (source : File) → IsSource source said.now
        → IfErr result (λ s. CarriesReadOf
        ((fiq_bytes source (option_map file_of asked.entry.fiq_source), asked.entry.fiq.now) ∷ []) profile.now
        (refusal_on said.now s)) }
{
    match asked.fiq_source {
        Some(own) => Ok(own_report(alloc, said, own, asked.fiq, profile)?),
        None => Ok(fiq_report(alloc, said, asked.fiq, profile)?),
    }
}

// The summary and both reports.
fn joined_text(
    alloc: Global,
    profile: &Profile,
    rate: VisitRate,
    irq: &BoundReport,
    fiq: &BoundReport,
) -> Result<VisitsText, ReportFault>
    ensures text { IfOk result (λ v. AreJoined rate profile.now irq.now.bound fiq.now.bound
        irq.now.text.items fiq.now.text.items v.ends v.text.items) }
    ensures fault { IfErr result (λ e. (e ≡ ReportFault.Memory)
        ⊎ ((e ≡ ReportFault.Walk WalkFault.BoundTooLarge)
        × AreTooMany rate profile.now irq.now.bound fiq.now.bound)) }
{
    let bound = VisitedBound {
        irq: irq.bound,
        fiq: fiq.bound,
    };
    let most = most_visits(bound, profile, rate)?;
    let mut text = Vec::new(alloc);
    put_summary(&mut text, bound, profile, rate, most)?;
    text.extend_from_slice(&irq.text)?;
    text.extend_from_slice(&fiq.text)?;
    Ok(VisitsText {
        ends: most.is_some(),
        text,
    })
}

// The report of a source that was read, with FIQ's own source if there is one.
fn source_visits<'a>(
    alloc: Global,
    said: &Source<'_>,
    asked: VisitedHandler<'a>,
    profile: &Profile,
) -> Result<VisitsText, VisitStop<'a>>
    ensures report { (source : File) → Says source said.now
        → IfOk result (λ v. IsVisitsReport source (option_map file_of asked.entry.fiq_source)
        asked.entry.irq.now asked.entry.fiq.now asked.entry.rate profile.now v.ends v.text.items) }
    ensures fault { (source : File) → Says source said.now
        → IfErr result
        (λ s. BeforeOutput (AreRefused source (option_map file_of asked.entry.fiq_source) asked.entry.irq.now
        asked.entry.fiq.now asked.entry.rate profile.now) (refusal_fault (refusal_on said.now s))) }
    ensures carries { (source : File) → IsSource source said.now
        → IfErr result (λ s. CarriesReadOf
        (parts_of source (option_map file_of asked.entry.fiq_source) asked.entry.irq.now asked.entry.fiq.now)
        profile.now (refusal_on said.now s)) }
{
    let irq = irq_report(alloc, said, asked.irq, profile)?;
    let fiq = fiqs_report(alloc, said, asked, profile)?;
    Ok(joined_text(alloc, profile, asked.rate, &irq, &fiq)?)
}

// The report of the sources' bytes.
fn read_visits<'a>(
    alloc: Global,
    asked: VisitedHandler<'a>,
    profile: &Profile,
) -> Result<VisitsText, Refusal<'a>>
    ensures report { IfOk result
        (λ v. IsVisitsReport (file_of asked.entry.source) (option_map file_of asked.entry.fiq_source)
        asked.entry.irq.now asked.entry.fiq.now asked.entry.rate profile.now v.ends v.text.items) }
    ensures fault { IfErr (fault_only result)
        (BeforeOutput (AreRefused (file_of asked.entry.source) (option_map file_of asked.entry.fiq_source)
        asked.entry.irq.now asked.entry.fiq.now asked.entry.rate profile.now)) }
    ensures carries { IfErr result (CarriesReadOf
        (parts_of (file_of asked.entry.source) (option_map file_of asked.entry.fiq_source) asked.entry.irq.now
        asked.entry.fiq.now) profile.now) }
{
    let said = read_source(alloc, asked.source)?;
    let text = source_visits(alloc, &said, asked, profile);
    refused_on(said, text)
}

/// Writes the report of an interrupt handler that FIQ interrupts, by a cycle profile's file or the first
/// profile: how often FIQ comes, and for how long it may have waited; the most visits, the bounds of both
/// handlers, the greatest price of taking FIQ and the total, in ticks, and then the report of each
/// statement as [`bound_report`](crate::bound_report) writes it. No run of the machine that keeps both
/// statements with at most so many visits takes more than the total, but for the profile's burst price for
/// each DMA burst; nor does one in which FIQ is asked for at most once in the ticks of [`VisitRate::Every`],
/// for which the most visits are the fewest after which none comes before the end. Answers whether there
/// is an end: where visits come so often that there is none, the report says so in place of the most
/// visits and the total.
///
/// Nothing is written until the report is finished.
///
/// # Errors
///
/// Of several faults the first in the order of the work is answered: profile, source, the handler's
/// statement, graph, loops and walk; FIQ's own source, `WordsMeet` where it has a word at an address of the
/// other one, and the faults of FIQ's handler with `NotFiqEntry` after its statement; and last `Walk` with
/// `BoundTooLarge` for the total. `Device`: the output failed, and took a front of the report. `Memory`: an
/// allocation failed. After any but `Device` nothing was written. Each comes with what it was found in.
pub fn visits_report<'a, O: Output>(
    alloc: Global,
    asked: VisitedHandler<'a>,
    profile: Option<&'a [u8]>,
    out: &mut O,
) -> Result<bool, Refusal<'a>>
    ensures answers { Priced (given profile.entry)
        (λ p. ReportsVisits O.taken O.failures (file_of asked.entry.source)
        (option_map file_of asked.entry.fiq_source)
        asked.entry.irq.now asked.entry.fiq.now asked.entry.rate p out.old out.new (fault_only result))
        out.old out.new (fault_only result) }
    ensures carries { IfErr result (CarriesBy (given profile.entry) (CarriesReadOf
        (parts_of (file_of asked.entry.source) (option_map file_of asked.entry.fiq_source) asked.entry.irq.now
        asked.entry.fiq.now))) }
{
    let profile = profile_of(alloc, profile)?;
    let found = read_visits(alloc, asked, &profile)?;
    print_or_refuse(found.ends, &found.text, out)
}
