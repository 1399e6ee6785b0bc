//! Whether a machine's run keeps the statements of a handler and of FIQ's, which interrupts it.

ghost use Rattle.std.specs.Prelude.{◌≡◌, ◌<◌, ◌^◌, ◌++◌, ◌∷◌, [], ℕ, List, Option, IfErr, IfOk, true, false};
ghost use Rattle.bus_ticks.specs.declared.space.TheConstants.{FIQ_VECTOR};
ghost use Rattle.kept_runs.specs.Judging.{IsMachineFor};
ghost use Rattle.kept_runs.specs.Keeping.{IsHandler};
ghost use Rattle.longest_walk.specs.Visits.{visits_bound};
ghost use Rattle.follow_reports.specs.FollowText.{IsLeftText, IsLineNumberAt, strayed_text};
ghost use Rattle.follow_reports.specs.FollowVisits.{FollowsVisitedRun};
ghost use Rattle.follow_reports.specs.VisitedText.{never_text, visit_why_text};
ghost use Rattle.follow_reports.specs.VisitedWork.{IsBoundOf, IsRunText, IsVisitsJudged, IsVisitsRefusalOf};
ghost use Rattle.follow_reports.specs.VisitedWork.{IsVisitsReportOn};
ghost use Rattle.handlers.specs.FiqHandler.{IsFiqRefused};
ghost use Rattle.handlers.specs.Priced.{Priced, given};
ghost use Rattle.handlers.specs.Refusal.{ComesAlone, Carries, CarriesOneOf, CarriesRead, CarriesReadBy};
ghost use Rattle.handlers.specs.Refusal.{stop_fault, fault_only};
ghost use Rattle.handlers.specs.Report.{BeforeOutput, IsRefused};
ghost use Rattle.sources.specs.Source.{IsSource, Says};
ghost use Rattle.sources.specs.File.{File, file_of};

use crate::follow::{Judged, states_registers};
use crate::follow_text::{left_text, line_number_at, strayed_text};
use crate::visited_text::{kept_visits_text, never_text, visit_why_text};
use bus_ticks::{Profile, fiq_entry};
use handlers::{
    Handler, Placed, Refusal, ReportFault, Stop, fiq_handler, longest_of, place_image,
    print_or_refuse, profile_of, read_handler, read_source, with_source,
};
use kept_runs::{VisitUnkept, VisitedHandlers, VisitedRun, arrive, follow_visited};
use outputs::Output;
use sources::{Source, SourceFile};
use std::alloc::{AllocError, Global};

/// A handler, FIQ's, which interrupts it, and a machine whose run through both is judged.
#[derive(Clone, Copy)]
pub struct FollowedVisits<'a> {
    /// The bytes of the source of both, a text or an image.
    pub source: SourceFile<'a>,
    /// The text of the statement on the handler.
    pub statement: &'a [u8],
    /// That of the statement on FIQ's handler.
    pub fiq_statement: &'a [u8],
    /// The text of the machine file.
    pub machine: &'a [u8],
}

// A handler that was read, and its bound, in ticks.
#[derive(Drop)]
struct BoundedHandler<'s> {
    handler: Handler<'s>,
    bound: u64,
}

// Both handlers, with their source.
#[derive(Clone, Copy)]
struct Both<'a> {
    source: SourceFile<'a>,
    read: &'a Source<'a>,
    irq: &'a BoundedHandler<'a>,
    fiq: &'a BoundedHandler<'a>,
}

// How a run came out: its steps before the entry, what it did from there on, and the address, in bytes, where
// the machine is then.
#[derive(Clone, Copy)]
struct Outcome {
    before: usize,
    run: VisitedRun,
    after: u32,
}

// The handler that FIQ interrupts.
fn irq_bounded<'s, 'a>(
    alloc: Global,
    said: &'s Source<'_>,
    statement: &'a [u8],
    profile: &Profile,
) -> Result<BoundedHandler<'s>, Stop<'a>>
    ensures is { (source : File) → Says source said.now
        → IfOk result (IsBoundOf source statement.now profile.now) }
    ensures fault { (source : File) → Says source said.now
        → IfErr result (λ s. BeforeOutput (IsRefused source statement.now profile.now) (stop_fault s)) }
    ensures carries { IfErr result (Carries said.now statement.now profile.now) }
{
    let handler = read_handler(alloc, said, statement, profile)?;
    let longest = longest_of(alloc, &handler)?;
    let bound = longest.bound;
    Ok(BoundedHandler { handler, bound })
}

// FIQ's handler.
fn fiq_bounded<'s, 'a>(
    alloc: Global,
    said: &'s Source<'_>,
    statement: &'a [u8],
    profile: &Profile,
) -> Result<BoundedHandler<'s>, Stop<'a>>
    ensures is { (source : File) → Says source said.now
        → IfOk result (IsBoundOf source statement.now profile.now) }
    ensures entry { IfOk result (λ b. b.handler.statement.entry ≡ FIQ_VECTOR) }
    ensures fault { (source : File) → Says source said.now
        → IfErr result (λ s. BeforeOutput (IsFiqRefused source statement.now profile.now) (stop_fault s)) }
    ensures carries { IfErr result (Carries said.now statement.now profile.now) }
{
    let handler = fiq_handler(alloc, said, statement, profile)?;
    let longest = longest_of(alloc, &handler)?;
    let bound = longest.bound;
    Ok(BoundedHandler { handler, bound })
}

// The most ticks of both with so many visits.
fn visits_total(profile: &Profile, irq: u64, fiq: u64, visits: u64) -> u128
    requires { fiq < 2 ^ 63 }
    ensures { result ≡ visits_bound profile.now irq fiq visits }
{
    let visit = u128::from(fiq) + u128::from(fiq_entry(profile));
    u128::from(irq) + u128::from(visits) * visit
}

// The answer on a run whose step after so many strays.
fn strayed_run(
    alloc: Global,
    both: Both<'_>,
    steps: u128,
    at: u32,
    why: VisitUnkept,
) -> Result<Judged, AllocError>
    requires { IsSource (file_of both.source) both.read.now }
    ensures { IfOk result
        (λ j. (j.kept ≡ false)
        × ((line : Option ℕ) × IsLineNumberAt (file_of both.entry.source) at line
        × (j.text.items
        ≡ strayed_text steps at line (visit_why_text both.entry.irq.now.handler.statement
        both.entry.fiq.now.handler.statement at why)))) }
{
    let line = line_number_at(alloc, both.read, at)?;
    let irq = &both.irq.handler.statement;
    let fiq = &both.fiq.handler.statement;
    let why = visit_why_text(alloc, irq, fiq, at, why)?;
    let text = strayed_text(alloc, steps, at, line, why.as_str())?;
    Ok(Judged {
        kept: false,
        text: Vec::from_slice(alloc, text.as_bytes())?,
    })
}

// The answer on a run that keeps both statements, as this line says, and has gone on at the address.
fn kept_run(alloc: Global, both: Both<'_>, line: &str, at: u32) -> Result<Judged, AllocError>
    requires { IsSource (file_of both.source) both.read.now }
    ensures { IfOk result
        (λ j. (j.kept ≡ true)
        × ((left : List ℕ) × IsLeftText (file_of both.entry.source) both.entry.read.now.image at left
        × (j.text.items ≡ line.now ++ left))) }
{
    let left = left_text(alloc, both.read, at)?;
    let mut text = Vec::from_slice(alloc, line.as_bytes())?;
    text.extend_from_slice(&left)?;
    Ok(Judged { kept: true, text })
}

// The answer on a run that was followed.
fn run_answer(
    alloc: Global,
    both: Both<'_>,
    profile: &Profile,
    outcome: Outcome,
) -> Result<Judged, AllocError>
    requires read { IsSource (file_of both.source) both.read.now }
    requires small { both.fiq.now.bound < 2 ^ 63 }
    ensures { IfOk result
        (λ j. IsRunText (file_of both.entry.source) both.entry.read.now.image profile.now both.entry.irq.now
        both.entry.fiq.now outcome.before outcome.after outcome.run j.kept j.text.items) }
{
    match outcome.run {
        VisitedRun::Kept { ticks, visits, .. } => {
            let total = visits_total(profile, both.irq.bound, both.fiq.bound, visits);
            let line = kept_visits_text(alloc, ticks, visits, total)?;
            kept_run(alloc, both, line.as_str(), outcome.after)
        }
        VisitedRun::Strayed { steps, at, why } => {
            let steps = outcome.before as u128 + u128::from(steps);
            strayed_run(alloc, both, steps, at, why)
        }
    }
}

// The answer on a run that never comes to the entry.
fn never_answer(alloc: Global, entry: u32) -> Result<Judged, AllocError>
    ensures { IfOk result (λ j. (j.kept ≡ false) × (j.text.items ≡ never_text entry)) }
{
    let text = never_text(alloc, entry)?;
    Ok(Judged {
        kept: false,
        text: Vec::from_slice(alloc, text.as_bytes())?,
    })
}

// The answer on the run of a machine that has all its words.
fn visits_judged(
    alloc: Global,
    both: Both<'_>,
    profile: &Profile,
    placed: &mut Placed,
) -> Result<Judged, ReportFault>
    requires read { IsSource (file_of both.source) both.read.now }
    requires irq { IsHandler both.irq.now.handler.image.now both.irq.now.handler.statement
        both.irq.now.handler.graph both.irq.now.handler.tree }
    requires fiq { IsHandler both.fiq.now.handler.image.now both.fiq.now.handler.statement
        both.fiq.now.handler.graph both.fiq.now.handler.tree }
    requires prices { both.fiq.now.handler.graph.profile ≡ both.irq.now.handler.graph.profile }
    requires machine { IsMachineFor both.irq.now.handler.graph placed.old.machine }
    requires small { both.fiq.now.bound < 2 ^ 63 }
    ensures judged { IfOk result
        (λ j. IsVisitsJudged (file_of both.entry.source) both.entry.read.now.image profile.now
        both.entry.irq.now both.entry.fiq.now placed.old.file placed.old.machine j.kept j.text.items) }
    ensures fault { IfErr result (λ e. e ≡ ReportFault.Memory) }
{
    let inputs = placed.file.inputs(alloc)?;
    let entry = both.irq.handler.statement.entry();
    let Some(before) = arrive(&mut placed.machine, entry, &inputs) else {
        return Ok(never_answer(alloc, entry)?);
    };
    let handlers = VisitedHandlers {
        irq: &both.irq.handler,
        fiq: &both.fiq.handler,
    };
    let run = follow_visited(alloc, handlers, &mut placed.machine, &inputs[before..])?;
    let after = placed.machine.address();
    let outcome = Outcome { before, run, after };
    Ok(run_answer(alloc, both, profile, outcome)?)
}

// The answer on a machine's run through both handlers.
fn machine_run(
    alloc: Global,
    run: FollowedVisits<'_>,
    both: Both<'_>,
    profile: &Profile,
) -> Result<Judged, ReportFault>
    requires read { IsSource (file_of run.source) both.read.now }
    requires source { (file_of both.source) ≡ (file_of run.source) }
    requires irq { IsBoundOf (file_of run.source) run.statement.now profile.now both.irq.now }
    requires fiq { IsBoundOf (file_of run.source) run.fiq_statement.now profile.now both.fiq.now }
    requires entry { both.fiq.now.handler.statement.entry ≡ FIQ_VECTOR }
    ensures judged { IfOk result (λ j. IsVisitsReportOn run.entry profile.now j.kept j.text.items) }
    ensures fault { IfErr result (BeforeOutput (IsVisitsRefusalOf run.entry profile.now)) }
    ensures alone { IfErr result ComesAlone }
{
    let mut placed = place_image(alloc, both.read, run.machine, *profile)?;
    states_registers(&placed.file);
    visits_judged(alloc, both, profile, &mut placed)
}

// The answer on a run through the handlers of a source that was read.
fn source_run<'a>(
    alloc: Global,
    run: FollowedVisits<'a>,
    said: &Source<'_>,
    profile: &Profile,
) -> Result<Judged, Stop<'a>>
    requires { IsSource (file_of run.source) said.now }
    ensures judged { IfOk result (λ j. IsVisitsReportOn run.entry profile.now j.kept j.text.items) }
    ensures fault { IfErr result
        (λ s. BeforeOutput (IsVisitsRefusalOf run.entry profile.now) (stop_fault s)) }
    ensures carries { IfErr result
        (CarriesOneOf (file_of run.entry.source) said.now
        (run.entry.statement.now ∷ run.entry.fiq_statement.now ∷ []) profile.now) }
{
    let irq = irq_bounded(alloc, said, run.statement, profile)?;
    let fiq = fiq_bounded(alloc, said, run.fiq_statement, profile)?;
    let both = Both {
        source: run.source,
        read: said,
        irq: &irq,
        fiq: &fiq,
    };
    Ok(machine_run(alloc, run, both, profile)?)
}

// The answer on a run through a source's handlers.
fn read_run<'a>(
    alloc: Global,
    run: FollowedVisits<'a>,
    profile: &Profile,
) -> Result<Judged, Refusal<'a>>
    ensures judged { IfOk result (λ j. IsVisitsReportOn run.entry profile.now j.kept j.text.items) }
    ensures fault { IfErr (fault_only result) (BeforeOutput (IsVisitsRefusalOf run.entry profile.now)) }
    ensures carries { IfErr result (CarriesRead (file_of run.entry.source)
        (run.entry.statement.now ∷ run.entry.fiq_statement.now ∷ []) profile.now) }
{
    let said = read_source(alloc, run.source)?;
    let judged = source_run(alloc, run, &said, profile);
    with_source(said, judged)
}

/// Runs the machine of a source and a machine file and judges the run, from where it first comes to the
/// handler's entry until it leaves the handler, by the statements of the handler and of FIQ's handler, which
/// interrupts it. The file's steps are the most that it makes. The prices are those of a cycle profile's
/// file, or of the first profile.
///
/// `true` exactly where the run keeps both statements: from the entry some number of its steps are those of a
/// walk to Exit that keeps the loop bounds, as if there were no visits, and visits of FIQ's handler, each of
/// which keeps its statement and leads back to where FIQ was taken. Then its ticks are at most the total that
/// `visits_report` prints for so many visits, and the first line that is written says how many of both they
/// are, and how much less than the total the ticks; where the run goes on at a word of the source, a second
/// line says at which. Else the line says which step is the first that does not keep them, by its number from
/// 0 from the machine file's start on, its address and its line of the source, and why, or that the run never
/// comes to the entry.
///
/// # Errors
///
/// The first in the order of the work: profile, source, the handler's statement, graph, loops and walk, those
/// of FIQ's handler with `NotFiqEntry` after its statement, machine file, load; `Memory`. After any but
/// `Device` nothing was written.
pub fn follow_visits_report<'a, O: Output>(
    alloc: Global,
    run: FollowedVisits<'a>,
    profile: Option<&'a [u8]>,
    out: &mut O,
) -> Result<bool, Refusal<'a>>
    ensures answers { Priced (given profile.entry)
        (λ p. FollowsVisitedRun O.taken O.failures (file_of run.entry.source) run.entry.statement.now
        run.entry.fiq_statement.now run.entry.machine.now p out.old out.new (fault_only result))
        out.old out.new (fault_only result) }
    ensures carries { IfErr result (CarriesReadBy (given profile.entry) (file_of run.entry.source)
        (run.entry.statement.now ∷ run.entry.fiq_statement.now ∷ [])) }
{
    let profile = profile_of(alloc, profile)?;
    let judged = read_run(alloc, run, &profile)?;
    print_or_refuse(judged.kept, &judged.text, out)
}
