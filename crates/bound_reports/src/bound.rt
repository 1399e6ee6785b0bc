ghost use Rattle.std.specs.Prelude.{◌≡◌, ◌≢◌, ◌⊎◌, ◌∷◌, [], ℕ, List, Err, IfErr, IfOk, OnOk};
ghost use Rattle.loop_bounds.specs.Handler.{HasItsTree};
ghost use Rattle.bound_reports.specs.Bound.{AreAcceptedBy, AreRefusedBy, IsReportBy, Reports};
ghost use Rattle.certificate.specs.Lines.{cert_text, said_of};
ghost use Rattle.handlers.specs.Answers.{FailsWithin, Prints};
ghost use Rattle.handlers.specs.Priced.{Priced, given};
ghost use Rattle.handlers.specs.Refusal.{Carries, CarriesRead, CarriesReadBy, ComesAlone, fault_only};
ghost use Rattle.handlers.specs.Refusal.{stop_fault};
ghost use Rattle.handlers.specs.Report.{BeforeOutput, IsAccepted, IsBoundReport};
ghost use Rattle.handlers.specs.Report.{IsRefused, IsReport, OfHandler};
ghost use Rattle.sources.specs.Source.{Says};
ghost use Rattle.sources.specs.File.{File, file_of};

use bus_ticks::Profile;
use cert_check::longest_gets_yes;
use certificate::{print_cert, write_cert};
use control_flow::graphs_are_well_formed;
use flow_graph::run_law;
use handlers::{
    Handler, Refusal, ReportFault, Stop, fault_only, longest_of, profile_of, read_handler,
    read_source, with_source,
};
use longest_walk::Longest;
use outputs::Output;
use sources::{Source, SourceFile};
use std::alloc::Global;

// The greatest walk of a handler that was read, whose certificate is judged yes.
fn certified_longest(alloc: Global, handler: &Handler<'_>) -> Result<Longest, ReportFault>
    requires { HasItsTree handler.now }
    ensures report { OfHandler handler.now
        (λ source statement profile. IfOk result
        (λ found. IsBoundReport source statement profile handler.now.statement found.bound
        (cert_text (said_of found)))) }
    ensures accepted { OfHandler handler.now
        (λ source statement profile. OnOk result (IsAccepted source statement profile)) }
    ensures fault { OfHandler handler.now
        (λ source statement profile. IfErr result (BeforeOutput (IsRefused source statement profile))) }
    ensures alone { IfErr result ComesAlone }
{
    let found = longest_of(alloc, handler)?;
    graphs_are_well_formed(&handler.graph);
    run_law();
    longest_gets_yes();
    Ok(found)
}

/// The bound of a report, in ticks, and its text.
#[derive(Drop)]
pub struct BoundReport {
    pub bound: u64,
    pub text: Vec<u8>,
}

/// The report of a handler that was read.
///
/// # Errors
///
/// Those of [`longest_of`].
pub fn longest_report(alloc: Global, handler: &Handler<'_>) -> Result<BoundReport, ReportFault>
    requires { HasItsTree handler.now }
    ensures report { OfHandler handler.now
        (λ source statement profile. IfOk result
        (λ r. IsBoundReport source statement profile handler.now.statement r.bound r.text.items)) }
    ensures accepted { OfHandler handler.now
        (λ source statement profile. OnOk result (IsAccepted source statement profile)) }
    ensures fault { OfHandler handler.now
        (λ source statement profile. IfErr result (BeforeOutput (IsRefused source statement profile))) }
    ensures alone { IfErr result ComesAlone }
{
    let found = certified_longest(alloc, handler)?;
    let text = write_cert(alloc, &found)?;
    Ok(BoundReport {
        bound: found.bound,
        text,
    })
}

// The greatest walk of the handler of a source that was read.
fn source_longest<'a>(
    alloc: Global,
    said: &Source<'_>,
    statement: &'a [u8],
    profile: &Profile,
) -> Result<Longest, Stop<'a>>
    ensures report { (source : File) → Says source said.now
        → IfOk result (λ found. IsReport source statement.now profile.now (cert_text (said_of found))) }
    ensures accepted { (source : File) → Says source said.now
        → OnOk result (IsAccepted source statement.now profile.now) }
    ensures fault { (source : File) → Says source said.now
        → IfErr result (λ s. BeforeOutput (IsRefused source statement.now profile.now) (stop_fault s)) }
    ensures carries { IfErr result (Carries said.now statement.now profile.now) }
{
    let handler = read_handler(alloc, said, statement, profile)?;
    Ok(certified_longest(alloc, &handler)?)
}

// The greatest walk of a source's handler.
fn read_longest<'a>(
    alloc: Global,
    source: SourceFile<'a>,
    statement: &'a [u8],
    profile: &Profile,
) -> Result<Longest, Refusal<'a>>
    ensures report { IfOk result
        (λ found. IsReport (file_of source.entry) statement.now profile.now (cert_text (said_of found))) }
    ensures accepted { OnOk result (IsAccepted (file_of source.entry) statement.now profile.now) }
    ensures fault { IfErr (fault_only result)
        (BeforeOutput (IsRefused (file_of source.entry) statement.now profile.now)) }
    ensures carries { IfErr result (CarriesRead (file_of source.entry) (statement.now ∷ []) profile.now) }
{
    let said = read_source(alloc, source)?;
    let found = source_longest(alloc, &said, statement, profile);
    with_source(said, found)
}

/// Writes the report of a source and a statement by a cycle profile's file, or by the first profile, the
/// certificate of a greatest walk: the greatest cost, in ticks, of a complete walk of the handler's flow
/// graph that keeps the bounds, such a walk, and the numbers that prove it greatest. Whatever text says the
/// same is judged `yes` by `check_report`. No run of the machine that keeps the statement takes more ticks,
/// but for the profile's burst price for each DMA burst.
///
/// The text goes to the output piece by piece, and takes no memory: nothing is written before all that can be
/// refused but the output itself is done.
///
/// # Errors
///
/// Of several faults the first in the order of the work is answered: profile, source, statement, graph,
/// loops, walk. `Device`: the output failed, and took a front of the report. `Memory`: an allocation failed.
/// After any but `Device` nothing was written.
pub fn bound_report<O: Output>(
    alloc: Global,
    source: SourceFile<'_>,
    statement: &[u8],
    profile: Option<&[u8]>,
    out: &mut O,
) -> Result<(), ReportFault>
    // Ok: the report was printed, of what is accepted.
    ensures printed { OnOk result (Prints
        (IsReportBy (given profile.entry) (file_of source.entry) statement.now)
        (O.taken out.old) (O.taken out.new)) }
    ensures accepted { OnOk result (AreAcceptedBy (given profile.entry) (file_of source.entry)
        statement.now) }

    // Err: each refusal where it holds, and of what is accepted none but for lack of memory or by the output.
    ensures refused { IfErr result (AreRefusedBy (given profile.entry) (file_of source.entry) statement.now) }
    ensures only { Priced (given profile.entry)
        (λ p. IsAccepted (file_of source.entry) statement.now p
        → IfErr result (λ e. (e ≡ ReportFault.Memory) ⊎ (e ≡ ReportFault.Device))) out.old out.new result }
    ensures quiet { IfErr result (λ e. e ≢ ReportFault.Device → out.new ≡ out.old) }
    ensures cut { result ≡ Err ReportFault.Device
        → FailsWithin (IsReportBy (given profile.entry) (file_of source.entry) statement.now)
        (O.taken out.old) (O.taken out.new) (O.failures out.old) (O.failures out.new) }
{
    fault_only(print_bound(alloc, source, statement, profile, out))
}

/// As [`bound_report`]; a refusal comes with what its fault was found in.
///
/// # Errors
///
/// Those of [`bound_report`].
pub fn print_bound<'a, O: Output>(
    alloc: Global,
    source: SourceFile<'a>,
    statement: &'a [u8],
    profile: Option<&'a [u8]>,
    out: &mut O,
) -> Result<(), Refusal<'a>>
    ensures answers { Priced (given profile.entry)
        (λ p. Reports O.taken O.failures (file_of source.entry) statement.now p out.old out.new
        (fault_only result)) out.old out.new (fault_only result) }
    ensures carries { IfErr result (CarriesReadBy (given profile.entry) (file_of source.entry)
        (statement.now ∷ [])) }
{
    let profile = profile_of(alloc, profile)?;
    let found = read_longest(alloc, source, statement, &profile)?;
    match print_cert(&found, out) {
        Ok(()) => Ok(()),
        Err(_) => Err(Refusal::Alone(ReportFault::Device)),
    }
}
