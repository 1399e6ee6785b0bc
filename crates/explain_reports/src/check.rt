ghost use Rattle.std.specs.Prelude.{◌≡◌, ◌↔◌, ◌∷◌, [], IfErr, IsTrue};
ghost use Rattle.handlers.specs.Priced.{Priced, given};
ghost use Rattle.handlers.specs.Refusal.{CarriesReadBy, fault_only};
ghost use Rattle.explain_reports.specs.Check.{Checks, objection_line, verdict_line};
ghost use Rattle.sources.specs.File.{file_of};

use crate::finding::found_of;
use cert_check::{Objection, Verdict};
use handlers::{Refusal, ReportFault, fault_only, print_or_refuse, profile_of};
use outputs::Output;
use sources::SourceFile;
use std::alloc::Global;

fn objection_line(objection: Objection) -> &'static [u8]
    ensures { result.now ≡ objection_line objection }
{
    match objection {
        Objection::MissingPlace => b"no: MissingPlace\n",
        Objection::ExtraPlace => b"no: ExtraPlace\n",
        Objection::EdgeTooHeavy => b"no: EdgeTooHeavy\n",
        Objection::RoundTooHeavy => b"no: RoundTooHeavy\n",
        Objection::LeaveTooHeavy => b"no: LeaveTooHeavy\n",
        Objection::BrokenWalk => b"no: BrokenWalk\n",
        Objection::WalkOverBound => b"no: WalkOverBound\n",
        Objection::WalkCost => b"no: WalkCost\n",
        Objection::NumberTooLarge => b"no: NumberTooLarge\n",
        Objection::WrongProfile => b"no: WrongProfile\n",
    }
}

/// The line of a verdict, with its end.
pub(crate) fn verdict_line(verdict: Verdict) -> &'static [u8]
    ensures { result.now ≡ verdict_line verdict }
{
    match verdict {
        Verdict::Yes => b"yes\n",
        Verdict::No(objection) => objection_line(objection),
    }
}

fn is_yes(verdict: Verdict) -> bool
    ensures { IsTrue result ↔ (verdict ≡ Verdict.Yes) }
{
    match verdict {
        Verdict::Yes => true,
        Verdict::No(_) => false,
    }
}

/// The bytes of a source, a statement and a certificate.
#[derive(Clone, Copy)]
pub struct CheckInputs<'a> {
    pub source: SourceFile<'a>,
    pub statement: &'a [u8],
    pub cert: &'a [u8],
}

/// Judges the text of a certificate, whoever wrote it, by the handler of a source and a statement and a cycle
/// profile's file, or the first profile, and writes one line: `yes`, which is answered as `true` and means
/// that the certificate's bound is the greatest cost of a complete walk that keeps the bounds, or `no: ` and
/// the name of the first [`Objection`].
///
/// Nothing is written until the verdict is found.
///
/// # Errors
///
/// Of several faults the first in the order of the work is answered: profile, source, statement, graph,
/// loops, certificate. `Device`: the output failed, and took a front of the line. `Memory`: an allocation
/// failed. After any but `Device` nothing was written.
pub fn check_report<O: Output>(
    alloc: Global,
    source: SourceFile<'_>,
    statement: &[u8],
    cert: &[u8],
    profile: Option<&[u8]>,
    out: &mut O,
) -> Result<bool, ReportFault>
    ensures { Priced (given profile.entry)
        (λ p. Checks O.taken O.failures (file_of source.entry) statement.now cert.now p out.old out.new
        result) out.old out.new result }
{
    let inputs = CheckInputs {
        source,
        statement,
        cert,
    };
    fault_only(print_check(alloc, inputs, profile, out))
}

/// As [`check_report`]; a refusal comes with what its fault was found in.
///
/// # Errors
///
/// Those of [`check_report`].
pub fn print_check<'a, O: Output>(
    alloc: Global,
    inputs: CheckInputs<'a>,
    profile: Option<&'a [u8]>,
    out: &mut O,
) -> Result<bool, Refusal<'a>>
    ensures answers { Priced (given profile.entry)
        (λ p. Checks O.taken O.failures (file_of inputs.entry.source) inputs.entry.statement.now
        inputs.entry.cert.now p out.old out.new (fault_only result)) out.old out.new (fault_only result) }
    ensures carries { IfErr result (CarriesReadBy (given profile.entry) (file_of inputs.entry.source)
        (inputs.entry.statement.now ∷ [])) }
{
    let profile = profile_of(alloc, profile)?;
    let verdict: Verdict = found_of(alloc, inputs, &profile)?;
    print_or_refuse(is_yes(verdict), verdict_line(verdict), out)
}
