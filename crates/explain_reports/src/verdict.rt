ghost use Rattle.std.specs.Prelude.{◌≡◌, ◌↔◌, ◌++◌, ◌∷◌, [], None, IfErr, IfOk, IsTrue};
ghost use Rattle.cert_check.specs.Failing.{verdict_of};
ghost use Rattle.handlers.specs.Priced.{Priced, given};
ghost use Rattle.handlers.specs.Refusal.{CarriesReadBy, fault_only};
ghost use Rattle.explain_reports.specs.Check.{verdict_line};
ghost use Rattle.explain_reports.specs.Verdict.{ExplainsVerdict, row_text};
ghost use Rattle.sources.specs.File.{file_of};

use crate::check::{CheckInputs, verdict_line};
use crate::finding::found_of;
use cert_check::{FailingRow, Verdict, objection_of};
use handlers::{Refusal, print_or_refuse, profile_of};
use outputs::Output;
use std::alloc::{AllocError, Global};
use text_objections::objection_text;

// The verdict's line, and then what fails.
fn text_of(alloc: Global, row: &Option<FailingRow>) -> Result<Vec<u8>, AllocError>
    ensures { IfOk result
        (λ text. text.items ≡ verdict_line (verdict_of row.now) ++ row_text row.now) }
{
    let Some(row) = row else {
        return Vec::from_slice(alloc, verdict_line(Verdict::Yes));
    };
    let mut text = Vec::from_slice(alloc, verdict_line(Verdict::No(objection_of(row))))?;
    let what = objection_text(alloc, row)?;
    text.extend_from_slice(&what)?;
    Ok(text)
}

// Whether nothing fails.
fn is_yes(row: &Option<FailingRow>) -> bool
    ensures { IsTrue result ↔ (row.now ≡ None) }
{
    match row {
        None => true,
        Some(_) => false,
    }
}

/// Judges the text of a certificate as [`check_report`](crate::check_report) does, and writes the same line
/// and then, where that is `no`, what fails in the certificate: a place or a loop without a row, a row too
/// many, the edge whose row does not hold with what it asks for, or where the walk goes wrong.
///
/// # Errors
///
/// Those of [`check_report`](crate::check_report). After any but `Device` nothing was written.
pub fn verdict_report<'a, O: Output>(
    alloc: Global,
    inputs: CheckInputs<'a>,
    profile: Option<&'a [u8]>,
    out: &mut O,
) -> Result<bool, Refusal<'a>>
    ensures answers { Priced (given profile.entry)
        (λ p. ExplainsVerdict O.taken O.failures (file_of inputs.entry.source) inputs.entry.statement.now
        inputs.entry.cert.now p out.old out.new (fault_only result)) out.old out.new (fault_only result) }
    ensures carries { IfErr result (CarriesReadBy (given profile.entry) (file_of inputs.entry.source)
        (inputs.entry.statement.now ∷ [])) }
{
    let profile = profile_of(alloc, profile)?;
    let row: Option<FailingRow> = found_of(alloc, inputs, &profile)?;
    let text = text_of(alloc, &row)?;
    print_or_refuse(is_yes(&row), &text, out)
}
