//! A source in ObjAsm's dialect as a source in our grammar.

ghost use Rattle.std.specs.Prelude.{◌≡◌, IfErr, IfOk};
ghost use Rattle.handlers.specs.Answers.{Answers};
ghost use Rattle.handlers.specs.Report.{BeforeOutput};
ghost use Rattle.source_reports.specs.PlainReport.{IsPlainRefused, IsPlainReport, IsTranslated};

use handlers::{ReportFault, print_answer};
use objasm::plain_source;
use outputs::Output;
use std::alloc::Global;

fn plain_text(alloc: Global, source: &[u8]) -> Result<Vec<u8>, ReportFault>
    ensures is { IfOk result (λ text. IsPlainReport source.now text.items) }
    ensures fault { IfErr result (BeforeOutput (IsPlainRefused source.now)) }
    ensures only { IsTranslated source.now → IfErr result (λ e. e ≡ ReportFault.Memory) }
{
    let plain = plain_source(alloc, source)?;
    Ok(plain.text)
}

/// Writes a source in ObjAsm's dialect as a source in our grammar, one line for each: what stands for the
/// line, and the line itself as a comment behind it where that is not the same. Below LTORG and the end stand
/// the words that are loaded.
///
/// # Errors
///
/// `Dialect`, with its line; `Memory`; after any but `Device` nothing was written.
pub fn plain_report<O: Output>(alloc: Global, source: &[u8], out: &mut O) -> Result<(), ReportFault>
    ensures { Answers O.taken O.failures (λ _ text. IsPlainReport source.now text)
        (IsTranslated source.now) (IsPlainRefused source.now) out.old out.new result }
{
    let text = plain_text(alloc, source)?;
    print_answer((), &text, out)
}
