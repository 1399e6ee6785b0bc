ghost use Rattle.std.specs.Prelude.{◌≡◌, IfErr, IfOk};
ghost use Rattle.handlers.specs.Answers.{Answers};
ghost use Rattle.source_reports.specs.Assembly.{IsSource, IsSourceRefused};
ghost use Rattle.source_reports.specs.ListReport.{IsListReport};
ghost use Rattle.handlers.specs.Report.{BeforeOutput};
ghost use Rattle.sources.specs.File.{file_of};

use crate::assembly::size_text;
use handlers::{ReportFault, print_answer, read_source};
use outputs::Output;
use sources::SourceFile;
use std::alloc::Global;
use text_listing::list_rows;

// The report of a source.
fn list_text(alloc: Global, source: SourceFile<'_>) -> Result<Vec<u8>, ReportFault>
    ensures is { IfOk result (λ text. IsListReport (file_of source.entry) text.items) }
    ensures fault { IfErr result (BeforeOutput (IsSourceRefused (file_of source.entry))) }
    ensures only { IsSource (file_of source.entry) → IfErr result (λ e. e ≡ ReportFault.Memory) }
{
    let read = read_source(alloc, source)?;
    let mut text = list_rows(alloc, &read)?;
    let size = size_text(alloc, &read.image)?;
    text.extend_from_slice(size.as_bytes())?;
    Ok(text)
}

/// Writes the lines of a source, each with its number beside the address and the word of its first word, its
/// other words in rows below; of an image's bytes each word with its address and the line that it says. The
/// last line has the image's size, as [`asm_report`](crate::asm_report) writes it.
///
/// # Errors
///
/// `Source`, with its line, of a text; `Image` of an image, `Memory`; after any but `Device` nothing was
/// written.
pub fn list_report<O: Output>(
    alloc: Global,
    source: SourceFile<'_>,
    out: &mut O,
) -> Result<(), ReportFault>
    ensures { Answers O.taken O.failures (λ _ text. IsListReport (file_of source.entry) text)
        (IsSource (file_of source.entry)) (IsSourceRefused (file_of source.entry)) out.old out.new result }
{
    let text = list_text(alloc, source)?;
    print_answer((), &text, out)
}
