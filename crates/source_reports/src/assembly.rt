ghost use Rattle.std.specs.Prelude.{◌≡◌, IfErr, IfOk, string_bytes};
ghost use Rattle.handlers.specs.Answers.{Answers};
ghost use Rattle.source_reports.specs.Assembly.{IsAsmReport, IsSource, IsSourceRefused};
ghost use Rattle.source_reports.specs.Assembly.{IsWritten, size_text};
ghost use Rattle.handlers.specs.Report.{BeforeOutput};
ghost use Rattle.sources.specs.File.{file_of};

use handlers::{ReportFault, print_answer, read_source};
use image::{Image, write_image};
use outputs::Output;
use sources::SourceFile;
use std::alloc::{AllocError, Global};

/// A source's image as bytes, and the line that says its size.
#[derive(Drop)]
pub struct Written {
    pub bytes: Vec<u8>,
    pub line: String,
}

/// The line that says an image's size.
pub(crate) fn size_text(alloc: Global, image: &Image) -> Result<String, AllocError>
    ensures { IfOk result (λ line. string_bytes line ≡ size_text image.now) }
{
    let words = image.words();
    let segments = image.segments();
    format!(in alloc; "words {words} segments {segments}\n")
}

/// The file and the report of a source's image.
///
/// # Errors
///
/// `Source`, with its line, of a text; `Image` of an image. `Memory`: an allocation failed.
pub fn image_written(alloc: Global, source: SourceFile<'_>) -> Result<Written, ReportFault>
    ensures is { IfOk result (λ w. IsWritten (file_of source.entry) w.bytes.items (string_bytes w.line)) }
    ensures fault { IfErr result (BeforeOutput (IsSourceRefused (file_of source.entry))) }
    ensures only { IsSource (file_of source.entry) → IfErr result (λ e. e ≡ ReportFault.Memory) }
{
    let image = read_source(alloc, source)?.image;
    let Ok(bytes) = write_image(alloc, &image) else {
        return Err(ReportFault::Memory);
    };
    let line = size_text(alloc, &image)?;
    Ok(Written { bytes, line })
}

/// Writes how many words a source's image has, and how many segments of words side by side. The source is
/// assembly text, or an image's bytes.
///
/// # Errors
///
/// `Source`, with its line, of a text; `Image` of an image, `Memory`; after any but `Device` nothing was
/// written.
pub fn asm_report<O: Output>(
    alloc: Global,
    source: SourceFile<'_>,
    out: &mut O,
) -> Result<(), ReportFault>
    ensures { Answers O.taken O.failures (λ _ text. IsAsmReport (file_of source.entry) text)
        (IsSource (file_of source.entry)) (IsSourceRefused (file_of source.entry)) out.old out.new result }
{
    let written = image_written(alloc, source)?;
    print_answer((), written.line.as_bytes(), out)
}
