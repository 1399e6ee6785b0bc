//! What has to be stated of a handler beside what is stated.

ghost use Rattle.std.specs.Prelude.{◌≡◌, Ok, IfErr, IfOk, IfSome, OnOk, Some};
ghost use Rattle.handlers.specs.Answers.{Answers};
ghost use Rattle.handlers.specs.Report.{BeforeOutput};
ghost use Rattle.image.specs.Labels.{address_of};
ghost use Rattle.source_reports.specs.DraftReport.{IsBegunFault, IsDraftOnRefused, IsDraftOnReport};
ghost use Rattle.source_reports.specs.DraftReport.{IsDraftableOn};
ghost use Rattle.source_reports.specs.Rounds.{IsProvedDraftOn};
ghost use Rattle.source_reports.specs.Standing.{IsSaid};
ghost use Rattle.statement.specs.Statement.{IsStatement};
ghost use Rattle.text_draft.specs.Closed.{closed};
ghost use Rattle.sources.specs.File.{file_of};
ghost use Rattle.text_draft.specs.Draft.{HasFound};

use crate::draft::MOST_ROUNDS;
use crate::proof::{Rounds, judged};
use handlers::{ReportFault, print_answer, read_source};
use outputs::Output;
use sources::{Source, SourceFile};
use statement::{Statement, read_statement};
use std::alloc::Global;
use text_draft::{Claims, DraftParts, closed, draft_on, find_lacking};

// The statement that is begun, on a source that was read.
fn stated_begun(alloc: Global, source: &Source<'_>, begun: &[u8]) -> Result<Statement, ReportFault>
    ensures is { IfOk result (λ s. IsStatement (closed begun.now) (address_of source.now.labels) (Ok s)) }
    ensures fault { IfErr result (IsBegunFault (closed begun.now) (address_of source.now.labels)) }
{
    let text = closed(alloc, begun)?;
    let statement = read_statement(alloc, &text, &source.labels)?;
    Ok(statement)
}

// The draft that claims nothing.
fn bare_draft_on(
    alloc: Global,
    read: &Source<'_>,
    begun: &[u8],
    statement: &Statement,
    found: &mut DraftParts,
) -> Result<Vec<u8>, ReportFault>
    requires { HasFound read.now.image (Some statement.now) statement.now.entry found.now }
    ensures draft { IfOk result (λ text. IsProvedDraftOn read.now begun.now statement.now text.items) }
    ensures memory { IfErr result (λ e. e ≡ ReportFault.Memory) }
{
    found.claim(alloc, &read.image, &Claims::none(alloc))?;
    let text = draft_on(alloc, read, begun, statement, found)?;
    Ok(text)
}

// One draft, if all that it claims is proved: else what the next may claim is left.
fn one_round_on(
    alloc: Global,
    read: &Source<'_>,
    begun: &[u8],
    statement: &Statement,
    rounds: &mut Rounds,
) -> Result<Option<Vec<u8>>, ReportFault>
    requires said { IsSaid read.now }
    requires found { HasFound read.now.image (Some statement.now) statement.now.entry rounds.now.found }
    ensures draft { IfOk result
        (λ done. IfSome done (λ text. IsProvedDraftOn read.now begun.now statement.now text.items)) }
    ensures kept { OnOk result
        (HasFound read.now.image (Some statement.now) statement.now.entry rounds.new.found) }
    ensures memory { IfErr result (λ e. e ≡ ReportFault.Memory) }
{
    rounds.found.claim(alloc, &read.image, &rounds.claims)?;
    let text = draft_on(alloc, read, begun, statement, &rounds.found)?;
    let Some(left) = judged(alloc, read, &text, &rounds.found, &mut rounds.table)? else {
        return Ok(Some(text));
    };
    rounds.claims = left;
    Ok(None)
}

fn all_rounds_on(
    alloc: Global,
    read: &Source<'_>,
    begun: &[u8],
    statement: &Statement,
    rounds: &mut Rounds,
) -> Result<Vec<u8>, ReportFault>
    requires said { IsSaid read.now }
    requires found { HasFound read.now.image (Some statement.now) statement.now.entry rounds.now.found }
    ensures draft { IfOk result (λ text. IsProvedDraftOn read.now begun.now statement.now text.items) }
    ensures memory { IfErr result (λ e. e ≡ ReportFault.Memory) }
{
    for _ in 0..MOST_ROUNDS {
        if let Some(text) = one_round_on(alloc, read, begun, statement, rounds)? {
            return Ok(text);
        }
    }
    bare_draft_on(alloc, read, begun, statement, &mut rounds.found)
}

// The draft of which all that it claims is proved.
fn proved_draft_on(
    alloc: Global,
    read: &Source<'_>,
    begun: &[u8],
    statement: &Statement,
) -> Result<Vec<u8>, ReportFault>
    requires { IsSaid read.now }
    ensures draft { IfOk result (λ text. IsProvedDraftOn read.now begun.now statement.now text.items) }
    ensures memory { IfErr result (λ e. e ≡ ReportFault.Memory) }
{
    let found = find_lacking(alloc, &read.image, statement)?;
    let mut rounds = Rounds::first(alloc, found);
    all_rounds_on(alloc, read, begun, statement, &mut rounds)
}

fn source_draft_on(
    alloc: Global,
    source: SourceFile<'_>,
    begun: &[u8],
) -> Result<Vec<u8>, ReportFault>
    ensures draft { IfOk result (λ text. IsDraftOnReport (file_of source.entry) begun.now text.items) }
    ensures fault { IfErr result (BeforeOutput (IsDraftOnRefused (file_of source.entry) begun.now)) }
    ensures only { IsDraftableOn (file_of source.entry) begun.now → IfErr result
        (λ e. e ≡ ReportFault.Memory) }
{
    let read = read_source(alloc, source)?;
    let statement = stated_begun(alloc, &read, begun)?;
    proved_draft_on(alloc, &read, begun, &statement)
}

/// Writes a statement that is begun with what the words show that it lacks: rows in its lists, loops, and the
/// targets of words that write R15, from its entry and from the destinations of its targets on. Each `"?"`
/// stands for what is left open. Of what it adds, classes and counts are written as by `draft_report`: they
/// are proved for runs that keep what was stated before, too.
///
/// # Errors
///
/// `Source`, with its line, of a text; `Image` of an image, then `Statement` with the fault of the begun
/// text, read with the greatest bound or 0 in place of each `"?"`; `Memory`. After any but `Device` nothing
/// was written.
pub fn draft_on_report<O: Output>(
    alloc: Global,
    source: SourceFile<'_>,
    begun: &[u8],
    out: &mut O,
) -> Result<(), ReportFault>
    ensures { Answers O.taken O.failures (λ _ text. IsDraftOnReport (file_of source.entry) begun.now text)
        (IsDraftableOn (file_of source.entry) begun.now) (IsDraftOnRefused (file_of source.entry) begun.now)
        out.old out.new result }
{
    let text = source_draft_on(alloc, source, begun)?;
    print_answer((), &text, out)
}
