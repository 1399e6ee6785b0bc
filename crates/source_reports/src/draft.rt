//! What has to be stated of a handler.

ghost use Rattle.std.specs.Prelude.{◌≡◌, IfErr, IfOk, IfSome, None, OnOk};
ghost use Rattle.image.specs.Labels.{address_of};
ghost use Rattle.handlers.specs.Answers.{Answers};
ghost use Rattle.source_reports.specs.DraftReport.{IsDraftRefused, IsDraftReport, IsDraftable};
ghost use Rattle.source_reports.specs.DraftReport.{address_in, entry_of};
ghost use Rattle.handlers.specs.Report.{BeforeOutput};
ghost use Rattle.sources.specs.File.{file_of};
ghost use Rattle.source_reports.specs.Rounds.{IsProvedDraft};
ghost use Rattle.source_reports.specs.Standing.{IsSaid};
ghost use Rattle.text_draft.specs.Draft.{HasFound};

use crate::proof::{Rounds, judged};
use asm_text::read_number;
use bus_ticks::is_word_address;
use handlers::{ReportFault, print_answer, read_source};
use image::Labels;
use outputs::Output;
use sources::{Source, SourceFile};
use std::alloc::Global;
use text_draft::{Claims, DraftParts, draft, find_parts};

// The address that a number says: decimal, or hexadecimal after `0x`.
fn address_in(text: &[u8]) -> Option<u32>
    ensures { result ≡ address_in text.now }
{
    let number = read_number(text)?;
    if is_word_address(number) {
        return Some(number);
    }
    None
}

/// The address of a label; or the one that the text says, decimal, or hexadecimal after `0x`, of a word. None
/// where it is neither.
pub fn entry_of(labels: &Labels, entry: &[u8]) -> Option<u32>
    ensures { result ≡ entry_of (address_of labels.now) entry.now }
{
    match labels.get(entry) {
        Some(address) => Some(address),
        None => address_in(entry),
    }
}

/// How many drafts are looked at for what they claim to be proved, each of which claims less than the one
/// before. Where the last still claims more than is proved, nothing is claimed.
pub(crate) const MOST_ROUNDS: u32 = 4;

// The draft that claims nothing.
fn bare_draft(
    alloc: Global,
    read: &Source<'_>,
    address: u32,
    found: &mut DraftParts,
) -> Result<Vec<u8>, ReportFault>
    requires { HasFound read.now.image None address found.now }
    ensures draft { IfOk result (λ text. IsProvedDraft read.now address text.items) }
    ensures memory { IfErr result (λ e. e ≡ ReportFault.Memory) }
{
    found.claim(alloc, &read.image, &Claims::none(alloc))?;
    let text = draft(alloc, read, address, found)?;
    Ok(text)
}

// One draft, if all that it claims is proved: else what the next may claim is left.
fn one_round(
    alloc: Global,
    read: &Source<'_>,
    address: u32,
    rounds: &mut Rounds,
) -> Result<Option<Vec<u8>>, ReportFault>
    requires said { IsSaid read.now }
    requires found { HasFound read.now.image None address rounds.now.found }
    ensures draft { IfOk result (λ done. IfSome done (λ text. IsProvedDraft read.now address text.items)) }
    ensures kept { OnOk result (HasFound read.now.image None address rounds.new.found) }
    ensures memory { IfErr result (λ e. e ≡ ReportFault.Memory) }
{
    rounds.found.claim(alloc, &read.image, &rounds.claims)?;
    let text = draft(alloc, read, address, &rounds.found)?;
    let Some(left) = judged(alloc, read, &text, &rounds.found, &mut rounds.table)? else {
        return Ok(Some(text));
    };
    rounds.claims = left;
    Ok(None)
}

fn all_rounds(
    alloc: Global,
    read: &Source<'_>,
    address: u32,
    rounds: &mut Rounds,
) -> Result<Vec<u8>, ReportFault>
    requires said { IsSaid read.now }
    requires found { HasFound read.now.image None address rounds.now.found }
    ensures draft { IfOk result (λ text. IsProvedDraft read.now address text.items) }
    ensures memory { IfErr result (λ e. e ≡ ReportFault.Memory) }
{
    for _ in 0..MOST_ROUNDS {
        if let Some(text) = one_round(alloc, read, address, rounds)? {
            return Ok(text);
        }
    }
    bare_draft(alloc, read, address, &mut rounds.found)
}

// The draft of which all that it claims is proved.
fn proved_draft(alloc: Global, read: &Source<'_>, address: u32) -> Result<Vec<u8>, ReportFault>
    requires { IsSaid read.now }
    ensures draft { IfOk result (λ text. IsProvedDraft read.now address text.items) }
    ensures memory { IfErr result (λ e. e ≡ ReportFault.Memory) }
{
    let found = find_parts(alloc, &read.image, address)?;
    let mut rounds = Rounds::first(alloc, found);
    all_rounds(alloc, read, address, &mut rounds)
}

fn source_draft(alloc: Global, source: SourceFile<'_>, entry: &[u8]) -> Result<Vec<u8>, ReportFault>
    ensures draft { IfOk result (λ text. IsDraftReport (file_of source.entry) entry.now text.items) }
    ensures fault { IfErr result (BeforeOutput (IsDraftRefused (file_of source.entry) entry.now)) }
    ensures only { IsDraftable (file_of source.entry) entry.now → IfErr result (λ e. e ≡ ReportFault.Memory) }
{
    let read = read_source(alloc, source)?;
    let Some(address) = entry_of(&read.labels, entry) else {
        return Err(ReportFault::NoSuchEntry);
    };
    proved_draft(alloc, &read, address)
}

/// Writes a statement of the handler that begins at a label or at an address, to be filled in: with all that
/// the words reached from there show of its loops, of the targets of words that write R15, and of the classes
/// of its loads and stores, and with its labels and lines as comments. A count, and a class that its word
/// alone does not show, is written where it is proved to hold in each run that keeps the rest of the
/// statement as drafted, where an open bound is the greatest that may be stated; else as a comment, as all
/// are while it is left open where a word leads. An address is decimal, or hexadecimal after `0x`.
///
/// # Errors
///
/// `Source`, with its line, of a text; `Image` of an image, then `NoSuchEntry`; `Memory`. After any but
/// `Device` nothing was written.
pub fn draft_report<O: Output>(
    alloc: Global,
    source: SourceFile<'_>,
    entry: &[u8],
    out: &mut O,
) -> Result<(), ReportFault>
    ensures { Answers O.taken O.failures (λ _ text. IsDraftReport (file_of source.entry) entry.now text)
        (IsDraftable (file_of source.entry) entry.now) (IsDraftRefused (file_of source.entry) entry.now)
        out.old out.new result }
{
    let text = source_draft(alloc, source, entry)?;
    print_answer((), &text, out)
}
