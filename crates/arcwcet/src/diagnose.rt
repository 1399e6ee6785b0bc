//! What the one line of a refusal has no room for.

ghost use Rattle.std.specs.Prelude.{◌≡◌, Err, IfOk, map};
ghost use Rattle.command_line.specs.Rows.{asked_of};
ghost use Rattle.handlers.specs.Refusal.{fault_only};
ghost use Rattle.arcwcet.specs.Reasons.{AreReasons, HasFaultyRows, IsFileReason, IsSourceReason};
ghost use Rattle.arcwcet.specs.Reasons.{IsStopReason, at_origin};
ghost use Rattle.arcwcet.specs.Refusals.{Says, TakesSome, refusal_of};
ghost use Rattle.arcwcet.specs.Run.{answer_status};
ghost use Rattle.sources.specs.Dialect.{plain_view};
ghost use Rattle.sources.specs.File.{file_of};

use crate::reports::Job;
use crate::status::{report_status, shows_why};
use command_line::Command;
use handlers::{Refusal, ReportFault, Stop};
use objasm::DialectFault;
use outputs::{Output, write_whole};
use sources::{PlainText, Source, SourceFile};
use std::alloc::{AllocError, Global};
use text_refusals::{
    FaultyLine, faulty_lines, faulty_text, given_text, graph_reason, loops_reason, machine_text,
    profile_text, statement_reason, words_of,
};

/// The bytes of the files of a refused report, empty where it has no such file.
#[derive(Clone, Copy)]
pub struct RefusedFiles<'a> {
    /// Its source, a text or an image.
    pub source: SourceFile<'a>,
    /// The text of its machine file.
    pub machine: &'a [u8],
    /// The text of its cycle profile's file.
    pub profile: &'a [u8],
    /// The text of its file of facts.
    pub given: &'a [u8],
}

// A line in our grammar with a fault, as the author's line that it comes from.
fn at_origin(plain: &PlainText<'_>, line: &FaultyLine) -> FaultyLine
    ensures { result ≡ at_origin (plain_view plain.now) line.now }
{
    FaultyLine {
        number: plain.origin(line.number),
        fault: line.fault,
    }
}

fn at_origins(
    alloc: Global,
    plain: &PlainText<'_>,
    lines: &[FaultyLine],
) -> Result<Vec<FaultyLine>, AllocError>
    ensures { IfOk result (λ own. own.items ≡ map (at_origin (plain_view plain.now)) lines.now) }
{
    lines
        .iter()
        .map(|line| at_origin(plain, line))
        .collect(alloc)
}

// The lines of a text that have faults in our grammar, as they stand in the text.
fn lines_text(alloc: Global, bytes: &[u8], plain: &PlainText<'_>) -> Result<Vec<u8>, AllocError>
    ensures { IfOk result (λ text. HasFaultyRows bytes.now (plain_view plain.now) text.items) }
{
    let lines = faulty_lines(alloc, plain.bytes())?;
    let own = at_origins(alloc, plain, &lines)?;
    faulty_text(alloc, bytes, &own)
}

// The lines of a source that have faults.
fn source_text(alloc: Global, file: SourceFile<'_>) -> Result<Vec<u8>, AllocError>
    ensures { IfOk result (λ text. IsSourceReason (file_of file.entry) text.items) }
{
    match PlainText::read(alloc, file) {
        Ok(plain) => lines_text(alloc, file.bytes, &plain),
        Err(DialectFault::Memory) => Err(AllocError),
        Err(DialectFault::Line(..)) => Ok(Vec::new(alloc)),
    }
}

// What shows why a file is refused; nothing where the one line says all.
fn file_text(
    alloc: Global,
    files: RefusedFiles<'_>,
    fault: ReportFault,
) -> Result<Vec<u8>, AllocError>
    ensures { IfOk result (λ text. IsFileReason files.entry fault text.items) }
{
    match fault {
        ReportFault::Source(_) => source_text(alloc, files.source),
        ReportFault::MachineFile(fault) => machine_text(alloc, files.machine, fault),
        ReportFault::Profile(fault) => profile_text(alloc, files.profile, fault),
        ReportFault::Given(fault) => given_text(alloc, files.given, fault),
        _ => Ok(Vec::new(alloc)),
    }
}

// What shows why the work on a source has stopped.
fn stop_text(
    alloc: Global,
    files: RefusedFiles<'_>,
    source: &Source<'_>,
    stop: &Stop<'_>,
) -> Result<Vec<u8>, AllocError>
    ensures { IfOk result (λ text. IsStopReason files.entry source.now stop.now text.items) }
{
    match stop {
        Stop::Alone(fault) => file_text(alloc, files, *fault),
        Stop::Statement(text, fault) => statement_reason(alloc, text, source, *fault),
        Stop::Graph(statement, profile, fault) => {
            let words = words_of(alloc, source)?;
            graph_reason(alloc, &words, statement, profile, *fault)
        }
        Stop::Loops(statement, graph, fault) => {
            let words = words_of(alloc, source)?;
            loops_reason(alloc, &words, graph, statement.loops(), *fault)
        }
    }
}

/// What shows why a report is refused: of a refusal that comes with its source, the rows of the statement,
/// the place of the flow graph or the loops that have the fault; of a refused source, machine file, cycle
/// profile or file of facts its lines with faults; else nothing, as the refusal's one line says all.
///
/// # Errors
///
/// An allocation failed.
pub fn reasons(
    alloc: Global,
    files: RefusedFiles<'_>,
    refusal: &Refusal<'_>,
) -> Result<Vec<u8>, AllocError>
    ensures { IfOk result (λ text. AreReasons files.entry refusal.now text.items) }
{
    match refusal {
        Refusal::Alone(fault) => file_text(alloc, files, *fault),
        Refusal::OnSource(source, stop) => stop_text(alloc, files, source, stop),
    }
}

// The files of a job, as far as reasons are shown of them.
fn files_of<'b>(job: Job<'b, '_>) -> RefusedFiles<'b> {
    let inputs = job.inputs;
    let machine = match job.request.command {
        Command::Run | Command::RunTo | Command::Trace | Command::TraceTo | Command::Debug =>
            inputs.second,
        Command::Follow => inputs.third,
        Command::FollowVisits => inputs.fourth,
        _ => &[],
    };
    let given = match job.request.command {
        Command::Justify => inputs.third,
        _ => &[],
    };
    RefusedFiles {
        source: inputs.source,
        machine,
        profile: inputs.profile.unwrap_or(&[]),
        given,
    }
}

// Whether a refused source is an ELF file, of which no line is worth showing.
fn is_elf_source(job: Job<'_, '_>, fault: ReportFault) -> bool {
    let bytes = job.inputs.source.bytes;
    match fault {
        ReportFault::Source(_) | ReportFault::Dialect(_) => bytes.starts_with(b"\x7FELF"),
        _ => false,
    }
}

// Prints what shows why a job is refused, or what to do with an ELF file. Nothing is printed where memory is
// wanting, and failures of the output change nothing.
fn print_reasons<E: Output>(alloc: Global, job: Job<'_, '_>, refusal: &Refusal<'_>, err: &mut E)
    ensures { TakesSome (E.taken err.old) (E.taken err.new) }
{
    if is_elf_source(job, refusal.fault()) {
        let _ = write_whole(
            err,
            b"an ELF file; make an image of it: arcwcet import FILE IMAGE\n",
        );
        return;
    }
    if let Ok(text) = reasons(alloc, files_of(job), refusal) {
        let _ = write_whole(err, &text);
    }
}

/// Prints why there is no report, if there is none: the refusal, and then what shows where it comes from, if
/// that is to be shown. Answers the exit status: 1 where the report says no.
pub(crate) fn answered_status<E: Output>(
    alloc: Global,
    job: Job<'_, '_>,
    answer: &Result<bool, Refusal<'_>>,
    err: &mut E,
) -> u8
    ensures status { result ≡ answer_status (fault_only answer.now) }
    ensures silent { result ≡ 0 → err.new ≡ err.old }
    ensures says { Says E.taken E.failures (asked_of job.entry.request.now) err.old err.new
        (refusal_of (fault_only answer.now)) }
{
    let refusal = match answer {
        Ok(true) => return 0,
        Ok(false) => return 1,
        Err(refusal) => refusal,
    };
    if !shows_why(job.request) {
        return report_status(refusal.fault(), err);
    }
    let status = report_status(refusal.fault(), err);
    print_reasons(alloc, job, refusal, err);
    status
}

/// The same, of a fault that comes alone.
pub(crate) fn alone_status<E: Output>(
    alloc: Global,
    job: Job<'_, '_>,
    fault: ReportFault,
    err: &mut E,
) -> u8
    ensures status { result ≡ answer_status (Err fault) }
    ensures silent { result ≡ 0 → err.new ≡ err.old }
    ensures says { Says E.taken E.failures (asked_of job.entry.request.now) err.old err.new
        (refusal_of (Err fault)) }
{
    answered_status(alloc, job, &Err(Refusal::Alone(fault)), err)
}
