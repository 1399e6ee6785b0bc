use crate::sample_handlers::followed::{Followed, follow_run};
use crate::sample_handlers::sample::Sample;
use crate::sample_handlers::tight::{Edges, edges_of};
use arcwcet::{
    MemoryOutput, ReportFault, SourceFile, Store, StoreFault, VisitRate, VisitedHandler,
    bound_report, check_report, fault_only, run_report, visits_report,
};
use std::alloc::{AllocError, Global};
use std::fmt::Write;
use std::{fmt, str};
use thiserror::Error;

/// Why a handler was not judged.
#[derive(Clone, Copy, Debug, Drop, Error)]
pub(crate) enum HandlerFault {
    #[error("unread: {0}")]
    Files(#[from] StoreFault),
    #[error("refused: {0}")]
    Report(#[from] ReportFault),
    #[error("unknown report")]
    Text,
}

impl From<AllocError> for HandlerFault {
    fn from(_refused: AllocError) -> HandlerFault {
        HandlerFault::Report(ReportFault::Memory)
    }
}

// The greatest run time of a handler, in ticks, and whether the checker accepts all certificates of it.
#[derive(Clone, Copy)]
struct Bounded {
    ticks: u64,
    accepted: bool,
}

// What a run of a handler took.
#[derive(Clone, Copy)]
struct Run {
    finished: bool,
    ticks: u64,
    elapsed: u64,
}

/// What was found about a handler: its bound, what its run took and whether it keeps the statement, and of
/// its edges by the first cycle profile and by a dearer one.
#[derive(Clone, Copy)]
pub(crate) struct Judgement {
    bound: Bounded,
    run: Run,
    followed: Followed,
    before: u64,
    edges: Edges,
    dearer: Edges,
}

impl Judgement {
    /// Whether each certificate was accepted, the run kept the bound, `follow` printed its ticks from the
    /// entry on, and each free edge takes its cost.
    pub(crate) fn holds(&self) -> bool {
        self.bound.accepted
            && self.run.finished
            && self.run.ticks <= self.bound.ticks
            && self.followed.fits(self.run.ticks.saturating_sub(self.before), self.bound.ticks)
            && self.edges.exact
            && self.dearer.exact
    }
}

impl fmt::Display for Judgement {
    fn fmt<W: Write>(&self, f: &mut fmt::Formatter<W>) -> fmt::Result {
        let verdict = if self.bound.accepted { "yes" } else { "no" };
        write!(
            f,
            "bound {}, {verdict}, ticks {} elapsed {}, {}, {} of {} edges tight",
            self.bound.ticks,
            self.run.ticks,
            self.run.elapsed,
            self.followed.word(),
            self.edges.free,
            self.edges.all
        )
    }
}

/// The files of a handler.
#[derive(Drop)]
pub(crate) struct Files {
    pub(crate) source: Vec<u8>,
    pub(crate) statement: Vec<u8>,
    pub(crate) machine: Vec<u8>,
}

impl Files {
    /// The file of its source.
    pub(crate) fn source_file(&self) -> SourceFile<'_> {
        SourceFile::plain(&self.source)
    }
}

fn read_file<S: Store>(
    alloc: Global,
    store: &mut S,
    folder: &str,
    name: &str,
) -> Result<Vec<u8>, HandlerFault> {
    let path = format!(in alloc; "handlers/{folder}/{name}")?;
    Ok(store.read(alloc, path.as_str())?)
}

fn read_files<S: Store>(alloc: Global, store: &mut S, folder: &str) -> Result<Files, HandlerFault> {
    Ok(Files {
        source: read_file(alloc, store, folder, "handler.s")?,
        statement: read_file(alloc, store, folder, "handler.toml")?,
        machine: read_file(alloc, store, folder, "machine.toml")?,
    })
}

/// The number after a word in a line of words and numbers.
pub(crate) fn number_after(line: &str, word: &str) -> Option<u64> {
    let mut is_next = false;
    for found in line.split(' ') {
        if is_next {
            return found.parse().ok();
        }
        is_next = found == word;
    }
    None
}

// The number in a line of a text after a word; lines are counted from 0.
fn number_in(text: &[u8], line: usize, word: &str) -> Option<u64> {
    let text = str::from_utf8(text).ok()?;
    number_after(text.lines().nth(line)?, word)
}

/// The ticks and the elapsed ticks of a run's report, which its last line says.
pub(crate) fn ticks_of(report: &[u8]) -> Option<(u64, u64)> {
    let text = str::from_utf8(report).ok()?;
    let line = text.lines().last()?;
    Some((number_after(line, "ticks")?, number_after(line, "elapsed")?))
}

fn is_accepted(
    alloc: Global,
    files: &Files,
    statement: &[u8],
    cert: &[u8],
) -> Result<bool, HandlerFault> {
    let mut verdict = MemoryOutput::with_room(alloc, 0)?;
    Ok(check_report(
        alloc,
        files.source_file(),
        statement,
        cert,
        None,
        &mut verdict,
    )?)
}

// By `bound`.
fn bounded_alone(alloc: Global, files: &Files) -> Result<Bounded, HandlerFault> {
    let mut cert = MemoryOutput::with_room(alloc, 0)?;
    bound_report(
        alloc,
        files.source_file(),
        &files.statement,
        None,
        &mut cert,
    )?;
    Ok(Bounded {
        ticks: number_in(cert.bytes(), 1, "bound").ok_or(HandlerFault::Text)?,
        accepted: is_accepted(alloc, files, &files.statement, cert.bytes())?,
    })
}

// Both certificates in what `visits` prints, the IRQ handler's first.
fn certificates_of(report: &[u8]) -> Option<(&str, &str)> {
    let text = str::from_utf8(report).ok()?;
    let irq = text.find("arcwcet certificate ")?;
    let fiq = text.rfind("arcwcet certificate ")?;
    Some((text.get(irq..fiq)?, text.get(fiq..)?))
}

// By `visits`.
fn bounded_with_visits<'a>(
    alloc: Global,
    files: &'a Files,
    fiq: &'a [u8],
    visits: u32,
) -> Result<Bounded, HandlerFault> {
    let mut report = MemoryOutput::with_room(alloc, 0)?;
    let asked = VisitedHandler {
        source: files.source_file(),
        irq: &files.statement,
        fiq_source: None,
        fiq,
        rate: VisitRate::Times(visits),
    };
    fault_only(visits_report(alloc, asked, None, &mut report))?;
    let (of_irq, of_fiq) = certificates_of(report.bytes()).ok_or(HandlerFault::Text)?;
    Ok(Bounded {
        ticks: number_in(report.bytes(), 5, "total").ok_or(HandlerFault::Text)?,
        accepted: is_accepted(alloc, files, &files.statement, of_irq.as_bytes())?
            && is_accepted(alloc, files, fiq, of_fiq.as_bytes())?,
    })
}

fn run_of(alloc: Global, files: &Files) -> Result<Run, HandlerFault> {
    let mut report = MemoryOutput::with_room(alloc, 0)?;
    let finished = run_report(
        alloc,
        files.source_file(),
        &files.machine,
        None,
        &mut report,
    )?;
    let (ticks, elapsed) = ticks_of(report.bytes()).ok_or(HandlerFault::Text)?;
    Ok(Run {
        finished,
        ticks,
        elapsed,
    })
}

/// Judges a sample handler.
pub(crate) fn judge<S: Store>(
    alloc: Global,
    store: &mut S,
    sample: Sample,
) -> Result<Judgement, HandlerFault> {
    let files = read_files(alloc, store, sample.folder)?;
    let (bound, followed) = match sample.visits {
        None => (
            bounded_alone(alloc, &files)?,
            follow_run(alloc, &files, None)?,
        ),
        Some(visits) => {
            let fiq = read_file(alloc, store, sample.folder, "fiq.toml")?;
            let bound = bounded_with_visits(alloc, &files, &fiq, visits)?;
            (bound, follow_run(alloc, &files, Some(&fiq))?)
        }
    };
    let profile = store.read(alloc, "dearer.toml")?;
    Ok(Judgement {
        bound,
        run: run_of(alloc, &files)?,
        followed,
        before: sample.before,
        edges: edges_of(alloc, &files, None)?,
        dearer: edges_of(alloc, &files, Some(&profile))?,
    })
}
