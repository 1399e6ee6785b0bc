use crate::sample_handlers::judgement::{Files, HandlerFault, number_after};
use arcwcet::{
    FollowedRun, FollowedVisits, MemoryOutput, fault_only, follow_report, follow_visits_report,
};
use std::alloc::Global;
use std::str;

/// What `follow` says of a handler's run.
#[derive(Clone, Copy)]
pub(crate) enum Followed {
    /// It keeps the statement, or both.
    Kept {
        /// From the entry on.
        ticks: u64,
        /// How many ticks less than the bound.
        less: u64,
    },
    /// It does not.
    Strayed,
}

impl Followed {
    /// Whether `follow` says that the run took so many ticks from the entry on, of a bound.
    pub(crate) fn fits(self, ticks: u64, bound: u64) -> bool {
        match self {
            Followed::Kept {
                ticks: printed,
                less,
            } => printed == ticks && bound.checked_sub(printed) == Some(less),
            Followed::Strayed => false,
        }
    }

    /// The word for it in a handler's line.
    pub(crate) fn word(self) -> &'static str {
        match self {
            Followed::Kept { .. } => "kept",
            Followed::Strayed => "strayed",
        }
    }
}

// How much less than the bound the ticks are, by the line on a run that keeps its statement.
fn less_in(line: &str) -> Option<u64> {
    if !line.contains("less") {
        return Some(0);
    }
    if line.contains("visits,") {
        number_after(line, "visits,")
    } else {
        number_after(line, "ticks,")
    }
}

// Of the line on a run that keeps its statement.
fn kept_in(line: &str) -> Option<Followed> {
    let ticks = number_after(line, "kept:")?;
    let less = less_in(line)?;
    Some(Followed::Kept { ticks, less })
}

// Writes what `follow` prints, with the visits of FIQ's handler where its statement is given.
fn print_followed(
    alloc: Global,
    files: &Files,
    fiq: Option<&[u8]>,
    report: &mut MemoryOutput,
) -> Result<bool, HandlerFault> {
    let Some(fiq_statement) = fiq else {
        let run = FollowedRun {
            source: files.source_file(),
            statement: &files.statement,
            machine: &files.machine,
        };
        return Ok(fault_only(follow_report(alloc, run, None, report))?);
    };
    let run = FollowedVisits {
        source: files.source_file(),
        statement: &files.statement,
        fiq_statement,
        machine: &files.machine,
    };
    Ok(fault_only(follow_visits_report(alloc, run, None, report))?)
}

/// Follows a handler's run, with the visits of FIQ's handler where its statement is given.
pub(crate) fn follow_run(
    alloc: Global,
    files: &Files,
    fiq: Option<&[u8]>,
) -> Result<Followed, HandlerFault> {
    let mut report = MemoryOutput::with_room(alloc, 0)?;
    if !print_followed(alloc, files, fiq, &mut report)? {
        return Ok(Followed::Strayed);
    }
    let text = str::from_utf8(report.bytes()).map_err(|_| HandlerFault::Text)?;
    let line = text.lines().next().ok_or(HandlerFault::Text)?;
    kept_in(line).ok_or(HandlerFault::Text)
}
