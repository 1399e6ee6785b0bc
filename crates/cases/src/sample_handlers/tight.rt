use crate::sample_handlers::judgement::{Files, HandlerFault, ticks_of};
use arcwcet::{MemoryOutput, ReportFault, run_report, tight_report};
use std::alloc::Global;
use std::str;

/// How many edges a handler's flow graph has, how many of them are free, and whether the machine file of each
/// free edge runs for exactly the edge's cost.
#[derive(Clone, Copy)]
pub(crate) struct Edges {
    pub(crate) all: u32,
    pub(crate) free: u32,
    pub(crate) exact: bool,
}

// The cost in the line of an edge's report that shows the edge.
fn cost_in(report: &[u8]) -> Option<u64> {
    let text = str::from_utf8(report).ok()?;
    text.lines().next()?.split(' ').last()?.parse().ok()
}

// Whether the printed file runs for exactly the cost that it shows.
fn runs_exactly(
    alloc: Global,
    files: &Files,
    file: &[u8],
    profile: Option<&[u8]>,
) -> Result<bool, HandlerFault> {
    let mut report = MemoryOutput::with_room(alloc, 0)?;
    let finished = run_report(alloc, files.source_file(), file, profile, &mut report)?;
    let cost = cost_in(file).ok_or(HandlerFault::Text)?;
    Ok(finished && ticks_of(report.bytes()) == Some((cost, cost)))
}

/// Runs the machine file of each free edge, by a cycle profile's file or the first profile.
pub(crate) fn edges_of(
    alloc: Global,
    files: &Files,
    profile: Option<&[u8]>,
) -> Result<Edges, HandlerFault> {
    let mut edges = Edges {
        all: 0,
        free: 0,
        exact: true,
    };
    for number in 0..u32::MAX {
        let mut file = MemoryOutput::with_room(alloc, 0)?;
        match tight_report(
            alloc,
            files.source_file(),
            &files.statement,
            number,
            profile,
            &mut file,
        ) {
            Ok(()) => {
                edges.free = edges.free.saturating_add(1);
                edges.exact = edges.exact && runs_exactly(alloc, files, file.bytes(), profile)?;
            }
            Err(ReportFault::NotFree(_)) => {}
            Err(ReportFault::NoSuchEdge) => break,
            Err(fault) => return Err(fault.into()),
        }
        edges.all = edges.all.saturating_add(1);
    }
    Ok(edges)
}
