//! Machine files of edges, run by the source that they were made for.

use arcwcet::{MemoryOutput, ReportFault, SourceFile, run_report, tight_report};
use samples::countdown::{SOURCE, STATEMENT};
use std::alloc::Global;
use std::test::Fail;

// The number of an edge, the line that shows it, and what its run ends with.
type Row = (u32, &'static str, &'static str);

const EDGES: [Row; 5] = [
    (0, "# edge 8000 do 8004 1\n", "ticks 1 elapsed 1\n"),
    (1, "# edge 8004 do 8008 1\n", "ticks 1 elapsed 1\n"),
    (2, "# edge 8008 skip 800C 2\n", "ticks 2 elapsed 2\n"),
    (3, "# edge 8008 do 8004 5\n", "ticks 5 elapsed 5\n"),
    (4, "# edge 800C do exit 9\n", "ticks 9 elapsed 9\n"),
];

// Whether the edge's report begins with the row's line, and that of its run ends with the row's end.
fn runs_so(alloc: Global, row: &Row) -> Result<bool, ReportFault> {
    let (number, line, end) = row;
    let mut file = MemoryOutput::with_room(alloc, 0)?;
    tight_report(
        alloc,
        SourceFile::plain(SOURCE),
        STATEMENT,
        *number,
        None,
        &mut file,
    )?;
    let mut report = MemoryOutput::with_room(alloc, 0)?;
    let done = run_report(
        alloc,
        SourceFile::plain(SOURCE),
        file.bytes(),
        None,
        &mut report,
    )?;
    let begins = file.bytes().starts_with(line.as_bytes());
    Ok(done && begins && report.bytes().ends_with(end.as_bytes()))
}

#[test]
fn edges_run_at_their_cost(rt: HostRuntime) -> Result<(), Fail> {
    for (number, row) in EDGES.iter().enumerate() {
        assert!(rt; runs_so(rt.alloc(), row)?, "edge {number}");
    }
    Ok(())
}
