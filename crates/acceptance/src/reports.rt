//! Each report of one short handler, and what it prints.

use arcwcet::{
    AskedResponse, Bursts, Dialect, DrawnHandler, Explained, Extent, MemoryOutput, Output,
    ReportFault, RowForm, SourceFile, TableForm, VisitRate, VisitedHandler, asm_report,
    bound_report, check_report, debug_report, draft_on_report, draft_report, explain_report,
    fault_only, graph_report, list_report, respond_report, run_report, tight_report, trace_report,
    visits_report,
};
use samples::lone_return::{CERTIFICATE, SOURCE, STATEMENT};
use std::alloc::{AllocError, Global};

// It returns to user mode.
const MACHINE: &[u8] = b"pc = 0x1C\nmode = \"irq\"\nsteps = 1\n[registers]\nr14_irq = 0x1010\n";

const SESSION: &[u8] = b"step\nfrob\n";

const SIZE: &[u8] = b"words 1 segments 1\n";

const LINES: &[u8] = b"                         1   ORG &1C
0000001C  E25EF004       2   SUBS PC,R14,#4
";

// Its bound is exactly as much as it may be.
const EXPLAINED: Explained<'static> = Explained {
    source: SourceFile {
        dialect: Dialect::Plain,
        bytes: SOURCE,
    },
    statement: STATEMENT,
    at_most: Some(9),
    bursts: Bursts {
        count: None,
        every: None,
    },
    form: TableForm {
        first: false,
        rows: RowForm {
            all: false,
            top: None,
            width: 80,
        },
    },
    each: false,
};

const DRAWN: DrawnHandler<'static> = DrawnHandler {
    source: SourceFile {
        dialect: Dialect::Plain,
        bytes: SOURCE,
    },
    statement: STATEMENT,
    extent: Extent::Whole,
};

// The longest step loads 16 words from the slowest devices, the last into R15: 4 ticks for its own fetch, 161
// for the loads and 8 for the jump.
const RESPONSE: &[u8] = b"arcwcet respond
fiq to 28
in progress 173
masked 10
entry 8
arrival 0
step 9
response 200 ticks, 25.000 microseconds at 8 MHz
within 200 ticks: 0 ticks, 0.000 microseconds at 8 MHz to spare
";

// It interrupts itself once.
const VISITED: VisitedHandler<'static> = VisitedHandler {
    source: SourceFile {
        dialect: Dialect::Plain,
        bytes: SOURCE,
    },
    irq: STATEMENT,
    fiq_source: None,
    fiq: STATEMENT,
    rate: VisitRate::Times(1),
};

// What `visits` prints above both certificates.
const SUMMARY: &[u8] = b"arcwcet visits\nvisits 1\nirq 9\nfiq 9\nentry 8\ntotal 26\n";

const TABLE: &[u8] = b"passes each ticks  share latest priced as address line  text
     1    9     9 100.0%      0     > any      1C    2   SUBS PC,R14,#4
      total     9 100.0%
bound 9 ticks, 1.125 microseconds at 8 MHz

The longest step, 9 ticks:
  0000001C     2   SUBS PC,R14,#4

What would save most, in ticks at most (state only what is true):
        4  leave ram for any
";

const DRAFT: &[u8] = b"\
# A draft, of what the words show. Write something for each \"?\". A bound counts
# turns back: of a loop that runs eight times seven.
entry = 0x0000001C  # line 2:  SUBS PC,R14,#4
# leave = \"ram\"  # where it returns to, if always to one: \"ram\", \"rom\" or \"io\"
returns = \"stated\"

[[target]]
at = 0x0000001C  # line 2:  SUBS PC,R14,#4
kind = \"return\"
";

// A begun statement that lacks nothing, and what a draft adds to it.
const BEGUN: &[u8] = b"entry = 28\n[[target]]\nat = 28\nkind = \"return\"\n";

const NOTHING_LACKS: &[u8] = b"\n# Draft adds nothing: all that it asks for is stated.\n";

const DRAWING: &[u8] = b"digraph handler {
node [shape=box, style=filled, fillcolor=white, margin=\"0.08,0.04\"];
node [fontname=\"Courier\", fontsize=10];
edge [fontname=\"Courier\", fontsize=10];
graph [fontname=\"Courier\", fontsize=10, labeljust=l, ranksep=0.3, nodesep=0.2];
n0 [label=\"0000001C   SUBS PC,R14,#4\\lpasses 1, ticks 9, 100.0%\\l\", fillcolor=\"#f07818\"];
n0 -> n1 [label=\" do 9\", style=bold];
n1 [label=\"Exit\", shape=oval];
}
";

const REGISTERS: &[u8] = b"R0=00000000 R1=00000000 R2=00000000 R3=00000000
R4=00000000 R5=00000000 R6=00000000 R7=00000000
R8=00000000 R9=00000000 R10=00000000 R11=00000000
R12=00000000 R13=00000000 R14=00000000 R15=0000100C
";

const STEP: &[u8] = b"0000001C E25EF004 5 SUBS R15,R14,#4\n";

const TICKS: &[u8] = b"ticks 5 elapsed 5\n";

/// The calls that print a report.
#[derive(Clone, Copy)]
pub(crate) enum Report {
    Asm,
    List,
    Bound,
    Visits,
    Respond,
    Explain,
    Graph,
    Draft,
    DraftOn,
    Tight,
    Check,
    Run,
    Trace,
    Debug,
}

/// The reports, and the parts of their texts; of an edge's machine file the first line alone.
pub(crate) const REPORTS: [(Report, &[&[u8]]); 14] = [
    (Report::Asm, &[SIZE]),
    (Report::List, &[LINES, SIZE]),
    (Report::Bound, &[CERTIFICATE]),
    (Report::Visits, &[SUMMARY, CERTIFICATE, CERTIFICATE]),
    (Report::Respond, &[RESPONSE]),
    (Report::Explain, &[TABLE]),
    (Report::Graph, &[DRAWING]),
    (Report::Draft, &[DRAFT]),
    (Report::DraftOn, &[BEGUN, NOTHING_LACKS]),
    (Report::Tight, &[b"# edge 1C do exit 9\n"]),
    (Report::Check, &[b"yes\n"]),
    (Report::Run, &[REGISTERS, TICKS]),
    (Report::Trace, &[STEP, TICKS]),
    (Report::Debug, &[STEP, b"refused: UnknownCommand\n"]),
];

// Prints a response that is exactly as much as it may be.
fn print_response<O: Output>(alloc: Global, out: &mut O) -> Result<bool, ReportFault> {
    let asked = AskedResponse {
        source: SourceFile::plain(SOURCE),
        statement: STATEMENT,
        label: b"28",
        longest: None,
        masked: Some(10),
        masked_by: &[],
        bursts: EXPLAINED.bursts,
        fiq: None,
        within: Some(200),
    };
    fault_only(respond_report(alloc, asked, None, out))
}

impl Report {
    /// Prints the report, and answers what it answers: `true` where it answers nothing.
    pub(crate) fn print<O: Output>(self, alloc: Global, out: &mut O) -> Result<bool, ReportFault> {
        let source = SourceFile::plain(SOURCE);
        match self {
            Report::Asm => asm_report(alloc, source, out).and(Ok(true)),
            Report::List => list_report(alloc, source, out).and(Ok(true)),
            Report::Bound => bound_report(alloc, source, STATEMENT, None, out).and(Ok(true)),
            Report::Visits => fault_only(visits_report(alloc, VISITED, None, out)),
            Report::Respond => print_response(alloc, out),
            Report::Explain => fault_only(explain_report(alloc, EXPLAINED, None, out)),
            Report::Graph => fault_only(graph_report(alloc, DRAWN, None, out)).and(Ok(true)),
            Report::Draft => draft_report(alloc, source, b"28", out).and(Ok(true)),
            Report::DraftOn => draft_on_report(alloc, source, BEGUN, out).and(Ok(true)),
            Report::Tight => tight_report(alloc, source, STATEMENT, 0, None, out).and(Ok(true)),
            Report::Check => check_report(alloc, source, STATEMENT, CERTIFICATE, None, out),
            Report::Run => run_report(alloc, source, MACHINE, None, out),
            Report::Trace => trace_report(alloc, source, MACHINE, None, out),
            Report::Debug => {
                debug_report(alloc, source, MACHINE, SESSION, None, out).and(Ok(true))
            }
        }
    }

    /// What the report prints on an output in memory.
    pub(crate) fn text(self, alloc: Global) -> Result<Vec<u8>, ReportFault> {
        let mut out = MemoryOutput::with_room(alloc, 0)?;
        self.print(alloc, &mut out)?;
        Ok(out.bytes().to_vec(alloc)?)
    }

    /// Whether the text has these parts in turn, and no more but the rest of a machine file.
    pub(crate) fn is_of(self, text: &[u8], parts: &[&[u8]]) -> bool {
        let mut rest = text;
        for part in parts {
            match rest.strip_prefix(*part) {
                Some(after) => rest = after,
                None => return false,
            }
        }
        matches!(self, Report::Tight) || rest.is_empty()
    }
}

/// What a report of that text answers where the output takes so many bytes, and which it takes.
pub(crate) fn on_room(text: &[u8], room: usize) -> (Result<bool, ReportFault>, &[u8]) {
    match text.get(..room) {
        Some(front) if room < text.len() => (Err(ReportFault::Device), front),
        _ => (Ok(true), text),
    }
}

/// A kind of output, of which the room is limited.
pub(crate) trait Cut {
    /// Whether the report of that text ends as it has to on such an output with that room.
    fn is_cut(&self, alloc: Global, report: Report, text: &[u8], room: usize) -> bool;
}

/// The room, up to the text's length, at which the report does not end as it has to, if there is one.
pub(crate) fn first_wrong<K: Cut>(
    alloc: Global,
    report: Report,
    text: &[u8],
    kinds: &[K],
) -> Option<usize> {
    for room in 0..=text.len() {
        for kind in kinds {
            if !kind.is_cut(alloc, report, text, room) {
                return Some(room);
            }
        }
    }
    None
}
