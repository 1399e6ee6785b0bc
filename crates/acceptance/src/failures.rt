//! Outputs that take a text part by part, or fail within it.

ghost use Rattle.std.specs.Prelude.{Some};

use crate::files::{Files, line};
use crate::reports::{Cut, REPORTS, Report, first_wrong, on_room};
use arcwcet::{MemoryOutput, Output, OutputFault, StreamInput, program, write_whole};
use samples::lone_return::{SOURCE, STATEMENT};
use std::alloc::Global;
use std::process::Abort;
use std::test::Fail;

// How an output fails.
#[derive(Clone, Copy)]
enum WriteFault {
    TakesNothing,
    Error,
}

// Takes at most `step` bytes a write and `left` bytes in all, and then fails.
#[derive(Drop)]
struct Narrow {
    bytes: Vec<u8>,
    failures: u64,
    step: usize,
    left: usize,
    fault: WriteFault,
}

impl Narrow {
    fn new(alloc: Global, step: usize, left: usize, fault: WriteFault) -> Narrow {
        Narrow {
            bytes: Vec::new(alloc),
            failures: 0,
            step,
            left,
            fault,
        }
    }
}

impl Output for Narrow {
    ghost taken = { λ n. Some n.bytes.items };

    ghost failures = { λ n. n.failures };

    fn write(&mut self, bytes: &[u8]) -> Result<usize, OutputFault> {
        let n = bytes.len().min(self.step).min(self.left);
        if n == 0 && !bytes.is_empty() {
            self.failures = self.failures.saturating_add(1);
            return match self.fault {
                WriteFault::TakesNothing => Ok(0),
                WriteFault::Error => Err(OutputFault::Failed),
            };
        }
        match self.bytes.extend_from_slice(&bytes[..n]) {
            Ok(()) => {
                self.left -= n;
                Ok(n)
            }
            Err(_) => {
                self.failures = self.failures.saturating_add(1);
                Err(OutputFault::Failed)
            }
        }
    }
}

// Whether outputs take the whole of the text.
fn take_all(alloc: Global, text: &[u8]) -> Result<bool, Fail> {
    let mut memory = MemoryOutput::with_room(alloc, 3)?;
    write_whole(&mut memory, text)?;
    let mut slow = Narrow::new(alloc, 1, 9, WriteFault::Error);
    write_whole(&mut slow, text)?;
    Ok(memory.bytes() == text && slow.bytes.as_slice() == text && slow.failures == 0)
}

// How many bytes an output takes a write, and how it fails.
#[derive(Clone, Copy)]
struct Kind(usize, WriteFault);

const KINDS: [Kind; 3] = [
    Kind(1, WriteFault::TakesNothing),
    Kind(7, WriteFault::TakesNothing),
    Kind(7, WriteFault::Error),
];

impl Cut for Kind {
    // It writes no more once it has failed.
    fn is_cut(&self, alloc: Global, report: Report, text: &[u8], room: usize) -> bool {
        let Kind(step, fault) = *self;
        let mut out = Narrow::new(alloc, step, room, fault);
        let found = report.print(alloc, &mut out);
        let (answer, front) = on_room(text, room);
        let failures = u64::from(room < text.len());
        found == answer && out.bytes.as_slice() == front && out.failures == failures
    }
}

#[test]
fn reports_at_each_cut(rt: HostRuntime) -> Result<(), Fail> {
    let alloc = rt.alloc();
    assert!(rt; take_all(alloc, b"abc")?);
    for (number, (report, parts)) in REPORTS.iter().enumerate() {
        let text = report.text(alloc)?;
        assert!(rt; report.is_of(&text, parts), "report {number}");
        assert_eq!(rt;
            first_wrong(alloc, *report, &text, &KINDS),
            None,
            "report {number}"
        );
    }
    Ok(())
}

// Runs the program on an output of each room up to the report's length.
fn program_at_cuts(
    rt: &impl Abort,
    alloc: Global,
    words: &[String],
    report: &[u8],
) -> Result<(), Fail> {
    for left in 0..=report.len() {
        let status = if left < report.len() { 4 } else { 0 };
        let mut out = Narrow::new(alloc, 7, left, WriteFault::TakesNothing);
        // What standard error takes changes no status.
        let mut err = Narrow::new(alloc, 1, 0, WriteFault::Error);
        let mut files = Files {
            source: (SOURCE, 0),
            second: (STATEMENT, 0),
            profile: (b"", 0),
        };
        let mut input = StreamInput::new(b"".as_slice());
        let found = program(alloc, words, &mut files, &mut input, &mut out, &mut err);
        assert_eq!(rt;
            (found, out.bytes.as_slice()),
            (status, &report[..left]),
            "at {left}"
        );
    }
    Ok(())
}

#[test]
fn program_at_outputs_that_fail(rt: HostRuntime) -> Result<(), Fail> {
    let alloc = rt.alloc();
    let bound = Report::Bound.text(alloc)?;
    program_at_cuts(&rt, alloc, &line(alloc, &["bound"])?, &bound)?;
    let explain = Report::Explain.text(alloc)?;
    program_at_cuts(&rt, alloc, &line(alloc, &["explain"])?, &explain)?;
    let mut words = line(alloc, &["visits"])?;
    words.push(String::from_str(alloc, "second")?)?;
    words.push(String::from_str(alloc, "1")?)?;
    let visits = Report::Visits.text(alloc)?;
    program_at_cuts(&rt, alloc, &words, &visits)
}
