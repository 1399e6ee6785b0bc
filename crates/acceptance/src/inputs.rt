//! Runs of the program over files and a standard input that are too long or fail.

use crate::files::{File, Files, line};
use arcwcet::{MOST_INPUT_BYTES, MemoryOutput, ReportFault, StreamInput, program};
use samples::countdown;
use std::alloc::Global;
use std::io;
use std::io::{ErrorKind, Read};
use std::test::Fail;

const COUNTDOWN: File = (countdown::SOURCE, 0);

const NO_SOURCE: File = (b"frob", 0);

const RETURN: File = (b" SUBS PC,R14,#4 ;", 0);

const LONG_RETURN: File = (b" SUBS PC,R14,#4 ;", MOST_INPUT_BYTES);

const ENTRY: File = (b"entry = 0x8000 #", 0);

const LONG_ENTRY: File = (b"entry = 0x8000 #", MOST_INPUT_BYTES);

// By the numbers of the first cycle profile.
const LONG_PROFILE: File = (
    b"n=2\ns=1\nquad=2\nrom=[4,3,2,2]\nio=[8,6,5,10]\ncontrol=2\nunfitted=2\ninternal=1\nburst=6#",
    MOST_INPUT_BYTES,
);

const MACHINE: File = (countdown::MACHINE, 0);

const LONG_MACHINE: File = (
    b"steps = 8\npc = 0x8000\nmode = \"irq\"\nregisters.r14_irq = 0x1010 #",
    MOST_INPUT_BYTES,
);

const TOO_LONG: File = (b"#", MOST_INPUT_BYTES + 1);

const NONE: File = (b"", 0);

// A status, and what standard output and standard error then hold.
type Outcome = (u8, &'static [u8], &'static [u8]);

const CERTIFICATE: Outcome = (
    0,
    b"arcwcet certificate 1
bound 9
step 8000 do exit 9
close
place - 8000 0
stop
",
    b"",
);

const UNKNOWN_COMMAND: Outcome = (0, b"refused: UnknownCommand\n", b"");

const RAN: Outcome = (0, countdown::RAN, b"");

const REFUSED: Outcome = (1, b"", b"refused: InputTooLong\n");

const DEVICE: Outcome = (4, b"", b"refused: Device\n");

// A byte, how often it appears in standard input, how that fails then in place of its end, and how much of
// it the program leaves.
type Input = (u8, usize, Option<ErrorKind>, usize);

const NOTHING: Input = (b'\n', 0, None, 0);

const LONG: Input = (b'x', MOST_INPUT_BYTES, None, 0);

const FAILS: Input = (b'\n', 0, Some(ErrorKind::Other), 0);

const FAILS_LATER: Input = (b'\n', 4096, Some(ErrorKind::Other), 0);

// An interrupted read has failed; it is not tried again.
const INTERRUPTED: Input = (b'\n', 8192, Some(ErrorKind::Interrupted), 0);

// A byte more than the limit is read.
const ENDLESS: Input = (b'\n', usize::MAX, None, usize::MAX - MOST_INPUT_BYTES - 1);

const BOUND: &[&str] = &["bound"];

const PRICED: &[&str] = &["bound", "--profile", "profile"];

const RUN: &[&str] = &["run"];

const ASM: &[&str] = &["asm"];

const DEBUG: &[&str] = &["debug"];

// A command with its options; the files `source`, `second` and `profile`; its input, and the answer.
type Row = (&'static [&'static str], [File; 3], Input, Outcome);

const ROWS: [Row; 15] = [
    (BOUND, [TOO_LONG, ENTRY, NONE], NOTHING, REFUSED),
    (BOUND, [RETURN, TOO_LONG, NONE], NOTHING, REFUSED),
    (BOUND, [LONG_RETURN, ENTRY, NONE], NOTHING, CERTIFICATE),
    (BOUND, [RETURN, LONG_ENTRY, NONE], NOTHING, CERTIFICATE),
    (PRICED, [RETURN, ENTRY, TOO_LONG], NOTHING, REFUSED),
    (PRICED, [RETURN, ENTRY, LONG_PROFILE], NOTHING, CERTIFICATE),
    (RUN, [COUNTDOWN, TOO_LONG, NONE], NOTHING, REFUSED),
    (RUN, [COUNTDOWN, LONG_MACHINE, NONE], NOTHING, RAN),
    (ASM, [COUNTDOWN, MACHINE, NONE], NOTHING, DEVICE),
    (DEBUG, [COUNTDOWN, MACHINE, NONE], LONG, UNKNOWN_COMMAND),
    (DEBUG, [COUNTDOWN, MACHINE, NONE], FAILS, DEVICE),
    (DEBUG, [COUNTDOWN, MACHINE, NONE], FAILS_LATER, DEVICE),
    (DEBUG, [COUNTDOWN, MACHINE, NONE], INTERRUPTED, DEVICE),
    (DEBUG, [COUNTDOWN, MACHINE, NONE], ENDLESS, REFUSED),
    // The input is refused before a source that is none.
    (DEBUG, [NO_SOURCE, MACHINE, NONE], ENDLESS, REFUSED),
];

// A reader of one byte so many times, which then ends or fails.
#[derive(Drop)]
struct Bytes {
    byte: u8,
    left: usize,
    fails: Option<ErrorKind>,
}

impl Read for Bytes {
    fn read(&mut self, buf: &mut [u8]) -> io::Result<usize> {
        if self.left == 0 {
            if let Some(kind) = self.fails {
                return Err(kind.into());
            }
        }
        let n = buf.len().min(self.left);
        buf[..n].fill(self.byte);
        self.left -= n;
        Ok(n)
    }
}

// Whether that is the program's answer to the words, and so much of the input is left.
fn is_answered(alloc: Global, words: &[String], row: &Row) -> Result<bool, ReportFault> {
    let (_, [source, second, profile], (byte, left, fails, fault_only), wanted) = row;
    let mut files = Files {
        source: *source,
        second: *second,
        profile: *profile,
    };
    let mut bytes = Bytes {
        byte: *byte,
        left: *left,
        fails: *fails,
    };
    let mut input = StreamInput::new(&mut bytes);
    let mut out = MemoryOutput::with_room(alloc, 0)?;
    let mut err = MemoryOutput::with_room(alloc, 0)?;
    let status = program(alloc, words, &mut files, &mut input, &mut out, &mut err);
    let answer = (status, out.bytes(), err.bytes());
    drop(input);
    Ok(answer == *wanted && bytes.left == *fault_only)
}

// The number of the first row whose answer is another.
fn first_wrong(alloc: Global, rows: &[Row]) -> Result<Option<usize>, ReportFault> {
    for (number, row) in rows.iter().enumerate() {
        let words = line(alloc, row.0)?;
        if !is_answered(alloc, &words, row)? {
            return Ok(Some(number));
        }
    }
    Ok(None)
}

#[test]
fn inputs_too_long_or_failing(rt: HostRuntime) -> Result<(), Fail> {
    assert_eq!(rt; first_wrong(rt.alloc(), &ROWS)?, None);
    Ok(())
}
