//! Outputs over writers that take all of a slice, a part of it or nothing, or fail.

use crate::reports::{Cut, REPORTS, Report, first_wrong, on_room};
use arcwcet::{Output, OutputFault, StreamOutput};
use std::alloc::Global;
use std::io;
use std::io::{ErrorKind, Write};
use std::test::Fail;

// Takes at most `step` bytes a write and `left` bytes in all, and then none, or fails.
#[derive(Drop)]
struct Writer {
    bytes: Vec<u8>,
    step: usize,
    left: usize,
    fails: Option<ErrorKind>,
}

impl Writer {
    fn new(alloc: Global, step: usize, left: usize, fails: Option<ErrorKind>) -> Writer {
        Writer {
            bytes: Vec::new(alloc),
            step,
            left,
            fails,
        }
    }
}

impl Write for Writer {
    fn write(&mut self, buf: &[u8]) -> io::Result<usize> {
        if self.left == 0 {
            if let Some(kind) = self.fails {
                return Err(kind.into());
            }
        }
        let taken = buf.len().min(self.step).min(self.left);
        match self.bytes.extend_from_slice(&buf[..taken]) {
            Ok(()) => {
                self.left -= taken;
                Ok(taken)
            }
            Err(_) => Err(ErrorKind::OutOfMemory.into()),
        }
    }

    fn flush(&mut self) -> io::Result<()> {
        Ok(())
    }
}

// What a writer takes of a slice at most, how it fails once it is full, the answer to `abc`, and what the
// writer has then.
type Row = (
    usize,
    Option<ErrorKind>,
    Result<usize, OutputFault>,
    &'static [u8],
);

const ROWS: [Row; 5] = [
    (9, None, Ok(3), b"abc"),
    (2, None, Ok(2), b"ab"),
    (0, None, Ok(0), b""),
    (
        0,
        Some(ErrorKind::BrokenPipe),
        Err(OutputFault::Failed),
        b"",
    ),
    (
        0,
        Some(ErrorKind::Interrupted),
        Err(OutputFault::Failed),
        b"",
    ),
];

// Whether that is the output's answer, and its writer has those bytes.
fn writes(alloc: Global, row: &Row) -> bool {
    let (left, fails, answer, bytes) = row;
    let mut writer = Writer::new(alloc, 9, *left, *fails);
    let found = StreamOutput::new(&mut writer).write(b"abc");
    found == *answer && writer.bytes.as_slice() == *bytes
}

// How many bytes a writer takes a write, and how it fails once it is full. An interrupted write has failed;
// it is not tried again.
#[derive(Clone, Copy)]
struct Kind(usize, Option<ErrorKind>);

const KINDS: [Kind; 3] = [
    Kind(1, None),
    Kind(7, Some(ErrorKind::BrokenPipe)),
    Kind(7, Some(ErrorKind::Interrupted)),
];

impl Cut for Kind {
    fn is_cut(&self, alloc: Global, report: Report, text: &[u8], room: usize) -> bool {
        let Kind(step, fails) = *self;
        let mut writer = Writer::new(alloc, step, room, fails);
        let found = report.print(alloc, &mut StreamOutput::new(&mut writer));
        let (answer, front) = on_room(text, room);
        found == answer && writer.bytes.as_slice() == front
    }
}

#[test]
fn writers_take_what_they_are_given(rt: HostRuntime) -> Result<(), Fail> {
    let alloc = rt.alloc();
    for (number, row) in ROWS.iter().enumerate() {
        assert!(rt; writes(alloc, row), "row {number}");
    }
    for (number, (report, _)) in REPORTS.iter().enumerate() {
        let text = report.text(alloc)?;
        assert_eq!(rt;
            first_wrong(alloc, *report, &text, &KINDS),
            None,
            "report {number}"
        );
    }
    Ok(())
}
