use crate::images::CODE;
use crate::reports::ROOM;
use crate::trial::{Answer, Trial};
use arcwcet::{MemoryOutput, ReportFault, Store, StoreFault, StreamInput, program, read_limited};
use samples::{countdown, nested_countdown};
use std::alloc::{AllocError, Global};

// The status for lack of memory.
const NO_MEMORY: u8 = 3;

/// What the program is asked for.
#[derive(Clone, Copy)]
pub(crate) enum Line {
    Bound,
    Asm,
    Import,
    /// A command that there is not.
    Usage,
}

impl Line {
    // The words after the program's name.
    fn words(self) -> [&'static str; 3] {
        match self {
            Line::Bound => ["bound", "nested.s", "nested.toml"],
            Line::Asm => ["asm", "countdown.s", "image"],
            Line::Import => ["import", "countdown@0x8000", "image"],
            Line::Usage => ["frob", "countdown.s", "image"],
        }
    }

    // The status, and standard output.
    fn answer(self) -> (u8, &'static [u8]) {
        match self {
            Line::Bound => (0, nested_countdown::CERTIFICATE),
            Line::Asm | Line::Import => (0, b"words 4 segments 1\n"),
            Line::Usage => (2, b""),
        }
    }

    // Whether the image's file was written, and as it has to be.
    fn written(self) -> Option<bool> {
        match self {
            Line::Asm | Line::Import => Some(true),
            Line::Bound | Line::Usage => None,
        }
    }
}

// The files that the words name. Of the one that is written it only knows whether it is the image.
#[derive(Drop)]
struct Files {
    written: Option<bool>,
}

impl Store for Files {
    fn read(&mut self, alloc: Global, name: &str) -> Result<Vec<u8>, StoreFault> {
        let bytes = match name {
            "countdown.s" => countdown::SOURCE,
            "countdown" => CODE,
            "nested.s" => nested_countdown::SOURCE,
            "nested.toml" => nested_countdown::STATEMENT,
            _ => return Err(StoreFault::Device),
        };
        read_limited(alloc, &mut StreamInput::new(bytes))
    }

    fn write(&mut self, name: &str, bytes: &[u8]) -> Result<(), StoreFault> {
        self.written = Some(name == "image" && bytes == countdown::IMAGE.as_slice());
        Ok(())
    }
}

/// The program with its words, files and standard output.
#[derive(Drop)]
pub(crate) struct Started {
    line: Line,
    words: Vec<String>,
    files: Files,
    out: MemoryOutput,
}

fn push_words(alloc: Global, words: &mut Vec<String>, line: Line) -> Result<(), AllocError> {
    words.push(String::from_str(alloc, "arcwcet")?)?;
    for word in line.words() {
        words.push(String::from_str(alloc, word)?)?;
    }
    Ok(())
}

fn words(alloc: Global, line: Line) -> Result<Vec<String>, AllocError> {
    let mut words = Vec::new(alloc);
    push_words(alloc, &mut words, line)?;
    Ok(words)
}

impl Started {
    /// What there is before the call.
    pub(crate) fn new(alloc: Global, line: Line) -> Result<Started, ReportFault> {
        let out = MemoryOutput::with_room(alloc, ROOM)?;
        Ok(Started {
            line,
            words: words(alloc, line)?,
            files: Files { written: None },
            out,
        })
    }

    fn run(&mut self, alloc: Global, err: &mut MemoryOutput) -> u8 {
        let mut input = StreamInput::new(b"".as_slice());
        program(
            alloc,
            &self.words,
            &mut self.files,
            &mut input,
            &mut self.out,
            err,
        )
    }

    fn is_right(&self, status: u8, printed: &[u8]) -> bool {
        let answer = (status, self.out.bytes());
        answer == self.line.answer()
            && self.files.written == self.line.written()
            && printed.is_empty() == (status == 0)
    }

    fn answer(&self, status: u8, printed: &[u8]) -> Answer {
        if status != NO_MEMORY {
            return Answer::of(self.is_right(status, printed));
        }
        Answer::of_refusal(printed == b"refused: Memory\n".as_slice())
    }
}

impl Trial for Started {
    fn make(&mut self, alloc: Global) -> Result<Answer, ReportFault> {
        let mut err = MemoryOutput::with_room(alloc, ROOM)?;
        let status = self.run(alloc, &mut err);
        Ok(self.answer(status, err.bytes()))
    }

    fn is_unchanged(&mut self, _alloc: Global) -> Result<bool, ReportFault> {
        Ok(self.out.bytes().is_empty() && self.files.written == None)
    }
}
