use crate::cases::wanted::Wanted;
use arcwcet::{ReportFault, StoreFault, StreamInput, read_limited};
use std::alloc::{AllocError, Global};
use std::io::ErrorKind;
use std::rt::Files;
use std::{fs, str};
use thiserror::Error;

/// Why a case was not judged.
#[derive(Clone, Copy, Debug, Drop, Error)]
pub(crate) enum CaseFault {
    #[error("cannot be read: {0}")]
    File(#[from] StoreFault),
    #[error("its words are no text")]
    Words,
    #[error("its status is no number")]
    Status,
}

impl From<AllocError> for CaseFault {
    fn from(_refused: AllocError) -> CaseFault {
        CaseFault::File(StoreFault::Memory)
    }
}

// That of an output in memory, which is refused memory alone.
impl From<ReportFault> for CaseFault {
    fn from(_fault: ReportFault) -> CaseFault {
        CaseFault::File(StoreFault::Memory)
    }
}

/// What a case's folder says: the words, their input, and the results that are wanted.
#[derive(Drop)]
pub(crate) struct Case {
    /// The program's words, its name first.
    pub(crate) words: Vec<String>,
    pub(crate) input: Vec<u8>,
    pub(crate) out: Wanted,
    pub(crate) err: Wanted,
    pub(crate) status: u8,
    /// The image that is to be written.
    pub(crate) image: Option<Vec<u8>>,
}

// The program's name, and the lines of the text.
fn words_of(alloc: Global, text: &str) -> Result<Vec<String>, AllocError> {
    let mut words = Vec::new(alloc);
    words.push(String::from_str(alloc, "arcwcet")?)?;
    for word in text.lines() {
        words.push(String::from_str(alloc, word)?)?;
    }
    Ok(words)
}

// The number on a line.
fn number(line: &[u8]) -> Option<u8> {
    str::from_utf8(line).ok()?.trim_end().parse().ok()
}

// Whether a command writes an image.
fn writes_image(command: &str) -> bool {
    command == "asm" || command == "import"
}

// The files of a case's folder.
#[derive(Drop)]
struct Folder<'a, R: Files> {
    rt: &'a R,
    name: &'a str,
}

impl<R: Files + AllocGlobal> Folder<'_, R> {
    fn read_if_any(&self, file: &str) -> Result<Option<Vec<u8>>, CaseFault> {
        let path = format!(in self.rt.alloc(); "{}/{file}", self.name)?;
        match fs::open(self.rt, path.as_str()) {
            Ok(reader) => {
                let mut input = StreamInput::new(reader);
                Ok(Some(read_limited(self.rt.alloc(), &mut input)?))
            }
            Err(error) if error.kind() == ErrorKind::NotFound => Ok(None),
            Err(_) => Err(CaseFault::File(StoreFault::Device)),
        }
    }

    // What a stream is to hold, by its file or that with `.front` or `.any` after its name.
    fn wanted(&self, file: &str) -> Result<Wanted, CaseFault> {
        let alloc = self.rt.alloc();
        if let Some(bytes) = self.read_if_any(file)? {
            return Ok(Wanted::Whole(bytes));
        }
        let front = format!(in alloc; "{file}.front")?;
        if let Some(bytes) = self.read_if_any(front.as_str())? {
            return Ok(Wanted::Front(bytes));
        }
        let any = format!(in alloc; "{file}.any")?;
        match self.read_if_any(any.as_str())? {
            Some(_) => Ok(Wanted::Any),
            None => Ok(Wanted::Whole(Vec::new(alloc))),
        }
    }

    fn words(&self) -> Result<Vec<String>, CaseFault> {
        let Some(bytes) = self.read_if_any("args")? else {
            return Err(CaseFault::File(StoreFault::Device));
        };
        match str::from_utf8(&bytes) {
            Ok(text) => Ok(words_of(self.rt.alloc(), text)?),
            Err(_) => Err(CaseFault::Words),
        }
    }

    fn status(&self) -> Result<u8, CaseFault> {
        match self.read_if_any("status")? {
            Some(bytes) => number(&bytes).ok_or(CaseFault::Status),
            None => Ok(0),
        }
    }

    // The image that `asm` or `import`, with their options and files, is to write: its name is the last word.
    fn image(&self, words: &[String]) -> Result<Option<Vec<u8>>, CaseFault> {
        match words {
            [_, command, .., _, image] if writes_image(command.as_str()) => self.read_if_any(
                image.as_str(),
            ),
            _ => Ok(None),
        }
    }
}

/// Reads the case in the folder of that name.
pub(crate) fn read_case<R: Files + AllocGlobal>(rt: &R, name: &str) -> Result<Case, CaseFault> {
    let folder = Folder { rt, name };
    let words = folder.words()?;
    Ok(Case {
        input: folder.read_if_any("stdin")?.unwrap_or(Vec::new(rt.alloc())),
        out: folder.wanted("stdout")?,
        err: folder.wanted("stderr")?,
        status: folder.status()?,
        image: folder.image(&words)?,
        words,
    })
}
