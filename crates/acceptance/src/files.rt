//! Files in memory, for runs of the program.

use arcwcet::{Store, StoreFault, StreamInput, read_limited};
use std::alloc::{AllocError, Global};

/// A text, and the length in bytes to which the comment at its end is drawn out, if that is longer.
pub(crate) type File = (&'static [u8], usize);

/// The files of these names. None can be written.
#[derive(Drop)]
pub(crate) struct Files {
    pub(crate) source: File,
    pub(crate) second: File,
    pub(crate) profile: File,
}

fn bytes_of(alloc: Global, file: File) -> Result<Vec<u8>, AllocError> {
    let (text, length) = file;
    let mut bytes = vec![in alloc; b'x'; length.max(text.len())]?;
    bytes[..text.len()].copy_from_slice(text);
    Ok(bytes)
}

impl Store for Files {
    fn read(&mut self, alloc: Global, name: &str) -> Result<Vec<u8>, StoreFault> {
        let file = match name {
            "source" => self.source,
            "second" => self.second,
            "profile" => self.profile,
            _ => return Err(StoreFault::Device),
        };
        match bytes_of(alloc, file) {
            Ok(bytes) => read_limited(alloc, &mut StreamInput::new(bytes.as_slice())),
            Err(_) => Err(StoreFault::Memory),
        }
    }

    fn write(&mut self, _name: &str, _bytes: &[u8]) -> Result<(), StoreFault> {
        Err(StoreFault::Device)
    }
}

/// The program's words for a command, with its options, on the files `source` and `second`.
pub(crate) fn line(alloc: Global, command: &[&str]) -> Result<Vec<String>, AllocError> {
    let mut line = Vec::new(alloc);
    line.push(String::from_str(alloc, "arcwcet")?)?;
    for word in command {
        line.push(String::from_str(alloc, word)?)?;
    }
    line.push(String::from_str(alloc, "source")?)?;
    line.push(String::from_str(alloc, "second")?)?;
    Ok(line)
}
