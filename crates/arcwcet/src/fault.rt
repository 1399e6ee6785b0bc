ghost use Rattle.std.specs.Prelude.{◌≡◌};
ghost use Rattle.arcwcet.specs.Refusals.{file_fault_text, store_fault_name};

use thiserror::Error;

/// Why a store read or wrote no file, or a reader did not return all that it had left.
#[derive(Clone, Copy, Debug, PartialEq, Eq, Drop, Error)]
pub enum StoreFault {
    /// An allocation failed.
    #[error("Memory")]
    Memory,
    /// The file could not be opened, read or written, or standard input failed.
    #[error("Device")]
    Device,
    /// The file, or what standard input has left, has more than 16,777,216 bytes.
    #[error("InputTooLong")]
    InputTooLong,
}

/// The name that a refusal's line has.
pub(crate) fn store_fault_name(fault: StoreFault) -> &'static [u8]
    ensures { result.now ≡ store_fault_name fault }
{
    match fault {
        StoreFault::Memory => b"Memory",
        StoreFault::Device => b"Device",
        StoreFault::InputTooLong => b"InputTooLong",
    }
}

/// Why a file cannot be read.
#[derive(Clone, Copy, Debug, PartialEq, Eq, Drop, Error)]
pub enum FileFault {
    /// No file has the name.
    #[error("no such file")]
    NotFound,
    /// The file may not be read.
    #[error("permission denied")]
    PermissionDenied,
    /// The name is that of a directory.
    #[error("is a directory")]
    IsADirectory,
    /// Why is not known.
    #[error("cannot be read")]
    Other,
}

/// The words that say why, after the file's name.
pub(crate) fn file_fault_text(fault: FileFault) -> &'static [u8]
    ensures { result.now ≡ file_fault_text fault }
{
    match fault {
        FileFault::NotFound => b"no such file",
        FileFault::PermissionDenied => b"permission denied",
        FileFault::IsADirectory => b"is a directory",
        FileFault::Other => b"cannot be read",
    }
}
