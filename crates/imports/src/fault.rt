ghost use Rattle.std.specs.Prelude.{◌≡◌};
ghost use Rattle.imports.specs.declared.fault.ImportFault.TheVariants.{Memory};

use std::alloc::AllocError;
use thiserror::Error;

/// Why bytes are not imported. An address is that of the first word that an image cannot take, or of a
/// segment.
#[derive(Clone, Copy, Debug, PartialEq, Eq, Drop, Error)]
pub enum ImportFault {
    /// An allocation failed.
    #[error("Memory")]
    Memory,
    /// There are more than 16 parts.
    #[error("TooManyParts")]
    TooManyParts,
    /// The address is no multiple of 4.
    #[error("Misaligned at {0:X}")]
    Misaligned(u32),
    /// The address is in I/O, 3000000 to 33FFFFF, or past 3FFFFFC.
    #[error("OutOfRange at {0:X}")]
    OutOfRange(u32),
    /// An earlier part has a word at the address.
    #[error("Overlap at {0:X}")]
    Overlap(u32),
    /// The word at the address is the 65,537th, or begins the 17th run of words side by side.
    #[error("TooLong at {0:X}")]
    TooLong(u32),
    /// The file does not begin as an ELF file, with the bytes 7F 45 4C 46.
    #[error("NotElf")]
    NotElf,
    /// The file begins as a chunk file of Acorn's, with the word C3CBC6C5: an object that is not linked
    /// (AOF), or a library.
    #[error("AcornObject")]
    AcornObject,
    /// The file ends in its ELF header, of 52 bytes.
    #[error("HeaderCut")]
    HeaderCut,
    /// The ELF file's class is not that of 32 bits, 1.
    #[error("Not32Bit")]
    Not32Bit,
    /// The ELF file's data are not little-endian, 1.
    #[error("NotLittleEndian")]
    NotLittleEndian,
    /// The ELF file's version is not 1.
    #[error("NotVersion1")]
    NotVersion1,
    /// The ELF file's machine is not ARM, 40.
    #[error("NotArm")]
    NotArm,
    /// The ELF file's type is not that of an executable, 2.
    #[error("NotExecutable")]
    NotExecutable,
    /// A program header of the ELF file does not have 32 bytes.
    #[error("BadEntrySize")]
    BadEntrySize,
    /// The ELF file's program headers are not all in the file.
    #[error("TableOutside")]
    TableOutside,
    /// The ELF file has no loadable segment with bytes.
    #[error("NoSegment")]
    NoSegment,
    /// The ELF file's loadable segment with the address is not all in the file.
    #[error("SegmentOutside at {0:X}")]
    SegmentOutside(u32),
}

impl From<AllocError> for ImportFault {
    ghost from_gives = { λ _ fault. fault ≡ Memory };

    fn from(_refused: AllocError) -> ImportFault {
        ImportFault::Memory
    }
}
