ghost use Rattle.std.specs.Prelude.{◌≡◌};
ghost use Rattle.sources.specs.Source.{of_dialect, of_image};
ghost use Rattle.sources.specs.declared.fault.SourceFault.TheVariants.{Memory};

use assembler::AsmFault;
use image::ReadFault;
use objasm::DialectFault;
use std::alloc::AllocError;
use thiserror::Error;

/// Why a source cannot be read. A failed allocation is always `Memory`, never inside another variant.
#[derive(Clone, Copy, Debug, PartialEq, Eq, Drop, Error)]
pub enum SourceFault {
    /// An allocation failed.
    #[error("Memory")]
    Memory,
    /// The text cannot be assembled.
    #[error("{0}")]
    Text(AsmFault),
    /// The bytes begin as an image and are none.
    #[error("{0}")]
    Image(ReadFault),
    /// The text is in ObjAsm's dialect and cannot be translated.
    #[error("{0}")]
    Dialect(DialectFault),
}

impl From<AllocError> for SourceFault {
    ghost from_gives = { λ _ fault. fault ≡ Memory };

    fn from(_refused: AllocError) -> SourceFault {
        SourceFault::Memory
    }
}

impl From<ReadFault> for SourceFault {
    ghost from_gives = { λ lower fault. fault ≡ of_image lower };

    fn from(lower: ReadFault) -> SourceFault {
        match lower {
            ReadFault::Memory => SourceFault::Memory,
            _ => SourceFault::Image(lower),
        }
    }
}

impl From<DialectFault> for SourceFault {
    ghost from_gives = { λ lower fault. fault ≡ of_dialect lower };

    fn from(lower: DialectFault) -> SourceFault {
        match lower {
            DialectFault::Memory => SourceFault::Memory,
            _ => SourceFault::Dialect(lower),
        }
    }
}
