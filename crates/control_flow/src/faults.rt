ghost use Rattle.std.specs.Prelude.{◌≡◌};
ghost use Rattle.control_flow.specs.declared.faults.BuildFault.TheVariants.{Memory};

use std::alloc::{AllocError, AllocFailed};
use thiserror::Error;

/// Why there is no flow graph. An address is that of a reached place, but for that of `TargetNotWriter`.
#[derive(Clone, Copy, Debug, PartialEq, Eq, Drop, Error)]
pub enum BuildFault {
    /// An allocation failed.
    #[error("Memory")]
    Memory,
    /// The image has no word there.
    #[error("OutsideImage at {0:X}")]
    OutsideImage(u32),
    /// The word there is no instruction, and its condition is not NV.
    #[error("UnallocatedWord at {0:X}")]
    UnallocatedWord(u32),
    /// The word there is a software interrupt or undefined, and its condition is not NV.
    #[error("TrapInHandler at {0:X}")]
    TrapInHandler(u32),
    /// A place with eight calls has a word that calls, and its condition is not NV.
    #[error("TooDeep")]
    TooDeep,
    /// More than 16,384 places are reached, besides Exit.
    #[error("TooManyPlaces")]
    TooManyPlaces,
    /// A target is stated for that address, where the image has no word that writes R15.
    #[error("TargetNotWriter at {0:X}")]
    TargetNotWriter(u32),
    /// The statement asks for stated returns, and the word there writes R15 and has no stated target. Its
    /// condition is not NV.
    #[error("UnstatedTarget at {0:X}")]
    UnstatedTarget(u32),
}

impl From<AllocError> for BuildFault {
    ghost from_gives = { λ _ fault. fault ≡ Memory };

    fn from(_refused: AllocError) -> BuildFault {
        BuildFault::Memory
    }
}

impl<T: Drop> From<AllocFailed<T>> for BuildFault {
    ghost from_gives = { λ _ fault. fault ≡ Memory };

    fn from(_refused: AllocFailed<T>) -> BuildFault {
        BuildFault::Memory
    }
}
