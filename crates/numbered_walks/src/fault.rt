ghost use Rattle.std.specs.Prelude.{◌≡◌};
ghost use Rattle.numbered_walks.specs.declared.fault.WalkFault.TheVariants.{Memory};

use std::alloc::{AllocError, AllocFailed};
use thiserror::Error;

/// Why there is no greatest walk, or why a list did not grow.
#[derive(Clone, Copy, Debug, PartialEq, Eq, Error)]
pub enum WalkFault {
    /// An allocation failed.
    #[error("Memory")]
    Memory,
    /// No walk from the entry leaves the handler.
    #[error("NoCompleteWalk")]
    NoCompleteWalk,
    /// Some walk from the entry that keeps the bounds costs 2^63 ticks or more.
    #[error("BoundTooLarge")]
    BoundTooLarge,
}

impl From<AllocError> for WalkFault {
    ghost from_gives = { λ _ fault. fault ≡ Memory };

    fn from(_refused: AllocError) -> WalkFault {
        WalkFault::Memory
    }
}

impl<T: Drop> From<AllocFailed<T>> for WalkFault {
    ghost from_gives = { λ _ fault. fault ≡ Memory };

    fn from(_refused: AllocFailed<T>) -> WalkFault {
        WalkFault::Memory
    }
}
