ghost use Rattle.std.specs.Prelude.{◌≡◌};
ghost use Rattle.loop_bounds.specs.declared.fault.NestFault.TheVariants.{Memory};

use std::alloc::{AllocError, AllocFailed};
use thiserror::Error;

/// Why the loops of a handler have no tree. Of those that apply the first is answered, in this order.
#[derive(Clone, Copy, Debug, PartialEq, Eq, Error)]
pub enum NestFault {
    /// An allocation failed.
    #[error("Memory")]
    Memory,

    /// Two instances overlap, and neither lies within the other.
    #[error("LoopsCross")]
    LoopsCross,

    /// Two stated loops have one header address.
    #[error("SharedHeader")]
    SharedHeader,

    /// The handler begins at a member that is not the header, or an edge from outside leads to one.
    #[error("EntersMidLoop")]
    EntersMidLoop,

    /// A cycle without a back edge of a stated loop.
    #[error("UnboundedCycle")]
    UnboundedCycle,

    /// A place is a member of more than 16 instances.
    #[error("NestedTooDeep")]
    NestedTooDeep,
}

impl From<AllocError> for NestFault {
    ghost from_gives = { λ _ fault. fault ≡ Memory };

    fn from(_refused: AllocError) -> NestFault {
        NestFault::Memory
    }
}

impl<T: Drop> From<AllocFailed<T>> for NestFault {
    ghost from_gives = { λ _ fault. fault ≡ Memory };

    fn from(_refused: AllocFailed<T>) -> NestFault {
        NestFault::Memory
    }
}
