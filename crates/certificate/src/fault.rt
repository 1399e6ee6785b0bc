ghost use Rattle.std.specs.Prelude.{◌≡◌};
ghost use Rattle.certificate.specs.declared.fault.CertFault.TheVariants.{Memory};

use std::alloc::{AllocError, AllocFailed};
use thiserror::Error;

/// Why a text is no certificate.
#[derive(Clone, Copy, Debug, PartialEq, Eq, Error)]
pub enum CertFault {
    /// An allocation failed.
    #[error("Memory")]
    Memory,
    /// The whole line of this number, counted from 1, does not fit.
    #[error("BadLine at line {0}")]
    BadLine(usize),
    /// The text ends within a line or before the line `stop`.
    #[error("Truncated")]
    Truncated,
    /// Bytes follow the line `stop`.
    #[error("TrailingBytes")]
    TrailingBytes,
}

impl From<AllocError> for CertFault {
    ghost from_gives = { λ _ fault. fault ≡ Memory };

    fn from(_refused: AllocError) -> CertFault {
        CertFault::Memory
    }
}

impl<T: Drop> From<AllocFailed<T>> for CertFault {
    ghost from_gives = { λ _ fault. fault ≡ Memory };

    fn from(_refused: AllocFailed<T>) -> CertFault {
        CertFault::Memory
    }
}
