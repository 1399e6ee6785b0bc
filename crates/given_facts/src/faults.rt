ghost use Rattle.std.specs.Prelude.{◌≡◌};
ghost use Rattle.given_facts.specs.GivenFaults.{given_faults};
ghost use Rattle.given_facts.specs.declared.faults.GivenFault.TheVariants.{Memory};

use std::alloc::AllocError;
use thiserror::Error;
use toml_reading::{Fault, Reading};

/// What is read of a file of facts.
pub(crate) type Read<T> = Reading<T, GivenFault>;

/// Why a text is no file of facts. Of several faults over the whole text the first of these is answered.
#[derive(Clone, Copy, Debug, PartialEq, Eq, Drop, Error)]
pub enum GivenFault {
    /// An allocation failed.
    #[error("Memory")]
    Memory = 1,
    /// The bytes are not UTF-8 or no TOML document.
    #[error("NotToml")]
    NotToml,
    /// The file, or a fact, has a key that it may not have: `value` beside `from` or `to` is one.
    #[error("UnknownKey")]
    UnknownKey,
    /// A key is missing, a value has another type than its key takes, or a word names none of the registers
    /// from R0 to R14.
    #[error("WrongKind")]
    WrongKind,
    /// A number has not 32 bits, or `from` is above `to`.
    #[error("OutOfRange")]
    OutOfRange,
    /// Two facts on one register.
    #[error("Twice")]
    Twice,
}

impl From<AllocError> for GivenFault {
    ghost from_gives = { λ _ fault. fault ≡ Memory };

    fn from(_refused: AllocError) -> GivenFault {
        GivenFault::Memory
    }
}

impl Fault for GivenFault {
    ghost faults = { given_faults };

    fn rank(self) -> u32 {
        self as u32
    }

    fn unknown_key() -> Self {
        GivenFault::UnknownKey
    }

    fn wrong_kind() -> Self {
        GivenFault::WrongKind
    }

    fn out_of_range() -> Self {
        GivenFault::OutOfRange
    }
}
