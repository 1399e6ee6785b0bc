ghost use Rattle.std.specs.Prelude.{◌≡◌};
ghost use Rattle.machine_file.specs.ProfileFaults.{profile_faults};
ghost use Rattle.machine_file.specs.declared.profile_faults.ProfileFileFault.TheVariants.{Memory};

use std::alloc::AllocError;
use thiserror::Error;
use toml_reading::Fault;

/// Why a text is no cycle profile file. Of several faults over the whole text the first of these is answered.
#[derive(Clone, Copy, Debug, PartialEq, Eq, Drop, Error)]
pub enum ProfileFileFault {
    /// An allocation failed.
    #[error("Memory")]
    Memory = 1,
    /// The bytes are not UTF-8 or no TOML document.
    #[error("NotToml")]
    NotToml,
    /// The file has a key that is none of a profile's.
    #[error("UnknownKey")]
    UnknownKey,
    /// A key is missing, or its value is no number, or no list of four numbers.
    #[error("WrongKind")]
    WrongKind,
    /// A price is not from 1 to 255 ticks, or a burst's not from 0 to 255.
    #[error("OutOfRange")]
    OutOfRange,
    /// All are in range, but not in the order that a profile keeps.
    #[error("Disordered")]
    Disordered,
}

impl From<AllocError> for ProfileFileFault {
    ghost from_gives = { λ _ fault. fault ≡ Memory };

    fn from(_refused: AllocError) -> ProfileFileFault {
        ProfileFileFault::Memory
    }
}

impl Fault for ProfileFileFault {
    ghost faults = { profile_faults };

    fn rank(self) -> u32 {
        self as u32
    }

    fn unknown_key() -> Self {
        ProfileFileFault::UnknownKey
    }

    fn wrong_kind() -> Self {
        ProfileFileFault::WrongKind
    }

    fn out_of_range() -> Self {
        ProfileFileFault::OutOfRange
    }
}
