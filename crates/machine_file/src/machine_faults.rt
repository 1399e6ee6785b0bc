ghost use Rattle.std.specs.Prelude.{◌≡◌};
ghost use Rattle.machine_file.specs.MachineFaults.{machine_faults};
ghost use Rattle.machine_file.specs.declared.machine_faults.MachineFileFault.TheVariants.{Memory};

use std::alloc::AllocError;
use thiserror::Error;
use toml_reading::{Fault, Reading};

/// What is read of a machine file.
pub(crate) type Read<T> = Reading<T, MachineFileFault>;

/// Why a text is no machine file. Of several faults over the whole text the first of these is answered.
#[derive(Clone, Copy, Debug, PartialEq, Eq, Drop, Error)]
pub enum MachineFileFault {
    /// An allocation failed.
    #[error("Memory")]
    Memory = 1,
    /// The bytes are not UTF-8 or no TOML document.
    #[error("NotToml")]
    NotToml,
    /// The file, or a table in it, has a key that it may not have, or a register that is none of those it may
    /// name.
    #[error("UnknownKey")]
    UnknownKey,
    /// A key is missing, a value has another type than its key takes, or a word, a letter or a line's name is
    /// unknown.
    #[error("WrongKind")]
    WrongKind,
    /// A number is none of those that its key takes.
    #[error("OutOfRange")]
    OutOfRange,
    /// A logical or a physical page in two maps, a step in two events, an address in two words, or a flag
    /// twice.
    #[error("Twice")]
    Twice,
}

impl From<AllocError> for MachineFileFault {
    ghost from_gives = { λ _ fault. fault ≡ Memory };

    fn from(_refused: AllocError) -> MachineFileFault {
        MachineFileFault::Memory
    }
}

impl Fault for MachineFileFault {
    ghost faults = { machine_faults };

    fn rank(self) -> u32 {
        self as u32
    }

    fn unknown_key() -> Self {
        MachineFileFault::UnknownKey
    }

    fn wrong_kind() -> Self {
        MachineFileFault::WrongKind
    }

    fn out_of_range() -> Self {
        MachineFileFault::OutOfRange
    }
}
