ghost use Rattle.std.specs.Prelude.{◌≡◌};
ghost use Rattle.statement.specs.StatementFaults.{statement_faults};
ghost use Rattle.statement.specs.declared.faults.StatementFault.TheVariants.{Memory};

use std::alloc::AllocError;
use thiserror::Error;
use toml_reading::{Fault, Reading};

/// What is read of a statement.
pub(crate) type Read<T> = Reading<T, StatementFault>;

/// Why a text is no statement. Of several faults over the whole text the first of these is answered.
#[derive(Clone, Copy, Debug, PartialEq, Eq, Drop, Error)]
pub enum StatementFault {
    /// An allocation failed.
    #[error("Memory")]
    Memory = 1,
    /// The bytes are not UTF-8 or no TOML document.
    #[error("NotToml")]
    NotToml,
    /// The statement, or a table of its lists, has a key that it may not have.
    #[error("UnknownKey")]
    UnknownKey,
    /// A key is missing, a value has another type or is another word than its key takes, an entry of `apart`
    /// is no list of two values, or `to` is empty or misplaced. A register is named as in a source.
    #[error("WrongKind")]
    WrongKind,
    /// A text in place of an address is no label, nor one with `+` or `-` and a number of bytes.
    #[error("UnknownLabel")]
    UnknownLabel,
    /// An address, or a number of bytes behind a label, is no multiple of 4, an address is not from 0 to
    /// 3FFFFFC, a bound is not from 0 to 1,048,576, cycles are not from 1 to 16, a header lies outside first
    /// to last, where words lie as what is apart moves them, one end of a loop is apart and the other is not,
    /// the last address of a stretch apart or of a rule for a base register lies before its first, or there
    /// are more than 256 stretches, 256 loops, 1,024 targets, 64 destinations, 4,096 accesses, 256 rules,
    /// 1,024 multiplies or 1,024 branches.
    #[error("OutOfRange")]
    OutOfRange,
    /// Two targets, two accesses, two multiplies or two branches are stated for one address, two rules for
    /// one register at one address, or a destination twice.
    #[error("Twice")]
    Twice,
}

impl From<AllocError> for StatementFault {
    ghost from_gives = { λ _ fault. fault ≡ Memory };

    fn from(_refused: AllocError) -> StatementFault {
        StatementFault::Memory
    }
}

impl Fault for StatementFault {
    ghost faults = { statement_faults };

    fn rank(self) -> u32 {
        self as u32
    }

    fn unknown_key() -> Self {
        StatementFault::UnknownKey
    }

    fn wrong_kind() -> Self {
        StatementFault::WrongKind
    }

    fn out_of_range() -> Self {
        StatementFault::OutOfRange
    }
}
