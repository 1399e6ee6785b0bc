ghost use Rattle.std.specs.Prelude.{◌≡◌, IfNone, None, Some};
ghost use Rattle.assembler.specs.Faults.{lower, name, number};
ghost use Rattle.assembler.specs.declared.fault.AsmFault.TheVariants.{Memory};

use std::alloc::{AllocError, AllocFailed};
use thiserror::Error;

/// Why a line cannot be assembled. Of several that hold in a line the first of this order is answered.
#[derive(Clone, Copy, Debug, PartialEq, Eq, Drop, Error)]
pub enum LineFault {
    /// A byte that no source has.
    #[error("NotText")]
    NotText = 2,
    /// No label or blank in the first column, or no word after it.
    #[error("UnknownWord")]
    UnknownWord,
    /// Operands that do not belong to the word, or a number of 2^32 or more.
    #[error("BadOperand")]
    BadOperand,
    /// No byte that is rotated by an even number of places is the immediate operand.
    #[error("ImmediateNotRotated")]
    ImmediateNotRotated,
    /// A branch of less than -2^25 or more than 2^25 - 4 bytes from the address two words on.
    #[error("BranchTooFar")]
    BranchTooFar,
    /// A label that an earlier line has.
    #[error("LabelTwice")]
    LabelTwice,
    /// A label that no line has.
    #[error("LabelMissing")]
    LabelMissing,
    /// A number does not fit its field, a branch leads to no word's address, or an ORG or a word has an
    /// address where no word of an image may be or one is already.
    #[error("OutOfRange")]
    OutOfRange,
    /// A word that is no instruction.
    #[error("Unallocated")]
    Unallocated,
    /// The 65,537th word or the 17th segment.
    #[error("TooLong")]
    TooLong,
}

/// Why a source cannot be assembled.
#[derive(Clone, Copy, Debug, PartialEq, Eq, Drop, Error)]
pub enum AsmFault {
    /// An allocation failed.
    #[error("Memory")]
    Memory,
    /// A line's fault, and its number from 1.
    #[error("{0} at line {1}")]
    Line(LineFault, usize),
}

impl From<AllocError> for AsmFault {
    ghost from_gives = { λ _ fault. fault ≡ Memory };

    fn from(_refused: AllocError) -> AsmFault {
        AsmFault::Memory
    }
}

impl<T: Drop> From<AllocFailed<T>> for AsmFault {
    ghost from_gives = { λ _ fault. fault ≡ Memory };

    fn from(_refused: AllocFailed<T>) -> AsmFault {
        AsmFault::Memory
    }
}

impl LineFault {
    fn number(self) -> u32
        ensures { result ≡ number self }
    {
        self as u32
    }

    /// The fault's name, as a refusal says it.
    pub fn name(self) -> &'static [u8]
        ensures { result.now ≡ name self }
    {
        match self {
            LineFault::NotText => b"NotText",
            LineFault::UnknownWord => b"UnknownWord",
            LineFault::BadOperand => b"BadOperand",
            LineFault::ImmediateNotRotated => b"ImmediateNotRotated",
            LineFault::BranchTooFar => b"BranchTooFar",
            LineFault::LabelTwice => b"LabelTwice",
            LineFault::LabelMissing => b"LabelMissing",
            LineFault::OutOfRange => b"OutOfRange",
            LineFault::Unallocated => b"Unallocated",
            LineFault::TooLong => b"TooLong",
        }
    }
}

/// The first of two faults in the order of their names.
pub(crate) fn lower(one: Option<LineFault>, other: Option<LineFault>) -> Option<LineFault>
    ensures value { result ≡ lower one other }
    ensures none { IfNone result ((one ≡ None) × (other ≡ None)) }
{
    match one {
        None => other,
        Some(a) => match other {
            None => one,
            Some(b) => { if b.number() < a.number() { other } else { one } }
        },
    }
}

/// The first of a fault and another in the order of their names.
pub(crate) fn lowest(fault: LineFault, other: Option<LineFault>) -> LineFault
    ensures { Some result ≡ lower (Some fault) other }
{
    match other {
        None => fault,
        Some(b) => {
            if b.number() < fault.number() {
                b
            } else {
                fault
            }
        }
    }
}
