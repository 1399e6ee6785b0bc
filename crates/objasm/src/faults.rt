ghost use Rattle.std.specs.Prelude.{◌≡◌};
ghost use Rattle.objasm.specs.Faults.{name};
ghost use Rattle.objasm.specs.declared.faults.LineFault.TheVariants.{Memory};

use std::alloc::{AllocError, AllocFailed};
use thiserror::Error;

/// Why a line of the dialect is not translated.
#[derive(Clone, Copy, Debug, PartialEq, Eq, Drop, Error)]
pub enum LineFault {
    /// An allocation failed.
    #[error("Memory")]
    Memory,
    /// A directive of ObjAsm that is not translated, or a sign where a word stands.
    #[error("UnknownDirective")]
    UnknownDirective,
    /// What is to be set begins with a digit or is the name of a register, or a name begins as those of words
    /// that are loaded do: with `literal_` and a digit.
    #[error("BadName")]
    BadName,
    /// A name that is set before, or the label of a line that is a name set.
    #[error("NameTwice")]
    NameTwice,
    /// A name in an expression that no line sets, or in a line that sets a name none whose value is known; in
    /// a map and a condition none whose value is known above.
    #[error("NameMissing")]
    NameMissing,
    /// What stands for a number is no expression.
    #[error("BadExpression")]
    BadExpression,
    /// Digits that are no number below 2^32.
    #[error("BadNumber")]
    BadNumber,
    /// A division by 0 or with a number of 2^31 or more, a shift by 32 places or more, or an operator between
    /// values that it is not for.
    #[error("NoValue")]
    NoValue,
    /// A register of a number above 15, or no register behind the comma of a map.
    #[error("BadRegister")]
    BadRegister,
    /// Something behind a word or a sign that takes nothing.
    #[error("BadOperand")]
    BadOperand,
    /// The value of a comparison where a number stands, or a name with a base register.
    #[error("NotANumber")]
    NotANumber,
    /// A number where the value of a comparison is wanted.
    #[error("NotLogical")]
    NotLogical,
    /// What is asserted does not hold.
    #[error("AssertionFailed")]
    AssertionFailed,
    /// `|` or `]` where no condition is open.
    #[error("ConditionMissing")]
    ConditionMissing,
    /// A second `|` of one condition.
    #[error("ElseTwice")]
    ElseTwice,
    /// A condition that is open at the end, at the line that opened it.
    #[error("ConditionOpen")]
    ConditionOpen,
    /// A condition inside 64 others.
    #[error("ConditionTooDeep")]
    ConditionTooDeep,
    /// A number or a label that is loaded behind the last LTORG, where no END follows.
    #[error("PoolMissing")]
    PoolMissing,
    /// What stands for a line does not lie side by side, as an ORG is among it.
    #[error("Scattered")]
    Scattered,
}

impl From<AllocError> for LineFault {
    ghost from_gives = { λ _ fault. fault ≡ Memory };

    fn from(_refused: AllocError) -> LineFault {
        LineFault::Memory
    }
}

impl<T: Drop> From<AllocFailed<T>> for LineFault {
    ghost from_gives = { λ _ fault. fault ≡ Memory };

    fn from(_refused: AllocFailed<T>) -> LineFault {
        LineFault::Memory
    }
}

impl LineFault {
    /// The fault's name, as a refusal says it.
    pub fn name(self) -> &'static [u8]
        ensures { result.now ≡ name self }
    {
        match self {
            LineFault::Memory => b"Memory",
            LineFault::UnknownDirective => b"UnknownDirective",
            LineFault::BadName => b"BadName",
            LineFault::NameTwice => b"NameTwice",
            LineFault::NameMissing => b"NameMissing",
            LineFault::BadExpression => b"BadExpression",
            LineFault::BadNumber => b"BadNumber",
            LineFault::NoValue => b"NoValue",
            LineFault::BadRegister => b"BadRegister",
            LineFault::BadOperand => b"BadOperand",
            LineFault::NotANumber => b"NotANumber",
            LineFault::NotLogical => b"NotLogical",
            LineFault::AssertionFailed => b"AssertionFailed",
            LineFault::ConditionMissing => b"ConditionMissing",
            LineFault::ElseTwice => b"ElseTwice",
            LineFault::ConditionOpen => b"ConditionOpen",
            LineFault::ConditionTooDeep => b"ConditionTooDeep",
            LineFault::PoolMissing => b"PoolMissing",
            LineFault::Scattered => b"Scattered",
        }
    }
}
