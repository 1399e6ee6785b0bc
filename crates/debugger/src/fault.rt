ghost use Rattle.std.specs.Prelude.{◌≡◌};
ghost use Rattle.debugger.specs.Faults.{fault_name};
ghost use Rattle.debugger.specs.declared.fault.DebugFault.TheVariants.{Memory};

use std::alloc::AllocError;
use thiserror::Error;

/// Why a command is refused. Of two that hold, the first is answered, but for `Memory`, which any allocation
/// may cause.
#[derive(Clone, Copy, Debug, PartialEq, Eq, Drop, Error)]
pub enum DebugFault {
    /// An allocation failed.
    #[error("Memory")]
    Memory,
    /// The line is empty or begins with no command, has fewer or more words than its command takes, or names
    /// no line of IOC.
    #[error("UnknownCommand")]
    UnknownCommand,
    /// What should be a number is none or lies out of its range, or the words asked for are not aligned or
    /// reach past 3FFFFFC.
    #[error("BadNumber")]
    BadNumber,
    /// A word of the span lies neither in RAM nor in ROM.
    #[error("NoPage")]
    NoPage,
    /// The first step is stopped.
    #[error("MachineStopped")]
    MachineStopped,
    /// Sixteen breakpoints are set already.
    #[error("TooManyBreaks")]
    TooManyBreaks,
}

impl From<AllocError> for DebugFault {
    ghost from_gives = { λ _ fault. fault ≡ Memory };

    fn from(_refused: AllocError) -> DebugFault {
        DebugFault::Memory
    }
}

/// The name that a refusal's line has.
pub(crate) fn fault_name(fault: DebugFault) -> &'static [u8]
    ensures { result.now ≡ fault_name fault }
{
    match fault {
        DebugFault::Memory => b"Memory",
        DebugFault::UnknownCommand => b"UnknownCommand",
        DebugFault::BadNumber => b"BadNumber",
        DebugFault::NoPage => b"NoPage",
        DebugFault::MachineStopped => b"MachineStopped",
        DebugFault::TooManyBreaks => b"TooManyBreaks",
    }
}
