use arcwcet::ReportFault;
use std::alloc::{AllocError, Global};
use std::fmt;
use std::fmt::Write;

/// What a call answered.
#[derive(Clone, Copy)]
pub(crate) enum Answer {
    Right,
    Wrong,
    /// The refusal for memory, also that of an output that takes memory.
    Refused,
}

impl Answer {
    /// The answer of a call that was not refused.
    pub(crate) fn of(is_right: bool) -> Answer {
        if is_right {
            Answer::Right
        } else {
            Answer::Wrong
        }
    }

    /// The answer of a call that returned a value, which is dropped.
    pub(crate) fn of_value<T: Drop>(is_right: bool, value: T) -> Answer {
        drop(value);
        Answer::of(is_right)
    }

    /// The answer of a call that was refused.
    pub(crate) fn of_refusal(is_unchanged: bool) -> Answer {
        if is_unchanged {
            Answer::Refused
        } else {
            Answer::Wrong
        }
    }

    /// The answer of a call that makes a text.
    pub(crate) fn of_text(made: Result<Vec<u8>, AllocError>, wanted: &[u8]) -> Answer {
        match made {
            Ok(text) => Answer::of(text.as_slice() == wanted),
            Err(_) => Answer::Refused,
        }
    }
}

/// A call that takes memory, with what it changes.
///
/// An error of either method says why what the call needs could not be had: what the call is made with, or
/// what its answer is compared with.
pub(crate) trait Trial {
    /// Makes the call, and compares its answer with the right one.
    fn make(&mut self, alloc: Global) -> Result<Answer, ReportFault>;

    /// Whether what the call changes is as it was before the call.
    fn is_unchanged(&mut self, alloc: Global) -> Result<bool, ReportFault>;
}

/// The outcome of a call that is made again after a refusal.
#[derive(Clone, Copy)]
pub(crate) enum Outcome {
    Right,
    Wrong,
    /// Memory was refused, and the call made again returned the right answer.
    RightAgain,
    /// Memory was refused, and the call made again returned a wrong answer.
    WrongAgain,
    /// Memory was refused twice.
    RefusedAgain,
    /// Memory was refused, and what the call changes was not as before.
    Changed,
    /// What the call needs could not be had.
    Unmade(ReportFault),
}

impl Outcome {
    /// Whether it is none of the outcomes that a call may have.
    pub(crate) fn is_wrong(self) -> bool {
        match self {
            Outcome::Right | Outcome::RightAgain | Outcome::Unmade(ReportFault::Memory) => false,
            _ => true,
        }
    }

    /// Whether memory was refused beside the call.
    pub(crate) fn is_unmade(self) -> bool {
        match self {
            Outcome::Unmade(ReportFault::Memory) => true,
            _ => false,
        }
    }
}

impl fmt::Display for Outcome {
    fn fmt<W: Write>(&self, f: &mut fmt::Formatter<W>) -> fmt::Result {
        match self {
            Outcome::Right => f.write_str("ok"),
            Outcome::Wrong => f.write_str("a wrong answer"),
            Outcome::RightAgain => f.write_str("memory refused, then ok"),
            Outcome::WrongAgain => f.write_str("memory refused, then a wrong answer"),
            Outcome::RefusedAgain => f.write_str("memory refused, then refused again"),
            Outcome::Changed => f.write_str("memory refused, and not all is as before"),
            Outcome::Unmade(ReportFault::Memory) => f.write_str("memory refused in the set-up"),
            Outcome::Unmade(fault) => write!(f, "the set-up was refused: {fault}"),
        }
    }
}

// Makes a call again that was refused for memory.
fn tried_again<T: Trial>(alloc: Global, trial: &mut T) -> Result<Outcome, ReportFault> {
    if !trial.is_unchanged(alloc)? {
        return Ok(Outcome::Changed);
    }
    Ok(match trial.make(alloc)? {
        Answer::Right => Outcome::RightAgain,
        Answer::Wrong => Outcome::WrongAgain,
        Answer::Refused => Outcome::RefusedAgain,
    })
}

/// Makes a call, and makes it again if memory was refused.
pub(crate) fn tried<T: Trial>(alloc: Global, trial: &mut T) -> Result<Outcome, ReportFault> {
    match trial.make(alloc)? {
        Answer::Right => Ok(Outcome::Right),
        Answer::Wrong => Ok(Outcome::Wrong),
        Answer::Refused => match tried_again(alloc, trial) {
            // Beside the call that is made again.
            Err(ReportFault::Memory) => Ok(Outcome::RefusedAgain),
            outcome => outcome,
        },
    }
}
