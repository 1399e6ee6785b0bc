use crate::trial::{Answer, Trial};
use arcwcet::ReportFault;
use std::alloc::Global;

/// How many words, labels or items are put in turn, one by each call. It is more than the first of them takes
/// memory for.
pub(crate) const IN_TURN: u8 = 64;

/// What words, labels or items are put into.
pub(crate) trait Puts {
    /// Puts the n-th, and answers what that did.
    fn put_nth(&mut self, alloc: Global, n: u8) -> Answer;

    /// Whether it has the first so many, and no other.
    fn has_first(&self, count: u8) -> bool;
}

/// Words, labels or items put in turn.
#[derive(Drop)]
pub(crate) struct PutInTurn<P> {
    into: P,
    put: u8,
}

impl<P: Puts> PutInTurn<P> {
    /// What there is before the call: nothing was put yet.
    pub(crate) fn new(into: P) -> PutInTurn<P> {
        PutInTurn { into, put: 0 }
    }
}

impl<P: Puts> Trial for PutInTurn<P> {
    fn make(&mut self, alloc: Global) -> Result<Answer, ReportFault> {
        for n in self.put..IN_TURN {
            match self.into.put_nth(alloc, n) {
                Answer::Right => self.put = n.saturating_add(1),
                answer => return Ok(answer),
            }
        }
        Ok(Answer::of(self.into.has_first(self.put)))
    }

    fn is_unchanged(&mut self, _alloc: Global) -> Result<bool, ReportFault> {
        Ok(self.into.has_first(self.put))
    }
}
