use crate::trial::Outcome;

/// The status where memory was refused beside the calls.
pub(crate) const OUT_OF_MEMORY: u8 = 3;

const WRONG: u8 = 1;

const NO_SUCH_CALL: u8 = 2;

/// The outcomes of the calls so far.
#[derive(Clone, Copy)]
pub(crate) struct Tally {
    has_any: bool,
    has_wrong: bool,
    has_unmade: bool,
}

impl Tally {
    /// Of no outcome yet.
    pub(crate) fn new() -> Tally {
        Tally {
            has_any: false,
            has_wrong: false,
            has_unmade: false,
        }
    }

    /// Counts an outcome.
    pub(crate) fn add(&mut self, outcome: Outcome) {
        self.has_any = true;
        if outcome.is_wrong() {
            self.has_wrong = true;
        }
        if outcome.is_unmade() {
            self.has_unmade = true;
        }
    }

    /// The exit status.
    pub(crate) fn status(self) -> u8 {
        if !self.has_any {
            return NO_SUCH_CALL;
        }
        if self.has_wrong {
            return WRONG;
        }
        if self.has_unmade { OUT_OF_MEMORY } else { 0 }
    }
}
