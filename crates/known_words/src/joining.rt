ghost use Rattle.std.specs.Prelude.{IfSome};
ghost use Rattle.known_words.specs.Implying.{Implies, ImpliesWord};

use crate::knowledge::{Compared, Knowledge};
use crate::words::{Known, Range, Sum, Word};
use arm2_decode::Register;

fn hull_of_ranges(first: Range, second: Range) -> Range {
    Range {
        low: first.low.min(second.low),
        high: first.high.max(second.high),
    }
}

// Of two sums with the same start and steps.
fn hull_of_sums(first: Sum, second: Sum) -> Option<Sum> {
    if first.start != second.start || first.steps != second.steps {
        return None;
    }
    let end = first.least.saturating_add(first.width);
    let last = end.max(second.least.saturating_add(second.width));
    let least = first.least.min(second.least);
    Some(Sum {
        start: first.start,
        least,
        width: last.saturating_sub(least),
        steps: first.steps,
    })
}

// What may be known of a word of which one or the other is known.
fn hull(first: Known, second: Known) -> Known {
    let Known::Word(x) = first else {
        return Known::Any;
    };
    let Known::Word(y) = second else {
        return Known::Any;
    };
    let range = hull_of_ranges(x.range, y.range);
    match hull_of_sums(x.sum, y.sum) {
        Some(sum) => Known::Word(Word { sum, range }),
        None => Known::between(range.low, range.high),
    }
}

impl Known {
    // The candidate, where it is seen to follow from both.
    fn either_as(self, other: Known, candidate: Known) -> Known
        ensures own { ImpliesWord self result }
        ensures others { ImpliesWord other result }
    {
        if !self.implies(candidate) {
            return Known::Any;
        }
        if !other.implies(candidate) {
            return Known::Any;
        }
        candidate
    }

    /// What is known of a word of which the one or the other is known.
    pub fn joined(self, other: Known) -> Known
        ensures own { ImpliesWord self result }
        ensures others { ImpliesWord other result }
    {
        if self.implies(other) {
            return other;
        }
        self.either_as(other, hull(self, other))
    }

    /// The same, where the other is new: what is known already, if the other implies it, and else nothing.
    pub fn widened(self, other: Known) -> Known
        ensures own { ImpliesWord self result }
        ensures others { ImpliesWord other result }
    {
        self.either_as(other, self)
    }
}

macro_rules! registers_by {
    ($by:ident, $first:expr, $second:expr, $($name:ident)+) => {
        [$($first.of(Register::$name).$by($second.of(Register::$name))),+]
    };
}

impl Compared {
    fn joined(self, other: Compared) -> Compared {
        if self == other {
            self
        } else {
            Compared::Nothing
        }
    }
}

impl Knowledge {
    fn registers_joined(&self, other: &Knowledge) -> Knowledge {
        Knowledge {
            registers: registers_by!(
                joined, self, other, R0 R1 R2 R3 R4 R5 R6 R7 R8 R9 R10 R11 R12 R13 R14
            ),
            compared: self.compared.joined(other.compared),
        }
    }

    fn registers_widened(&self, other: &Knowledge) -> Knowledge {
        Knowledge {
            registers: registers_by!(
                widened, self, other, R0 R1 R2 R3 R4 R5 R6 R7 R8 R9 R10 R11 R12 R13 R14
            ),
            compared: self.compared.joined(other.compared),
        }
    }

    // The candidate, where it is seen to follow from both.
    fn either_as(&self, other: &Knowledge, candidate: Knowledge) -> Option<Knowledge>
        ensures { IfSome result (λ known. Implies self.now known × Implies other.now known) }
    {
        if !self.implies(&candidate) {
            return None;
        }
        if !other.implies(&candidate) {
            return None;
        }
        Some(candidate)
    }

    /// What is known where the one or the other is known; none where that is not seen.
    pub fn joined(&self, other: &Knowledge) -> Option<Knowledge>
        ensures { IfSome result (λ known. Implies self.now known × Implies other.now known) }
    {
        self.either_as(other, self.registers_joined(other))
    }

    /// The same, where the other is new: of each register what is known already, if the other implies it, and
    /// else nothing.
    pub fn widened(&self, other: &Knowledge) -> Option<Knowledge>
        ensures { IfSome result (λ known. Implies self.now known × Implies other.now known) }
    {
        self.either_as(other, self.registers_widened(other))
    }
}
