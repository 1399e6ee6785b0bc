use crate::turned::{step_of, with_step};
use known_words::{Compared, Depth, Knowledge, Known, Range, Sum, Word};

/// What is known at the header of a loop: where the loop was entered in the last sweep, after its turns, and
/// in all.
#[derive(Clone, Copy)]
pub(crate) struct Header {
    pub entered: Option<Knowledge>,
    pub back: Option<Knowledge>,
    pub value: Option<Knowledge>,
    /// Where the loop is counted.
    pub depth: Option<Depth>,
}

// Whether each implies the other.
fn are_same(first: &Knowledge, second: &Knowledge) -> bool {
    first.implies(second) && second.implies(first)
}

// The least of the ascending numbers from this one on.
fn next_number(numbers: &[u32], from: u32) -> u32 {
    match numbers.binary_search(&from) {
        Ok(_) => from,
        Err(index) => match numbers.get(index) {
            Some(number) => *number,
            None => u32::MAX,
        },
    }
}

// An end that moves goes on to where it may well stay.
fn widened(old: Range, entered: Range, back: Range, numbers: &[u32]) -> Range {
    let low = entered.low.min(back.low);
    let high = entered.high.max(back.high);
    Range {
        low: if old.low <= low { old.low } else { low.min(1) },
        high: if high <= old.high {
            old.high
        } else {
            next_number(numbers, high)
        },
    }
}

// The step by which the words after a turn follow those where the loop is entered.
fn stepped(entered: Sum, back: Sum, depth: Depth) -> Option<Sum> {
    if entered.start != back.start || entered.width != back.width || entered.steps != back.steps {
        return None;
    }
    let step = back.least.wrapping_sub(entered.least);
    Some(with_step(entered, depth, step))
}

// The sum at the header, if there is one still.
fn sum_at(old: Sum, entered: Sum, back: Sum, depth: Option<Depth>) -> Option<Sum> {
    let Some(depth) = depth else {
        return if entered == back { Some(entered) } else { None };
    };
    if with_step(old, depth, 0) != entered {
        return None;
    }
    if old == back {
        return Some(old);
    }
    if step_of(old.steps, depth) != 0 {
        return None;
    }
    stepped(entered, back, depth)
}

impl Header {
    fn word_at(&self, old: Word, entered: Word, back: Word, numbers: &[u32]) -> Known {
        let range = widened(old.range, entered.range, back.range, numbers);
        match sum_at(old.sum, entered.sum, back.sum, self.depth) {
            Some(sum) => Known::Word(Word { sum, range }),
            None => Known::between(range.low, range.high),
        }
    }

    fn known_at(&self, old: Known, entered: Known, back: Known, numbers: &[u32]) -> Known {
        match (old, entered, back) {
            (Known::Word(old), Known::Word(entered), Known::Word(back)) => {
                self.word_at(old, entered, back, numbers)
            }
            _ if back.implies(entered) => entered,
            _ => Known::Any,
        }
    }

    // By what was known there before, where it is entered, and after its turns.
    fn joined(
        &self,
        old: &Knowledge,
        entered: &Knowledge,
        back: &Knowledge,
        numbers: &[u32],
    ) -> Knowledge {
        let mut known = *entered;
        for register in 0..known.registers.len() {
            known.registers[register] = self.known_at(
                old.registers[register],
                entered.registers[register],
                back.registers[register],
                numbers,
            );
        }
        if entered.compared != back.compared {
            known.compared = Compared::Nothing;
        }
        known
    }

    // The same, where the loop was entered before and has turned.
    fn joined_before(&self, entered: &Knowledge, numbers: &[u32]) -> Option<Knowledge> {
        let old = self.value?;
        let back = self.back?;
        Some(self.joined(&old, entered, &back, numbers))
    }

    fn is_entered_alike(&self, entered: &Knowledge) -> bool {
        match &self.entered {
            Some(before) => are_same(before, entered),
            None => false,
        }
    }

    /// Whether nothing changes there, where it is entered with the one and the other is known in all.
    pub(crate) fn stays_with(&self, entered: &Knowledge, value: &Knowledge) -> bool {
        match &self.value {
            Some(old) => self.is_entered_alike(entered) && are_same(old, value),
            None => false,
        }
    }

    /// What is known there, once it is entered with this: it begins anew where that has changed.
    pub(crate) fn with(&self, entered: &Knowledge, numbers: &[u32]) -> Knowledge {
        if !self.is_entered_alike(entered) {
            return *entered;
        }
        match self.joined_before(entered, numbers) {
            Some(known) => known,
            None => *entered,
        }
    }

    /// The same without the registers that still change.
    pub(crate) fn given_up(&self, entered: &Knowledge, numbers: &[u32]) -> Knowledge {
        let Some(old) = self.value else {
            return *entered;
        };
        let Some(mut known) = self.joined_before(entered, numbers) else {
            return *entered;
        };
        for register in 0..known.registers.len() {
            if known.registers[register] != old.registers[register] {
                known.registers[register] = Known::Any;
            }
        }
        known
    }
}
