ghost use Rattle.std.specs.Prelude.{◌≡◌, ◌≤◌, ◌+◌, ◌*◌, ℕ, List, IfSome};
ghost use Rattle.numbered_walks.specs.declared.span.NumberedEdge.{NumberedEdge};
ghost use Rattle.known_words.specs.Known.{IsIn, turned};
ghost use Rattle.known_words.specs.Knowledge.{Holds};
ghost use Rattle.known_words.specs.declared.words.Known.{Known};
ghost use Rattle.known_places.specs.Around.{turns_in, turns_of};
ghost use Rattle.known_places.specs.Limits.{AreWithin, KeepsSpans, LimitsWord, Lowers, Reaches};

use crate::around::Around;
use arm2_decode::Register;
use known_words::{Knowledge, Known, Range, Start, Steps, Sum, Word};
use numbered_walks::Span;

/// How often the four outermost loops around have turned at most.
#[derive(Clone, Copy)]
pub(crate) struct Limits {
    pub outermost: u32,
    pub second: u32,
    pub third: u32,
    pub fourth: u32,
}

// The bound of the loop of a number, or that of none.
fn limit_of(spans: &[Span], counted: Option<usize>) -> Option<u32>
    ensures { IfSome result (λ limit. (walk : List NumberedEdge) → KeepsSpans spans.now walk
        → turns_of spans.now counted walk ≤ limit) }
{
    let Some(number) = counted else {
        return Some(0);
    };
    if spans.len() <= number {
        return None;
    }
    Some(spans[number].bound)
}

// The bounds of the loops that are counted at a place.
fn limits_of(spans: &[Span], around: Around) -> Option<Limits>
    ensures { IfSome result (λ limits. (walk : List NumberedEdge) → KeepsSpans spans.now walk
        → AreWithin limits (turns_in spans.now around walk)) }
{
    let Some(outermost) = limit_of(spans, around.outermost) else {
        return None;
    };
    let Some(second) = limit_of(spans, around.second) else {
        return None;
    };
    let Some(third) = limit_of(spans, around.third) else {
        return None;
    };
    let Some(fourth) = limit_of(spans, around.fourth) else {
        return None;
    };
    Some(Limits {
        outermost,
        second,
        third,
        fourth,
    })
}

// The sum of four numbers, where it is a word.
fn sum_of(first: u32, second: u32, third: u32, fourth: u32) -> Option<u32>
    ensures { IfSome result (λ sum. sum ≡ first + second + third + fourth) }
{
    let Some(two) = first.checked_add(second) else {
        return None;
    };
    let Some(three) = two.checked_add(third) else {
        return None;
    };
    three.checked_add(fourth)
}

// What the turns add at most, where that is a word.
fn most_turned(steps: Steps, limits: Limits) -> Option<u32>
    ensures { IfSome result (λ most. (turns : List ℕ) → AreWithin limits turns → turned steps turns ≤ most) }
{
    let Some(outermost) = steps.outermost.checked_mul(limits.outermost) else {
        return None;
    };
    let Some(second) = steps.second.checked_mul(limits.second) else {
        return None;
    };
    let Some(third) = steps.third.checked_mul(limits.third) else {
        return None;
    };
    let Some(fourth) = steps.fourth.checked_mul(limits.fourth) else {
        return None;
    };
    sum_of(outermost, second, third, fourth)
}

// How much the turns of a loop take from a word at most, on 32 bits.
fn most_lowered(step: u32, limit: u32) -> Option<u32>
    ensures { IfSome result (λ most. (turn : ℕ) → turn ≤ limit → Lowers (step * turn) most) }
{
    step.wrapping_neg().checked_mul(limit)
}

// How much all turns take at most.
fn most_fallen(steps: Steps, limits: Limits) -> Option<u32>
    ensures { IfSome result (λ most. (turns : List ℕ) → AreWithin limits turns
        → Lowers (turned steps turns) most) }
{
    let Some(outermost) = most_lowered(steps.outermost, limits.outermost) else {
        return None;
    };
    let Some(second) = most_lowered(steps.second, limits.second) else {
        return None;
    };
    let Some(third) = most_lowered(steps.third, limits.third) else {
        return None;
    };
    let Some(fourth) = most_lowered(steps.fourth, limits.fourth) else {
        return None;
    };
    sum_of(outermost, second, third, fourth)
}

// The words of a sum that is counted from 0 and rises, where none wraps around.
fn rising(sum: Sum, limits: Limits) -> Option<Range>
    ensures { IfSome result (Reaches sum limits) }
{
    let Start::Zero = sum.start else {
        return None;
    };
    let Some(most) = most_turned(sum.steps, limits) else {
        return None;
    };
    let Some(high) = sum_of(sum.least, sum.width, most, 0) else {
        return None;
    };
    Some(Range {
        low: sum.least,
        high,
    })
}

// The same of one that falls.
fn falling(sum: Sum, limits: Limits) -> Option<Range>
    ensures { IfSome result (Reaches sum limits) }
{
    let Start::Zero = sum.start else {
        return None;
    };
    let Some(most) = most_fallen(sum.steps, limits) else {
        return None;
    };
    let Some(low) = sum.least.checked_sub(most) else {
        return None;
    };
    let Some(high) = sum.least.checked_add(sum.width) else {
        return None;
    };
    Some(Range { low, high })
}

fn reach(sum: Sum, limits: Limits) -> Option<Range>
    ensures { IfSome result (Reaches sum limits) }
{
    match rising(sum, limits) {
        Some(range) => Some(range),
        None => falling(sum, limits),
    }
}

// The words that are in both.
fn common(first: Range, second: Range) -> Range
    ensures { (word : ℕ) → IsIn first word → IsIn second word → IsIn result word }
{
    Range {
        low: first.low.max(second.low),
        high: first.high.min(second.high),
    }
}

fn limited_word(word: Word, limits: Limits) -> Word
    ensures { LimitsWord limits (Known.Word word) (Known.Word result) }
{
    match reach(word.sum, limits) {
        Some(range) => Word {
            sum: word.sum,
            range: common(word.range, range),
        },
        None => word,
    }
}

fn limited_known(known: Known, limits: Limits) -> Known
    ensures { LimitsWord limits known result }
{
    match known {
        Known::Word(word) => Known::Word(limited_word(word, limits)),
        Known::Any => Known::Any,
        Known::Address(address) => Known::Address(address),
    }
}

macro_rules! registers_limited {
    ($known:expr, $limits:expr, $($name:ident)+) => {
        [$(limited_known($known.of(Register::$name), $limits)),+]
    };
}

// What is known where the loops around have turned at most so often.
fn limited_by(known: &Knowledge, limits: Limits) -> Knowledge
    ensures { (entry turns now : List ℕ) → AreWithin limits turns → Holds entry turns known.now now
        → Holds entry turns result now }
{
    Knowledge {
        registers: registers_limited!(
            known, limits, R0 R1 R2 R3 R4 R5 R6 R7 R8 R9 R10 R11 R12 R13 R14
        ),
        compared: known.compared,
    }
}

/// What is known at a place after a walk that keeps the bounds of all loops.
pub(crate) fn limited(spans: &[Span], around: Around, known: &Knowledge) -> Knowledge
    ensures { (entry now : List ℕ) → (walk : List NumberedEdge) → KeepsSpans spans.now walk
        → Holds entry (turns_in spans.now around walk) known.now now
        → Holds entry (turns_in spans.now around walk) result now }
{
    match limits_of(spans, around) {
        Some(limits) => limited_by(known, limits),
        None => *known,
    }
}
