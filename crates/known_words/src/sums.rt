ghost use Rattle.std.specs.Prelude.{◌≡◌, ◌+◌, ◌-◌, ◌*◌, ◌%◌, ◌^◌, ◌≤◌, ℕ, List, IfSome};
ghost use Rattle.known_words.specs.Known.{IsIn, IsKnown, IsSum, start_in};
ghost use Rattle.known_words.specs.Sums.{Adds, AddsSteps, Subtracts, SubtractsSteps};

use crate::words::{Known, Range, Start, Steps, Sum, Word};

/// Every word.
pub(crate) const ALL: Range = Range {
    low: 0,
    high: u32::MAX,
};

fn start_of_sum(first: Start, second: Start) -> Option<Start>
    ensures { IfSome result (λ start. (entry : List ℕ)
        → start_in start entry ≡ start_in first entry + start_in second entry) }
{
    match first {
        Start::Zero => Some(second),
        Start::Entry(_) => match second {
            Start::Zero => Some(first),
            Start::Entry(_) => None,
        },
    }
}

fn steps_of_sum(first: Steps, second: Steps) -> Steps
    ensures { AddsSteps first second result }
{
    Steps {
        outermost: first.outermost.wrapping_add(second.outermost),
        second: first.second.wrapping_add(second.second),
        third: first.third.wrapping_add(second.third),
        fourth: first.fourth.wrapping_add(second.fourth),
    }
}

// On 32 bits, so many times.
fn difference(first: u32, second: u32) -> u32
    ensures { (times : ℕ) → (result * times + second * times) % 2 ^ 32 ≡ first * times % 2 ^ 32 }
{
    first.wrapping_sub(second)
}

fn steps_of_difference(first: Steps, second: Steps) -> Steps
    ensures { SubtractsSteps first second result }
{
    Steps {
        outermost: difference(first.outermost, second.outermost),
        second: difference(first.second, second.second),
        third: difference(first.third, second.third),
        fourth: difference(first.fourth, second.fourth),
    }
}

fn sum_of(first: Sum, second: Sum) -> Option<Sum>
    ensures { (entry turns : List ℕ) → (x y : ℕ) → IsSum entry turns first x → IsSum entry turns second y
        → IfSome result (λ sum. IsSum entry turns sum ((x + y) % 2 ^ 32)) }
{
    let Some(start) = start_of_sum(first.start, second.start) else {
        return None;
    };
    let Some(width) = first.width.checked_add(second.width) else {
        return None;
    };
    Some(Sum {
        start,
        least: first.least.wrapping_add(second.least),
        width,
        steps: steps_of_sum(first.steps, second.steps),
    })
}

// Only a word that is counted from 0 is taken off.
fn difference_of(first: Sum, second: Sum) -> Option<Sum>
    ensures { (entry turns : List ℕ) → (x y : ℕ) → IsSum entry turns first x → IsSum entry turns second y
        → IfSome result (λ sum. IsSum entry turns sum ((x + 2 ^ 32 - y) % 2 ^ 32)) }
{
    match second.start {
        Start::Zero => {}
        Start::Entry(_) => return None,
    }
    let Some(width) = first.width.checked_add(second.width) else {
        return None;
    };
    Some(Sum {
        start: first.start,
        least: difference(difference(first.least, second.least), second.width),
        width,
        steps: steps_of_difference(first.steps, second.steps),
    })
}

fn range_of_sum(first: Range, second: Range) -> Range
    ensures { (x y : ℕ) → IsIn first x → IsIn second y → IsIn result ((x + y) % 2 ^ 32) }
{
    match first.high.checked_add(second.high) {
        Some(high) => Range {
            low: first.low.wrapping_add(second.low),
            high,
        },
        None => ALL,
    }
}

fn range_of_difference(first: Range, second: Range) -> Range
    ensures { (x y : ℕ) → IsIn first x → IsIn second y → IsIn result ((x + 2 ^ 32 - y) % 2 ^ 32) }
{
    if second.high <= first.low {
        Range {
            low: first.low - second.high,
            high: first.high.wrapping_sub(second.low),
        }
    } else {
        ALL
    }
}

// A word of which the sum may be unknown.
fn in_range(sum: Option<Sum>, range: Range) -> Known
    ensures { (entry turns : List ℕ) → (word : ℕ) → IfSome sum (λ sum. IsSum entry turns sum word)
        → IsIn range word → IsKnown entry turns result word }
{
    match sum {
        Some(sum) => Known::Word(Word { sum, range }),
        None => Known::between(range.low, range.high),
    }
}

/// The sum of two words, on 32 bits.
pub fn added(first: Known, second: Known) -> Known
    ensures { Adds first second result }
{
    match first {
        Known::Word(x) => match second {
            Known::Word(y) => in_range(sum_of(x.sum, y.sum), range_of_sum(x.range, y.range)),
            _ => Known::Any,
        },
        _ => Known::Any,
    }
}

/// The first word less the second, on 32 bits.
pub fn subtracted(first: Known, second: Known) -> Known
    ensures { Subtracts first second result }
{
    match first {
        Known::Word(x) => match second {
            Known::Word(y) => in_range(
                difference_of(x.sum, y.sum),
                range_of_difference(x.range, y.range),
            ),
            _ => Known::Any,
        },
        _ => Known::Any,
    }
}
