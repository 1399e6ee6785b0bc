use known_words::{Depth, Knowledge, Known, Steps, Sum, Turn, Turns};

/// What a word moves by at each turn of the loop of the depth.
pub(crate) fn step_of(steps: Steps, depth: Depth) -> u32 {
    match depth {
        Depth::Outermost => steps.outermost,
        Depth::Second => steps.second,
        Depth::Third => steps.third,
        Depth::Fourth => steps.fourth,
    }
}

/// The same sum with another step of the loop of the depth.
pub(crate) fn with_step(sum: Sum, depth: Depth, step: u32) -> Sum {
    let mut steps = sum.steps;
    match depth {
        Depth::Outermost => steps.outermost = step,
        Depth::Second => steps.second = step,
        Depth::Third => steps.third = step,
        Depth::Fourth => steps.fourth = step,
    }
    Sum {
        start: sum.start,
        least: sum.least,
        width: sum.width,
        steps,
    }
}

// A sum after an edge, if it is one still.
fn sum_turned(sum: Sum, depth: Depth, turn: Turn) -> Option<Sum> {
    let step = step_of(sum.steps, depth);
    match turn {
        Turn::Stays => Some(sum),
        Turn::Again => Some(Sum {
            start: sum.start,
            least: sum.least.wrapping_sub(step),
            width: sum.width,
            steps: sum.steps,
        }),
        Turn::Begins => { if step == 0 { Some(sum) } else { None } }
    }
}

fn word_turned(known: Known, depth: Depth, turn: Turn) -> Known {
    let Known::Word(mut word) = known else {
        return known;
    };
    match sum_turned(word.sum, depth, turn) {
        Some(sum) => {
            word.sum = sum;
            Known::Word(word)
        }
        None => Known::between(word.range.low, word.range.high),
    }
}

fn turned_all(known: Known, turns: Turns) -> Known {
    let first = word_turned(known, Depth::Outermost, turns.outermost);
    let second = word_turned(first, Depth::Second, turns.second);
    let third = word_turned(second, Depth::Third, turns.third);
    word_turned(third, Depth::Fourth, turns.fourth)
}

/// What is known after an edge on which the loops around turn so, by what its word leaves.
pub(crate) fn turned(known: &Knowledge, turns: Turns) -> Knowledge {
    let mut next = *known;
    for register in 0..next.registers.len() {
        next.registers[register] = turned_all(known.registers[register], turns);
    }
    next
}
