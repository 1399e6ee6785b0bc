ghost use Rattle.std.specs.Prelude.{◌≡◌, ◌≤◌, ℕ, List, IfSome};
ghost use Rattle.known_words.specs.Known.{IsExactly, IsKnown};

use arm2_decode::Register;

/// The word that others are counted from.
#[derive(Clone, Copy, Debug, PartialEq, Eq)]
pub enum Start {
    Zero,
    /// The register, not R15, at the entry and of its mode.
    Entry(Register),
}

/// What a word moves by at each turn of the four outermost loops around, on 32 bits.
#[derive(Clone, Copy, Debug, PartialEq, Eq)]
pub struct Steps {
    pub outermost: u32,
    pub second: u32,
    pub third: u32,
    pub fourth: u32,
}

/// A start word, from `least` to `least` + `width` more, and the steps of the turns, on 32 bits.
#[derive(Clone, Copy, Debug, PartialEq, Eq)]
pub struct Sum {
    pub start: Start,
    pub least: u32,
    pub width: u32,
    pub steps: Steps,
}

/// Both ends count.
#[derive(Clone, Copy, Debug, PartialEq, Eq)]
pub struct Range {
    pub low: u32,
    pub high: u32,
}

/// A word that is both a sum and in a range.
#[derive(Clone, Copy, Debug, PartialEq, Eq)]
pub struct Word {
    pub sum: Sum,
    pub range: Range,
}

/// What is known of a word.
#[derive(Clone, Copy, Debug, PartialEq, Eq)]
pub enum Known {
    /// Nothing.
    Any,
    /// Its address bits are this address; the flags, I, F and the mode beside it are any.
    Address(u32),
    Word(Word),
}

pub(crate) const NO_STEPS: Steps = Steps {
    outermost: 0,
    second: 0,
    third: 0,
    fourth: 0,
};

impl Known {
    /// A word from `low` to `high`.
    pub fn between(low: u32, high: u32) -> Known
        ensures { (entry turns : List ℕ) → (word : ℕ) → low ≤ word → word ≤ high
            → IsKnown entry turns result word }
    {
        Known::Word(Word {
            sum: Sum {
                start: Start::Zero,
                least: low,
                width: high.saturating_sub(low),
                steps: NO_STEPS,
            },
            range: Range { low, high },
        })
    }

    /// This word.
    pub fn exactly(word: u32) -> Known
        ensures { IsExactly result word }
    {
        Known::between(word, word)
    }

    /// The word, where it is one alone.
    pub fn exact(self) -> Option<u32>
        ensures { IfSome result (λ number. (entry turns : List ℕ) → (word : ℕ) → IsKnown entry turns self word
            → word ≡ number) }
    {
        match self {
            Known::Word(word) if word.range.low == word.range.high => Some(word.range.low),
            _ => None,
        }
    }
}
