ghost use Rattle.std.specs.Prelude.{◌≤◌, ◌<◌, ◌^◌, ℕ, List};
ghost use Rattle.arm2_effect.specs.Operands.{current_in};
ghost use Rattle.known_words.specs.Given.{AreGiven};
ghost use Rattle.known_words.specs.Known.{IsKnown};
ghost use Rattle.known_words.specs.Knowledge.{AreWords, Holds};

use crate::forgetting::learned;
use crate::knowledge::{Knowledge, at_entry_in, is_same};
use crate::words::{Known, Range};
use arm2_decode::Register;

/// A fact on a register other than R15 of the entry's mode, before the first step: its word is from `low` to
/// `high`, both included.
#[derive(Clone, Copy, Debug, PartialEq, Eq)]
pub struct Given {
    pub register: Register,
    pub low: u32,
    pub high: u32,
}

// The word of the register: a number, or one from the least to the greatest, so that classes and counts can be
// compared with it. That of R14 is still counted from the register at the entry, since returns are.
fn known_by(given: Given) -> Known
    ensures { (entry turns : List ℕ) → current_in given.register entry < 2 ^ 32
        → given.low ≤ current_in given.register entry → current_in given.register entry ≤ given.high
        → IsKnown entry turns result (current_in given.register entry) }
{
    if given.low == given.high {
        return Known::exactly(given.low);
    }
    if !is_same(given.register, Register::R14) {
        return Known::between(given.low, given.high);
    }
    at_entry_in(
        given.register,
        Range {
            low: given.low,
            high: given.high,
        },
    )
}

// With one fact more; of R15 nothing is known.
fn with_fact(known: &Knowledge, given: &Given) -> Knowledge
    ensures { (entry turns : List ℕ) → AreWords entry → given.now.low ≤ current_in given.now.register entry
        → current_in given.now.register entry ≤ given.now.high → Holds entry turns known.now entry
        → Holds entry turns result entry }
{
    if given.register.is_pc() {
        return *known;
    }
    learned(known, given.register, known_by(*given))
}

impl Knowledge {
    /// What is known before the first step, by facts on registers: where two are on one register, the later
    /// one counts, and facts on R15 do not.
    ///
    /// It takes time linear in the facts.
    pub fn given(facts: &[Given]) -> Knowledge
        ensures { (entry turns : List ℕ) → AreWords entry → AreGiven facts.now entry
            → Holds entry turns result entry }
    {
        let mut known = Knowledge::at_entry();
        for number in 0..facts.len() {
            known = with_fact(&known, &facts[number]);
        }
        known
    }
}
