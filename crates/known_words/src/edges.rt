ghost use Rattle.std.specs.Prelude.{◌≡◌, ◌≢◌, ◌≤◌, ◌<◌, ◌^◌, ℕ, List, true, false};
ghost use Rattle.arm2_decode.specs.Conditions.{condition_holds};
ghost use Rattle.arm2_decode.specs.declared.flags.Flags.{Flags};
ghost use Rattle.arm2_effect.specs.Modes.{r15_in};
ghost use Rattle.arm2_effect.specs.Outcomes.{difference_of, flags_after};
ghost use Rattle.arm2_effect.specs.ProgramCounter.{flags_of};
ghost use Rattle.known_words.specs.Edges.{Narrows, NarrowsWord};
ghost use Rattle.known_words.specs.Knowledge.{AreSigns, Holds};
ghost use Rattle.known_words.specs.Known.{IsIn};

use crate::forgetting::learned;
use crate::knowledge::{Compared, Knowledge};
use crate::words::{Known, Range, Word};
use arm2_decode::{Cond, Register};

// A condition that holds where the other holds or not; the signed ones say nothing where they do not hold.
fn holding(cond: Cond, holds: bool) -> Cond
    ensures { (flags : Flags) → condition_holds cond flags ≡ holds → condition_holds result flags ≡ true }
{
    if holds {
        return cond;
    }
    match cond {
        Cond::Eq => Cond::Ne,
        Cond::Ne => Cond::Eq,
        Cond::Cs => Cond::Cc,
        Cond::Cc => Cond::Cs,
        Cond::Mi => Cond::Pl,
        Cond::Pl => Cond::Mi,
        Cond::Hi => Cond::Ls,
        Cond::Ls => Cond::Hi,
        _ => Cond::Al,
    }
}

fn at_least(known: Known, low: u32) -> Known
    ensures { NarrowsWord (λ word. low ≤ word) known result }
{
    match known {
        Known::Word(word) => Known::Word(Word {
            sum: word.sum,
            range: Range {
                low: word.range.low.max(low),
                high: word.range.high,
            },
        }),
        _ => known,
    }
}

fn at_most(known: Known, high: u32) -> Known
    ensures { NarrowsWord (λ word. word ≤ high) known result }
{
    match known {
        Known::Word(word) => Known::Word(Word {
            sum: word.sum,
            range: Range {
                low: word.range.low,
                high: word.range.high.min(high),
            },
        }),
        Known::Any => Known::between(0, high),
        Known::Address(_) => known,
    }
}

fn range_other_than(range: Range, number: u32) -> Range
    ensures { (word : ℕ) → word ≢ number → IsIn range word → IsIn result word }
{
    if range.low == number {
        return match number.checked_add(1) {
            Some(low) => Range {
                low,
                high: range.high,
            },
            None => range,
        };
    }
    if range.high == number {
        return match number.checked_sub(1) {
            Some(high) => Range {
                low: range.low,
                high,
            },
            None => range,
        };
    }
    range
}

fn other_than(known: Known, number: u32) -> Known
    ensures { NarrowsWord (λ word. word ≢ number) known result }
{
    match known {
        Known::Word(word) => Known::Word(Word {
            sum: word.sum,
            range: range_other_than(word.range, number),
        }),
        _ => known,
    }
}

// By the condition that holds of flags of which N and Z are those of the word.
fn by_signs(condition: Cond, known: Known) -> Known
    ensures { (flags : Flags) → NarrowsWord (λ word. AreSigns flags word × (condition_holds condition flags ≡ true))
        known result }
{
    match condition {
        Cond::Eq => at_most(known, 0),
        Cond::Ne => other_than(known, 0),
        Cond::Mi => at_least(known, 0x8000_0000),
        Cond::Pl => at_most(known, 0x7FFF_FFFF),
        _ => known,
    }
}

fn below(known: Known, number: u32) -> Known
    ensures { NarrowsWord (λ word. word < number) known result }
{
    match number.checked_sub(1) {
        Some(high) => at_most(known, high),
        None => known,
    }
}

fn above(known: Known, number: u32) -> Known
    ensures { NarrowsWord (λ word. number < word) known result }
{
    match number.checked_add(1) {
        Some(low) => at_least(known, low),
        None => known,
    }
}

// Of what is no sum it is not known that it fits 32 bits.
fn at_most_word(known: Known, number: u32) -> Known
    ensures { NarrowsWord (λ word. word < 2 ^ 32 → word ≤ number) known result }
{
    match known {
        Known::Word(_) => at_most(known, number),
        _ => known,
    }
}

fn number_alone(known: Known, number: u32) -> Known
    ensures { NarrowsWord (λ word. word < 2 ^ 32 → word ≡ number) known result }
{
    match known {
        Known::Word(_) => at_least(at_most(known, number), number),
        _ => known,
    }
}

// By the condition that holds of the flags of the word less the number.
fn by_difference(condition: Cond, known: Known, number: u32) -> Known
    ensures { NarrowsWord (λ word.
        condition_holds condition (flags_after (difference_of word number false)) ≡ true) known result }
{
    match condition {
        Cond::Eq => number_alone(known, number),
        Cond::Ne => other_than(known, number),
        Cond::Cs => at_least(known, number),
        Cond::Cc => below(known, number),
        Cond::Hi => above(known, number),
        Cond::Ls => at_most_word(known, number),
        _ => known,
    }
}

fn narrowed_by_signs(before: &Knowledge, condition: Cond, register: Register) -> Knowledge
    requires { before.now.compared ≡ Compared.Of register }
    ensures { Narrows condition before.now result }
{
    if register.is_pc() {
        return *before;
    }
    learned(before, register, by_signs(condition, before.of(register)))
}

fn narrowed_by_difference(
    before: &Knowledge,
    condition: Cond,
    register: Register,
    number: u32,
) -> Knowledge
    requires { before.now.compared ≡ Compared.Less register number }
    ensures { Narrows condition before.now result }
{
    if register.is_pc() {
        return *before;
    }
    learned(
        before,
        register,
        by_difference(condition, before.of(register), number),
    )
}

fn narrowed_where(before: &Knowledge, condition: Cond) -> Knowledge
    ensures { Narrows condition before.now result }
{
    match before.compared {
        Compared::Nothing => *before,
        Compared::Of(register) => narrowed_by_signs(before, condition, register),
        Compared::Less(register, number) => {
            narrowed_by_difference(before, condition, register, number)
        }
    }
}

/// What is known where the condition holds, or does not.
pub fn narrowed(before: &Knowledge, cond: Cond, holds: bool) -> Knowledge
    ensures { (entry turns now : List ℕ) → condition_holds cond (flags_of (r15_in now)) ≡ holds
        → Holds entry turns before.now now → Holds entry turns result now }
{
    narrowed_where(before, holding(cond, holds))
}
