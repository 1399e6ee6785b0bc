ghost use Rattle.std.specs.Prelude.{◌≡◌, ◌+◌, ◌≤◌, ℕ, List, IfSome};
ghost use Rattle.known_words.specs.Known.{Computes, IsKnown};
ghost use Rattle.known_words.specs.Values.{GivesValue, IsWithin};

use crate::sums::{added, subtracted};
use crate::words::Known;
use arm2_decode::Opcode;

// What bits of two numbers make.
fn value_of(opcode: Opcode, x: u32, y: u32) -> Option<u32>
    ensures { IfSome result (λ value. GivesValue opcode x y value) }
{
    match opcode {
        Opcode::And => Some(x & y),
        Opcode::Eor => Some(x ^ y),
        Opcode::Orr => Some(x | y),
        Opcode::Bic => Some(x & !y),
        _ => None,
    }
}

// What bits of two words make that are known exactly.
fn exact_value(opcode: Opcode, first: Known, operand: Known) -> Option<u32>
    ensures { (entry turns : List ℕ) → (x y : ℕ) → IsKnown entry turns first x → IsKnown entry turns operand y
        → IfSome result (λ value. GivesValue opcode x y value) }
{
    let Some(x) = first.exact() else {
        return None;
    };
    let Some(y) = operand.exact() else {
        return None;
    };
    value_of(opcode, x, y)
}

// A word of no more than another.
fn at_most(known: Known) -> Known
    ensures { IsWithin known result }
{
    match known {
        Known::Word(word) => Known::between(0, word.range.high),
        _ => Known::Any,
    }
}

fn and_of(first: Known, operand: Known) -> Known
    ensures { Computes Opcode.And first operand result }
{
    match operand {
        Known::Word(_) => at_most(operand),
        _ => at_most(first),
    }
}

fn bic_of(first: Known, operand: Known) -> Known
    ensures { Computes Opcode.Bic first operand result }
{
    let _ = operand;
    at_most(first)
}

// Neither has a bit that is in none of the two, so both are at most the sum.
fn highest_of(first: Known, operand: Known) -> Option<u32>
    ensures { (entry turns : List ℕ) → (x y : ℕ) → IsKnown entry turns first x → IsKnown entry turns operand y
        → IfSome result (λ high. x + y ≤ high) }
{
    match first {
        Known::Word(x) => match operand {
            Known::Word(y) => x.range.high.checked_add(y.range.high),
            _ => None,
        },
        _ => None,
    }
}

fn orr_of(first: Known, operand: Known) -> Known
    ensures { Computes Opcode.Orr first operand result }
{
    match highest_of(first, operand) {
        Some(high) => Known::between(0, high),
        None => Known::Any,
    }
}

fn eor_of(first: Known, operand: Known) -> Known
    ensures { Computes Opcode.Eor first operand result }
{
    match highest_of(first, operand) {
        Some(high) => Known::between(0, high),
        None => Known::Any,
    }
}

fn add_of(first: Known, operand: Known) -> Known
    ensures { Computes Opcode.Add first operand result }
{
    added(first, operand)
}

fn sub_of(first: Known, operand: Known) -> Known
    ensures { Computes Opcode.Sub first operand result }
{
    subtracted(first, operand)
}

fn rsb_of(first: Known, operand: Known) -> Known
    ensures { Computes Opcode.Rsb first operand result }
{
    subtracted(operand, first)
}

fn mvn_of(operand: Known) -> Known
    ensures { (first : Known) → Computes Opcode.Mvn first operand result }
{
    match operand {
        Known::Word(_) => subtracted(Known::exactly(u32::MAX), operand),
        _ => Known::Any,
    }
}

// By sums and ranges.
fn ranged(opcode: Opcode, first: Known, operand: Known) -> Known
    ensures { Computes opcode first operand result }
{
    match opcode {
        Opcode::Add => add_of(first, operand),
        Opcode::Sub => sub_of(first, operand),
        Opcode::Rsb => rsb_of(first, operand),
        Opcode::And => and_of(first, operand),
        Opcode::Bic => bic_of(first, operand),
        Opcode::Orr => orr_of(first, operand),
        Opcode::Eor => eor_of(first, operand),
        Opcode::Mov => operand,
        Opcode::Mvn => mvn_of(operand),
        _ => Known::Any,
    }
}

/// What is known of the word that data processing computes from a known word and a known operand.
pub fn computed(opcode: Opcode, first: Known, operand: Known) -> Known
    ensures { Computes opcode first operand result }
{
    match exact_value(opcode, first, operand) {
        Some(value) => Known::exactly(value),
        None => ranged(opcode, first, operand),
    }
}
