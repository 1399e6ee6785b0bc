ghost use Rattle.std.specs.Prelude.{◌≡◌, ◌+◌, ◌*◌, ◌^◌, ◌%◌, ◌≤◌, ℕ, List, slice_index};
ghost use Rattle.std.specs.Prelude.{IfSome, IsTrue, false};
ghost use Rattle.arm2_decode.specs.Names.{is_pc};
ghost use Rattle.known_words.specs.Knowledge.{known_of};
ghost use Rattle.known_words.specs.Known.{IsIn, turned};
ghost use Rattle.known_words.specs.Turning.{Becomes, BecomesSum, BecomesWord, HasNoneAt, IsTurned};
ghost use Rattle.known_words.specs.Turning.{NeverTurns, turns_at};

use crate::implying::is_zero;
use crate::knowledge::Knowledge;
use crate::words::{Known, Range, Steps, Sum, Word};
use arm2_decode::Register;

/// One of the four outermost loops around a place.
#[derive(Clone, Copy, Debug, PartialEq, Eq)]
pub enum Depth {
    Outermost,
    Second,
    Third,
    Fourth,
}

/// What an edge does to the number of turns of a loop around.
#[derive(Clone, Copy, Debug, PartialEq, Eq)]
pub enum Turn {
    /// It stays.
    Stays,
    /// There is one more.
    Again,
    /// There is none: the loop is entered, or there is no loop.
    Begins,
}

/// The same of the four outermost loops around where the edge ends.
#[derive(Clone, Copy, Debug, PartialEq, Eq)]
pub struct Turns {
    pub outermost: Turn,
    pub second: Turn,
    pub third: Turn,
    pub fourth: Turn,
}

// What the turns add after an edge, as a number and so much for each turn before it.
#[derive(Clone, Copy)]
struct Added {
    once: u32,
    step: u32,
}

fn added_before(turn: Turn, step: u32) -> Added
    ensures { (before after : ℕ) → IsTurned turn before after
        → result.once + result.step * before ≡ step * after }
{
    match turn {
        Turn::Stays => Added { once: 0, step },
        Turn::Again => Added { once: step, step },
        Turn::Begins => Added { once: 0, step: 0 },
    }
}

// On 32 bits.
fn least_before(least: u32, first: u32, second: u32, third: u32, fourth: u32) -> u32
    ensures { result ≡ (least + first + second + third + fourth) % 2 ^ 32 }
{
    least
        .wrapping_add(first)
        .wrapping_add(second)
        .wrapping_add(third)
        .wrapping_add(fourth)
}

// The sum before an edge of a word that is this sum after it.
fn sum_before(next: Sum, turns: Turns) -> Sum
    ensures { BecomesSum turns result next }
{
    let outermost = added_before(turns.outermost, next.steps.outermost);
    let second = added_before(turns.second, next.steps.second);
    let third = added_before(turns.third, next.steps.third);
    let fourth = added_before(turns.fourth, next.steps.fourth);
    let least = least_before(
        next.least,
        outermost.once,
        second.once,
        third.once,
        fourth.once,
    );
    Sum {
        start: next.start,
        least,
        width: next.width,
        steps: Steps {
            outermost: outermost.step,
            second: second.step,
            third: third.step,
            fourth: fourth.step,
        },
    }
}

fn word_before(next: Known, turns: Turns) -> Known
    ensures { BecomesWord turns result next }
{
    match next {
        Known::Word(word) => Known::Word(Word {
            sum: sum_before(word.sum, turns),
            range: word.range,
        }),
        Known::Any => Known::Any,
        Known::Address(address) => Known::Address(address),
    }
}

fn are_zero(first: u32, second: u32, third: u32) -> bool
    ensures { IsTrue result → (first ≡ 0) × (second ≡ 0) × (third ≡ 0) }
{
    first == 0 && second == 0 && third == 0
}

fn outermost_alone(steps: Steps) -> Option<u32>
    ensures { IfSome result (λ step. (turns : List ℕ) → turned steps turns ≡ step * slice_index turns 0) }
{
    if !are_zero(steps.second, steps.third, steps.fourth) {
        return None;
    }
    Some(steps.outermost)
}

fn second_alone(steps: Steps) -> Option<u32>
    ensures { IfSome result (λ step. (turns : List ℕ) → turned steps turns ≡ step * slice_index turns 1) }
{
    if !are_zero(steps.outermost, steps.third, steps.fourth) {
        return None;
    }
    Some(steps.second)
}

fn third_alone(steps: Steps) -> Option<u32>
    ensures { IfSome result (λ step. (turns : List ℕ) → turned steps turns ≡ step * slice_index turns 2) }
{
    if !are_zero(steps.outermost, steps.second, steps.fourth) {
        return None;
    }
    Some(steps.third)
}

fn fourth_alone(steps: Steps) -> Option<u32>
    ensures { IfSome result (λ step. (turns : List ℕ) → turned steps turns ≡ step * slice_index turns 3) }
{
    if !are_zero(steps.outermost, steps.second, steps.third) {
        return None;
    }
    Some(steps.fourth)
}

// The step of the loop of the depth, where no other loop moves the word.
fn step_alone(steps: Steps, depth: Depth) -> Option<u32>
    ensures { IfSome result (λ step. (turns : List ℕ) → turned steps turns ≡ step * turns_at depth turns) }
{
    match depth {
        Depth::Outermost => outermost_alone(steps),
        Depth::Second => second_alone(steps),
        Depth::Third => third_alone(steps),
        Depth::Fourth => fourth_alone(steps),
    }
}

// On 32 bits.
fn least_at(least: u32, step: u32, count: u32) -> u32
    ensures { result ≡ (least + step * count) % 2 ^ 32 }
{
    least.wrapping_add(step.wrapping_mul(count))
}

// Whether none of the words from the least, so many more of them and on 32 bits, is in the range.
fn is_apart(least: u32, width: u32, range: Range) -> bool
    ensures { IsTrue result → (more : ℕ) → more ≤ width → IsIn range ((least + more) % 2 ^ 32) → ⊥ }
{
    match least.checked_add(width) {
        Some(last) => last < range.low || range.high < least,
        None => least.wrapping_add(width) < range.low && range.high < least,
    }
}

fn misses(word: Word, depth: Depth, count: u32) -> bool
    ensures { IsTrue result → HasNoneAt depth count (Known.Word word) }
{
    if !is_zero(word.sum.start) {
        return false;
    }
    let Some(step) = step_alone(word.sum.steps, depth) else {
        return false;
    };
    let least = least_at(word.sum.least, step, count);
    is_apart(least, word.sum.width, word.range)
}

fn has_none_at(known: Known, depth: Depth, count: u32) -> bool
    ensures { IsTrue result → HasNoneAt depth count known }
{
    match known {
        Known::Word(word) => misses(word, depth, count),
        _ => false,
    }
}

const BANK: [Register; 15] = [
    Register::R0,
    Register::R1,
    Register::R2,
    Register::R3,
    Register::R4,
    Register::R5,
    Register::R6,
    Register::R7,
    Register::R8,
    Register::R9,
    Register::R10,
    Register::R11,
    Register::R12,
    Register::R13,
    Register::R14,
];

macro_rules! registers_before {
    ($next:expr, $turns:expr, $($name:ident)+) => {
        [$($next.word_before(Register::$name, $turns)),+]
    };
}

impl Knowledge {
    fn word_before(&self, register: Register, turns: Turns) -> Known
        requires { is_pc register ≡ false }
        ensures { BecomesWord turns result (known_of self.now register) }
    {
        word_before(self.of(register), turns)
    }

    /// What is to be known before an edge, where this is known after it and the loops around turn so.
    pub fn before(&self, turns: Turns) -> Knowledge
        ensures { Becomes turns result self.now }
    {
        Knowledge {
            registers: registers_before!(
                self, turns, R0 R1 R2 R3 R4 R5 R6 R7 R8 R9 R10 R11 R12 R13 R14
            ),
            compared: self.compared,
        }
    }

    fn bounds_by(&self, register: Register, depth: Depth, count: u32) -> bool
        ensures { IsTrue result → NeverTurns depth count self.now }
    {
        if register.is_pc() {
            return false;
        }
        has_none_at(self.of(register), depth, count)
    }

    /// Whether by some register the loop of the depth is seen not to have turned so often.
    pub fn never_turns(&self, depth: Depth, count: u32) -> bool
        ensures { IsTrue result → NeverTurns depth count self.now }
    {
        for number in 0..BANK.len() {
            if self.bounds_by(BANK[number], depth, count) {
                return true;
            }
        }
        false
    }
}
