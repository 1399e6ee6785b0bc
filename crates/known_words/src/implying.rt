ghost use Rattle.std.specs.Prelude.{◌≡◌, ℕ, List, IsTrue, false};
ghost use Rattle.arm2_decode.specs.Names.{is_pc};
ghost use Rattle.known_words.specs.Implying.{Implies, ImpliesWord, IsCounted, IsPartOf, IsSumOf};
ghost use Rattle.known_words.specs.Knowledge.{AreFlagsOf, known_of};

use crate::knowledge::{Compared, Knowledge, is_same};
use crate::words::{Known, NO_STEPS, Range, Start, Steps, Sum, Word};
use arm2_decode::Register;

fn is_part_of(range: Range, other: Range) -> bool
    ensures { IsTrue result → IsPartOf range other }
{
    other.low <= range.low && range.high <= other.high
}

pub(crate) fn is_zero(start: Start) -> bool
    ensures { IsTrue result → start ≡ Start.Zero }
{
    match start {
        Start::Zero => true,
        Start::Entry(_) => false,
    }
}

fn is_same_start(start: Start, other: Start) -> bool
    ensures { IsTrue result → other ≡ start }
{
    match start {
        Start::Zero => is_zero(other),
        Start::Entry(register) => match other {
            Start::Zero => false,
            Start::Entry(same) => register == same,
        },
    }
}

fn are_same_steps(steps: Steps, other: Steps) -> bool
    ensures { IsTrue result → other ≡ steps }
{
    steps == other
}

// A number in the range, counted from 0.
fn is_counted(range: Range, sum: Sum) -> bool
    ensures { IsTrue result → IsCounted range sum }
{
    if !is_zero(sum.start) {
        return false;
    }
    if !are_same_steps(NO_STEPS, sum.steps) {
        return false;
    }
    let Some(most) = sum.least.checked_add(sum.width) else {
        return false;
    };
    if range.low < sum.least {
        return false;
    }
    range.high <= most
}

fn is_sum_of(sum: Sum, other: Sum) -> bool
    ensures { IsTrue result → IsSumOf sum other }
{
    if !is_same_start(sum.start, other.start) {
        return false;
    }
    if !are_same_steps(sum.steps, other.steps) {
        return false;
    }
    let Some(more) = sum.least.checked_sub(other.least) else {
        return false;
    };
    let Some(width) = more.checked_add(sum.width) else {
        return false;
    };
    width <= other.width
}

fn implies_word(word: Word, other: Word) -> bool
    ensures { IsTrue result → ImpliesWord (Known.Word word) (Known.Word other) }
{
    if !is_part_of(word.range, other.range) {
        return false;
    }
    if is_sum_of(word.sum, other.sum) {
        return true;
    }
    is_counted(word.range, other.sum)
}

fn is_address(known: Known, address: u32) -> bool
    ensures { IsTrue result → ImpliesWord known (Known.Address address) }
{
    match known {
        Known::Address(same) => same == address,
        _ => false,
    }
}

impl Known {
    /// Whether of each word that is known so the other is known too; false where that is not seen.
    pub fn implies(self, other: Known) -> bool
        ensures { IsTrue result → ImpliesWord self other }
    {
        match other {
            Known::Any => true,
            Known::Address(address) => is_address(self, address),
            Known::Word(word) => match self {
                Known::Word(own) => implies_word(own, word),
                _ => false,
            },
        }
    }
}

impl Compared {
    fn implies(self, other: Compared) -> bool
        ensures { IsTrue result → (now : List ℕ) → AreFlagsOf self now → AreFlagsOf other now }
    {
        match other {
            Compared::Nothing => true,
            Compared::Of(_) | Compared::Less(_, _) => self == other,
        }
    }
}

impl Knowledge {
    fn implies_of(&self, other: &Knowledge, register: Register) -> bool
        requires { is_pc register ≡ false }
        ensures { IsTrue result → ImpliesWord (known_of self.now register) (known_of other.now register) }
    {
        self.of(register).implies(other.of(register))
    }

    // Of each register.
    fn implies_registers(&self, other: &Knowledge) -> bool
        ensures { IsTrue result → (register : Register) → is_pc register ≡ false
            → ImpliesWord (known_of self.now register) (known_of other.now register) }
    {
        self.implies_of(other, Register::R0)
            && self.implies_of(other, Register::R1)
            && self.implies_of(other, Register::R2)
            && self.implies_of(other, Register::R3)
            && self.implies_of(other, Register::R4)
            && self.implies_of(other, Register::R5)
            && self.implies_of(other, Register::R6)
            && self.implies_of(other, Register::R7)
            && self.implies_of(other, Register::R8)
            && self.implies_of(other, Register::R9)
            && self.implies_of(other, Register::R10)
            && self.implies_of(other, Register::R11)
            && self.implies_of(other, Register::R12)
            && self.implies_of(other, Register::R13)
            && self.implies_of(other, Register::R14)
    }

    /// Whether of all registers of which this is known the other is known too; false where that is not seen.
    pub fn implies(&self, other: &Knowledge) -> bool
        ensures { IsTrue result → Implies self.now other.now }
    {
        if !self.compared.implies(other.compared) {
            return false;
        }
        self.implies_registers(other)
    }
}
