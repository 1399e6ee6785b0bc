ghost use Rattle.std.specs.Prelude.{◌≡◌, ◌<◌, ◌^◌, ℕ, List, false, if◌then◌else◌};
ghost use Rattle.arm2_decode.specs.Names.{is_pc, is_same};
ghost use Rattle.arm2_effect.specs.Modes.{r15_in};
ghost use Rattle.arm2_effect.specs.Operands.{current_in, first_of, operand_of, shifted_by_amount};
ghost use Rattle.arm2_effect.specs.ProgramCounter.{address_of};
ghost use Rattle.known_words.specs.Known.{IsIn, IsKnown};
ghost use Rattle.known_words.specs.Knowledge.{AreWords, Holds, known_of, without};

use crate::operands::shifted;
use crate::sums::ALL;
use crate::words::{Known, NO_STEPS, Range, Start, Sum, Word};
use arm2_decode::{Register, Shift};
use bus_ticks::ahead_of;

/// What the condition flags are those of.
#[derive(Clone, Copy, Debug, PartialEq, Eq)]
pub enum Compared {
    Nothing,
    /// N and Z are those of the word in this register, which is not R15.
    Of(Register),
    /// All are those of the word in this register, which is not R15, less the number.
    Less(Register, u32),
}

pub(crate) fn is_same(register: Register, other: Register) -> bool
    ensures { result ≡ is_same register other }
{
    register.number() == other.number()
}

impl Compared {
    fn without(self, register: Register) -> Compared
        ensures { result ≡ without register self }
    {
        match self {
            Compared::Nothing => Compared::Nothing,
            Compared::Of(other) => {
                if is_same(register, other) {
                    Compared::Nothing
                } else {
                    self
                }
            }
            Compared::Less(other, _) => {
                if is_same(register, other) {
                    Compared::Nothing
                } else {
                    self
                }
            }
        }
    }
}

macro_rules! words_at_entry {
    ($($name:ident)+) => {
        [$(at_entry(Register::$name)),+]
    };
}

/// The word that a register has at the entry, which is in the range.
pub(crate) fn at_entry_in(register: Register, range: Range) -> Known
    ensures { (entry turns : List ℕ) → current_in register entry < 2 ^ 32
        → IsIn range (current_in register entry) → IsKnown entry turns result (current_in register entry) }
{
    Known::Word(Word {
        sum: Sum {
            start: Start::Entry(register),
            least: 0,
            width: 0,
            steps: NO_STEPS,
        },
        range,
    })
}

fn at_entry(register: Register) -> Known
    ensures { (entry turns : List ℕ) → current_in register entry < 2 ^ 32
        → IsKnown entry turns result (current_in register entry) }
{
    at_entry_in(register, ALL)
}

/// What is known of R0 to R14 of the current mode, which is that of the entry, and of the flags.
#[derive(Clone, Copy)]
pub struct Knowledge {
    pub registers: [Known; 15],
    pub compared: Compared,
}

impl Knowledge {
    /// What is known before the first step: each register is its own word at the entry.
    pub fn at_entry() -> Knowledge
        ensures { (entry turns : List ℕ) → AreWords entry → Holds entry turns result entry }
    {
        Knowledge {
            registers: words_at_entry!(R0 R1 R2 R3 R4 R5 R6 R7 R8 R9 R10 R11 R12 R13 R14),
            compared: Compared::Nothing,
        }
    }

    /// What is known of a register other than R15.
    pub fn of(&self, register: Register) -> Known
        requires { is_pc register ≡ false }
        ensures { result ≡ known_of self.now register }
    {
        self.registers[register.number() as usize]
    }

    /// With a word in a register other than R15, and no flags that were those of its old word.
    pub(crate) fn entered(&self, register: Register, known: Known) -> Knowledge
        requires { is_pc register ≡ false }
        ensures registers { (other : Register) → is_pc other ≡ false → known_of result other
            ≡ (if is_same register other then known else known_of self.now other) }
        ensures compared { result.compared ≡ without register self.now.compared }
    {
        let mut registers = self.registers;
        registers[register.number() as usize] = known;
        Knowledge {
            registers,
            compared: self.compared.without(register),
        }
    }

    pub(crate) fn with_flags(&self, compared: Compared) -> Knowledge
        ensures { result ≡ record self.now { compared = compared } }
    {
        Knowledge {
            registers: self.registers,
            compared,
        }
    }

    /// A register as the first operand or as a base, by the address of the instruction.
    pub fn first_of(&self, bytes: u32, register: Register, address: u32) -> Known
        ensures { (entry turns regs : List ℕ) → address_of (r15_in regs) ≡ address
            → Holds entry turns self.now regs → IsKnown entry turns result (first_of bytes register regs) }
    {
        if register.is_pc() {
            return Known::exactly(ahead_of(address, bytes));
        }
        self.of(register)
    }

    // A register where it is shifted.
    pub(crate) fn operand_of(&self, register: Register, address: u32) -> Known
        ensures { (entry turns regs : List ℕ) → address_of (r15_in regs) ≡ address
            → Holds entry turns self.now regs → IsKnown entry turns result (operand_of 8 register regs) }
    {
        if register.is_pc() {
            return Known::Address(ahead_of(address, 8));
        }
        self.of(register)
    }

    /// A register that is shifted by an amount in the instruction.
    pub fn shifted_of(&self, shift: Shift, amount: u32, rm: Register, address: u32) -> Known
        requires { amount < 32 }
        ensures { (entry turns regs : List ℕ) → address_of (r15_in regs) ≡ address
            → Holds entry turns self.now regs
            → IsKnown entry turns result (shifted_by_amount shift amount rm regs).value }
    {
        shifted(shift, amount, self.operand_of(rm, address))
    }
}
