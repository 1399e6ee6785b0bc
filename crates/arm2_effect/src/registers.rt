ghost use Rattle.std.specs.Prelude.{◌≡◌, ◌<◌, false, length, replicate, slice_index, slice_set};
ghost use Rattle.arm2_decode.specs.Names.{is_pc, register_number};
ghost use Rattle.arm2_effect.specs.Modes.{reg_number, register_in, slot_of, with_register};

use crate::modes::{Mode, Reg};
use arm2_decode::Register;
use std::marker::Model;

/// The 27 registers, in the order of [`Reg`].
#[derive(Drop)]
pub struct Registers {
    words: [u32; 27],
}

impl Model for Registers {
    ghost use Rattle.std.specs.Prelude.{ℕ, List};

    ghost Value = { List ℕ };

    ghost view = { λ r. r.words };
}

impl Registers {
    /// All 0.
    pub fn new() -> Self
        ensures { result ≡ replicate 27 0 }
    {
        Registers { words: [0; 27] }
    }

    /// The word in a register.
    #[inline(always)]
    pub fn get(&self, register: Reg) -> u32
        ensures word { result ≡ slice_index self.now (reg_number register) }
        ensures all { length self.now ≡ 27 }
    {
        self.words[register.number()]
    }

    /// Puts a word into a register.
    #[inline(always)]
    pub fn set(&mut self, register: Reg, word: u32)
        ensures word { self.new ≡ slice_set self.old (reg_number register) word }
        ensures all { length self.new ≡ 27 }
    {
        self.words[register.number()] = word;
    }

    /// The word in a register as an instruction of the mode names it.
    #[inline(always)]
    pub fn read(&self, mode: Mode, register: Register) -> u32
        ensures { result ≡ register_in mode (register_number register) self.now }
    {
        self.words[slot_of(mode, register)]
    }

    /// Puts a word into a register as an instruction of the mode names it.
    #[inline(always)]
    pub fn write(&mut self, mode: Mode, register: Register, word: u32)
        ensures { self.new ≡ with_register mode (register_number register) word self.old }
    {
        self.words[slot_of(mode, register)] = word;
    }
}

/// The place of a mode's register among the 27: FIQ has its own from R8 on, IRQ and SVC from R13 on, and R15
/// comes last.
#[inline(always)]
pub fn slot_of(mode: Mode, register: Register) -> usize
    ensures slot { result ≡ slot_of mode (register_number register) }
    ensures fits { result < 27 }
    ensures below_r15 { is_pc register ≡ false → result < 26 }
{
    let number = register.number() as usize;
    if number < 8 {
        return number;
    }
    match mode {
        _ if number == 15 => Reg::R15.number(),
        Mode::Fiq => number + 7,
        Mode::Irq if number >= 13 => number + 9,
        Mode::Svc if number >= 13 => number + 11,
        _ => number,
    }
}
