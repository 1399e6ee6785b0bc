ghost use Rattle.std.specs.Prelude.{◌≡◌, ◌<◌, ◌%◌};
ghost use Rattle.arm2_effect.specs.Operands.{first_of, operand_of, rotated_byte};
ghost use Rattle.arm2_effect.specs.Operands.{shifted_by_amount};
ghost use Rattle.arm2_effect.specs.Operands.{shifted_by_register};

use crate::modes::Reg;
use crate::program_counter::{address_of, flags_of, mode_of, r15_ahead};
use crate::registers::Registers;
use arm2_decode::{Register, Shift};
use bus_ticks::ahead_of;
use shifter::{Shifted, rotate_imm, shift_imm, shift_reg};

impl Registers {
    /// A register as the first operand, or as a base: of R15 the address bits alone, so many bytes ahead.
    #[inline(always)]
    pub fn first_of(&self, register: Register, bytes: u32) -> u32
        requires words { bytes % 4 ≡ 0 }
        requires small { bytes < 16 }
        ensures { result ≡ first_of bytes register self.now }
    {
        let r15 = self.get(Reg::R15);
        if register.is_pc() {
            return ahead_of(address_of(r15), bytes);
        }
        self.read(mode_of(r15), register)
    }

    // A register where it is shifted: of R15 all bits, with the address so many bytes ahead.
    #[inline(always)]
    fn operand_of(&self, register: Register, bytes: u32) -> u32
        requires words { bytes % 4 ≡ 0 }
        requires small { bytes < 16 }
        ensures { result ≡ operand_of bytes register self.now }
    {
        let r15 = self.get(Reg::R15);
        if register.is_pc() {
            return r15_ahead(r15, bytes);
        }
        self.read(mode_of(r15), register)
    }

    /// A register that is shifted by an amount in the word, from 0 to 31.
    ///
    /// The second operand of data processing, and the offset of a load or store.
    #[tactic(auto, using(crate::proofs::Words::shifted_is))]
    #[inline(always)]
    pub fn shifted_by_amount(&self, shift: Shift, amount: u32, rm: Register) -> Shifted
        requires { amount < 32 }
        ensures { result ≡ shifted_by_amount shift amount rm self.now }
    {
        let carry = flags_of(self.get(Reg::R15)).carry;
        shift_imm(shift, amount, self.operand_of(rm, 8), carry)
    }

    /// A register that is shifted by the low byte of another.
    #[tactic(auto, using(crate::proofs::Words::shifted_is))]
    pub(crate) fn shifted_by_register(&self, shift: Shift, rs: Register, rm: Register) -> Shifted
        ensures { result ≡ shifted_by_register shift rs rm self.now }
    {
        let r15 = self.get(Reg::R15);
        let amount = self.read(mode_of(r15), rs) % 256;
        shift_reg(shift, amount, self.operand_of(rm, 12), flags_of(r15).carry)
    }

    /// A byte that is rotated right by twice the rotation, which is from 0 to 15.
    #[tactic(auto, using(crate::proofs::Words::shifted_is))]
    #[inline(always)]
    pub(crate) fn rotated_byte(&self, value: u32, rotation: u32) -> Shifted
        requires byte { value < 256 }
        requires places { rotation < 16 }
        ensures { result ≡ rotated_byte value rotation self.now }
    {
        let carry = flags_of(self.get(Reg::R15)).carry;
        rotate_imm(value, rotation, carry)
    }
}
