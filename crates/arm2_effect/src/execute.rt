ghost use Rattle.std.specs.Prelude.{◌≡◌, false};
ghost use Rattle.arm2_decode.specs.Conditions.{condition_holds};
ghost use Rattle.arm2_decode.specs.Writers.{is_transfer};
ghost use Rattle.arm2_effect.specs.Modes.{r15_in};
ghost use Rattle.arm2_effect.specs.ProgramCounter.{flags_of};
ghost use Rattle.arm2_effect.specs.Effects.{IsEffect, is_stopped};
ghost use Rattle.arm2_effect.specs.Operations.{branch_effect, multiply_effect, operation_effect, product_of};

use crate::exceptions::Vector;
use crate::modes::Reg;
use crate::outcomes::Outcome;
use crate::prices::Prices;
use crate::program_counter::{
    address_of, branch_target, flags_of, mode_of, psr_of, r15_ahead, r15_of,
};
use crate::registers::Registers;
use crate::step_end::Done;
use arm2_decode::{Branch, Cond, Multiply, Operation, Register, holds};
use shifter::multiply_cycles;

impl Registers {
    fn product_of(&self, multiply: &Multiply) -> Outcome
        ensures { result ≡ product_of multiply.now self.now }
    {
        let r15 = self.get(Reg::R15);
        let mode = mode_of(r15);
        let addend = if multiply.accumulate {
            self.read(mode, multiply.rn)
        } else {
            0
        };
        let product = self
            .read(mode, multiply.rm)
            .wrapping_mul(self.read(mode, multiply.rs));
        Outcome {
            value: product.wrapping_add(addend),
            carry: flags_of(r15).carry,
            overflow: flags_of(r15).overflow,
        }
    }

    // MUL and MLA.
    #[tactic(auto, unfolding(crate::specs::Operations::multiply_effect))]
    #[inline(never)]
    fn multiply(&mut self, prices: &Prices, multiply: &Multiply) -> Done
        ensures effect { IsEffect prices.now result self.new (multiply_effect multiply.now self.old) }
        ensures goes_on { is_stopped result.kind ≡ false }
    {
        let multiplier = self.read(mode_of(self.get(Reg::R15)), multiply.rs);
        let outcome = self.product_of(multiply);
        let done = self.enter(prices, multiply.sets_flags, multiply.rd, outcome);
        done.delayed(prices.internal(multiply_cycles(multiplier)))
    }

    // B and BL.
    #[tactic(auto, unfolding(crate::specs::Operations::branch_effect))]
    #[inline(always)]
    fn branch(&mut self, prices: &Prices, branch: &Branch) -> Done
        ensures effect { IsEffect prices.now result self.new (branch_effect branch.now self.old) }
        ensures goes_on { is_stopped result.kind ≡ false }
    {
        let r15 = self.get(Reg::R15);
        let to = branch_target(address_of(r15), branch.offset);
        if branch.link {
            self.write(mode_of(r15), Register::R14, r15_ahead(r15, 4));
        }
        self.set(Reg::R15, r15_of(psr_of(r15), to, mode_of(r15)));
        Done::plain(prices.onward(address_of(r15), to))
    }

    /// Whether an instruction of the condition is carried out, by the flags in R15.
    #[inline(always)]
    pub fn passes(&self, cond: Cond) -> bool
        ensures { result ≡ condition_holds cond (flags_of (r15_in self.now)) }
    {
        if let Cond::Al = cond {
            return true;
        }
        holds(cond, flags_of(self.get(Reg::R15)))
    }

    /// Carries out an instruction whose condition holds, and which is no load or store.
    #[tactic(auto, unfolding(crate::specs::Operations::operation_effect))]
    #[inline(always)]
    pub fn execute(&mut self, prices: &Prices, operation: &Operation) -> Done
        requires { is_transfer operation.now ≡ false }
        ensures effect { IsEffect prices.now result self.new (operation_effect operation.now self.old) }
        ensures goes_on { is_stopped result.kind ≡ false }
    {
        match operation {
            Operation::Multiply(multiply) => self.multiply(prices, multiply),
            Operation::DataRegister(fields) => self.data_register(prices, fields),
            Operation::DataRegisterShift(fields) => self.data_register_shift(prices, fields),
            Operation::DataImmediate(fields) => self.data_immediate(prices, fields),
            Operation::Branch(branch) => self.branch(prices, branch),
            Operation::Swi(_) => self.take(prices, Vector::Swi),
            Operation::UndefinedTransfer(_)
            | Operation::CoprocessorTransfer(_)
            | Operation::Coprocessor(_) => self.take(prices, Vector::Undefined),
            Operation::SingleImmediate(_) | Operation::SingleRegister(_) | Operation::Block(_) => {
                unreachable!()
            }
        }
    }
}
