ghost use Rattle.std.specs.Prelude.{◌≡◌, ◌<◌, ◌^◌, false};
ghost use Rattle.arm2_effect.specs.Effects.{IsEffect, is_stopped};
ghost use Rattle.arm2_effect.specs.Operations.{compared, data_immediate_effect, data_register_effect};
ghost use Rattle.arm2_effect.specs.Operations.{data_register_shift_effect, entered, jumped};
ghost use Rattle.arm2_effect.specs.Operations.{next_r15, outcome_effect};
ghost use Rattle.arm2_effect.specs.ProgramCounter.{psr_with};

use crate::modes::Reg;
use crate::outcomes::{Outcome, flags_after, outcome_of};
use crate::prices::Prices;
use crate::program_counter::{
    address_of, flags_of, mode_of, psr_of, r15_jumped, r15_of, r15_restored,
};
use crate::registers::Registers;
use crate::step_end::Done;
use arm2_decode::{DataImmediate, DataRegister, DataRegisterShift, Flags, Opcode, Register};
use bus_ticks::ahead_of;

// The fields of a data processing word that say where its outcome goes.
#[derive(Clone, Copy)]
struct Destination {
    opcode: Opcode,
    sets_flags: bool,
    rd: Register,
}

// The PSR with other condition flags, from 0 to 63.
fn psr_with(flags: Flags, psr: u32) -> u32
    requires { psr < 64 }
    ensures psr { result ≡ psr_with flags psr }
    ensures small { result < 64 }
{
    u32::from(flags.negative) * 32
        + u32::from(flags.zero) * 16
        + u32::from(flags.carry) * 8
        + u32::from(flags.overflow) * 4
        + psr % 4
}

fn next_r15(sets_flags: bool, outcome: Outcome, r15: u32) -> u32
    ensures { result ≡ next_r15 sets_flags outcome r15 }
{
    let address = ahead_of(address_of(r15), 4);
    if !sets_flags {
        return r15_of(psr_of(r15), address, mode_of(r15));
    }
    r15_of(
        psr_with(flags_after(outcome), psr_of(r15)),
        address,
        mode_of(r15),
    )
}

macro_rules! destination {
    ($fields:expr) => {
        Destination {
            opcode: $fields.opcode,
            sets_flags: $fields.sets_flags,
            rd: $fields.rd,
        }
    };
}

impl Registers {
    /// Puts a value into a register other than R15, and goes on.
    #[tactic(auto, unfolding(crate::specs::Operations::entered))]
    #[inline(always)]
    pub(crate) fn enter(
        &mut self,
        prices: &Prices,
        sets_flags: bool,
        rd: Register,
        outcome: Outcome,
    ) -> Done
        ensures effect { IsEffect prices.now result self.new (entered sets_flags rd outcome self.old) }
        ensures goes_on { is_stopped result.kind ≡ false }
        ensures bound { result.ticks < 2 ^ 10 }
    {
        let r15 = self.get(Reg::R15);
        self.write(mode_of(r15), rd, outcome.value);
        self.set(Reg::R15, next_r15(sets_flags, outcome, r15));
        Done::plain(prices.straight(address_of(r15)))
    }

    #[tactic(auto, unfolding(crate::specs::Operations::jumped))]
    #[inline(never)]
    fn jump(&mut self, prices: &Prices, sets_flags: bool, outcome: Outcome) -> Done
        ensures effect { IsEffect prices.now result self.new (jumped sets_flags outcome self.old) }
        ensures goes_on { is_stopped result.kind ≡ false }
        ensures bound { result.ticks < 2 ^ 10 }
    {
        let r15 = self.get(Reg::R15);
        let to = address_of(outcome.value);
        if sets_flags {
            self.set(Reg::R15, r15_restored(r15, outcome.value, to));
        } else {
            self.set(Reg::R15, r15_jumped(r15, outcome.value));
        }
        Done::plain(prices.onward(address_of(r15), to))
    }

    #[tactic(auto, unfolding(crate::specs::Operations::compared))]
    #[inline(always)]
    fn compare(&mut self, prices: &Prices, rd: Register, outcome: Outcome) -> Done
        ensures effect { IsEffect prices.now result self.new (compared rd outcome self.old) }
        ensures goes_on { is_stopped result.kind ≡ false }
        ensures bound { result.ticks < 2 ^ 10 }
    {
        let r15 = self.get(Reg::R15);
        if rd.is_pc() {
            self.set(
                Reg::R15,
                r15_restored(r15, outcome.value, ahead_of(address_of(r15), 4)),
            );
        } else {
            self.set(Reg::R15, next_r15(true, outcome, r15));
        }
        Done::plain(prices.straight(address_of(r15)))
    }

    #[tactic(auto, unfolding(crate::specs::Operations::outcome_effect))]
    #[inline(always)]
    fn place(&mut self, prices: &Prices, to: Destination, outcome: Outcome) -> Done
        ensures effect { IsEffect prices.now result self.new
            (outcome_effect to.opcode to.sets_flags to.rd outcome self.old) }
        ensures goes_on { is_stopped result.kind ≡ false }
        ensures bound { result.ticks < 2 ^ 10 }
    {
        if to.opcode.is_compare() {
            return self.compare(prices, to.rd, outcome);
        }
        if to.rd.is_pc() {
            return self.jump(prices, to.sets_flags, outcome);
        }
        self.enter(prices, to.sets_flags, to.rd, outcome)
    }

    /// Data processing with a byte that is rotated.
    #[tactic(auto, unfolding(crate::specs::Operations::data_immediate_effect))]
    #[inline(always)]
    pub(crate) fn data_immediate(&mut self, prices: &Prices, fields: &DataImmediate) -> Done
        ensures effect { IsEffect prices.now result self.new (data_immediate_effect fields.now self.old) }
        ensures goes_on { is_stopped result.kind ≡ false }
    {
        let operand = self.rotated_byte(fields.value, fields.rotation);
        let flags = flags_of(self.get(Reg::R15));
        let outcome = outcome_of(fields.opcode, self.first_of(fields.rn, 8), operand, flags);
        self.place(prices, destination!(fields), outcome)
    }

    /// Data processing with a register that is shifted by an amount in the word.
    #[tactic(auto, unfolding(crate::specs::Operations::data_register_effect))]
    #[inline(always)]
    pub(crate) fn data_register(&mut self, prices: &Prices, fields: &DataRegister) -> Done
        ensures effect { IsEffect prices.now result self.new (data_register_effect fields.now self.old) }
        ensures goes_on { is_stopped result.kind ≡ false }
    {
        let operand = self.shifted_by_amount(fields.shift, fields.amount, fields.rm);
        let flags = flags_of(self.get(Reg::R15));
        let outcome = outcome_of(fields.opcode, self.first_of(fields.rn, 8), operand, flags);
        self.place(prices, destination!(fields), outcome)
    }

    /// Data processing with a register that is shifted by another.
    #[tactic(auto, unfolding(crate::specs::Operations::data_register_shift_effect))]
    #[inline(never)]
    pub(crate) fn data_register_shift(
        &mut self,
        prices: &Prices,
        fields: &DataRegisterShift,
    ) -> Done
        ensures effect { IsEffect prices.now result self.new
            (data_register_shift_effect fields.now self.old) }
        ensures goes_on { is_stopped result.kind ≡ false }
    {
        let operand = self.shifted_by_register(fields.shift, fields.rs, fields.rm);
        let flags = flags_of(self.get(Reg::R15));
        let outcome = outcome_of(fields.opcode, self.first_of(fields.rn, 12), operand, flags);
        let done = self.place(prices, destination!(fields), outcome);
        done.delayed(prices.internal(1))
    }
}
