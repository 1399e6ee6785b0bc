ghost use Rattle.std.specs.Prelude.{◌≡◌};
ghost use Rattle.arm2_effect.specs.Modes.{r15_in};
ghost use Rattle.arm2_transfer.specs.Moved.{IsMoved};
ghost use Rattle.arm2_exec.specs.Step.{elapsed, fetched, instruction_moved, interrupt_due, interrupt_of};
ghost use Rattle.arm2_exec.specs.Step.{unallocated_moved, word_unless};
ghost use Rattle.arm2_exec.specs.Work.{Obeyed, Worked};

use crate::decoded::Decoded;
use arm2_decode::{Instr, Unallocated};
use arm2_effect::{Done, Reg, Vector, Why, address_of, is_fiq_masked, is_irq_masked, mode_of};
use arm2_transfer::{Bus, Processor};
use ioc::Ioc;
use memc::{Memc, Spot};

/// What a step did before time passed, and the word that it fetched.
#[derive(Clone, Copy)]
pub(crate) struct Made {
    pub(crate) done: Done,
    pub(crate) word: Option<u32>,
}

/// The interrupt that is due: FIQ, or else IRQ, each unless R15 masks it.
#[inline(always)]
pub(crate) fn interrupt_of(ioc: &Ioc, r15: u32) -> Option<Vector>
    ensures { result ≡ interrupt_of ioc.now r15 }
{
    if ioc.asserts_fiq() && !is_fiq_masked(r15) {
        return Some(Vector::Fiq);
    }
    // The mask comes first: the requests take longer to find.
    if is_irq_masked(r15) {
        return None;
    }
    if ioc.asserts_irq() {
        return Some(Vector::Irq);
    }
    None
}

/// The word at the address in R15, if the mode may fetch one there.
#[inline(always)]
pub(crate) fn fetched(memc: &Memc, r15: u32) -> Option<u32>
    ensures { result ≡ fetched memc.now r15 }
{
    let user = mode_of(r15).is_user();
    match memc.locate(address_of(r15), user, false) {
        Ok(spot @ (Spot::Ram(_) | Spot::Rom(_))) => Some(memc.load(spot)),
        _ => None,
    }
}

// Carries out an instruction, or passes over it where its condition fails.
#[inline(always)]
fn obey_instruction(processor: &mut Processor, instr: &Instr) -> Done
    ensures { IsMoved processor.old result processor.new
        (instruction_moved instr.now processor.old.port processor.old.registers processor.old.bus) }
{
    if processor.registers.passes(instr.cond) {
        return processor.carry_out(&instr.operation);
    }
    processor.registers.skip(&processor.prices)
}

// Stops at a word that is no instruction, or passes over it where its condition fails.
#[tactic(auto, unfolding(arm2_effect::specs::Effects::stopped))]
#[inline(never)]
fn obey_unallocated(processor: &mut Processor, unallocated: Unallocated) -> Done
    ensures { IsMoved processor.old result processor.new
        (unallocated_moved unallocated processor.old.registers processor.old.bus) }
{
    if processor.registers.passes(unallocated.cond) {
        return Done::stopped(Why::Unallocated);
    }
    processor.registers.skip(&processor.prices)
}

// Does what a word says, or takes the prefetch abort where there is none.
#[inline(always)]
fn obey(processor: &mut Processor, decoded: &mut Decoded, word: Option<u32>) -> Done
    ensures { Obeyed word processor.old result processor.new }
{
    let Some(word) = word else {
        return processor
            .registers
            .take(&processor.prices, Vector::PrefetchAbort);
    };
    let address = address_of(processor.registers.get(Reg::R15));
    decoded.keep(address, word);
    match &decoded.row(address).instr {
        Ok(instr) => obey_instruction(processor, instr),
        Err(unallocated) => obey_unallocated(processor, *unallocated),
    }
}

/// What a step does before time passes: an interrupt, or the word at the address.
#[inline(always)]
pub(crate) fn work(processor: &mut Processor, decoded: &mut Decoded) -> Made
    ensures worked { Worked (interrupt_due processor.old.bus (r15_in processor.old.registers)) processor.old
        result.done processor.new }
    ensures word { result.word
        ≡ word_unless (interrupt_due processor.old.bus (r15_in processor.old.registers))
        (fetched processor.old.bus.memc (r15_in processor.old.registers)) }
{
    let r15 = processor.registers.get(Reg::R15);
    if let Some(vector) = interrupt_of(&processor.bus.ioc, r15) {
        let done = processor.registers.take(&processor.prices, vector);
        return Made { done, word: None };
    }
    let word = fetched(&processor.bus.memc, r15);
    let done = obey(processor, decoded, word);
    Made { done, word }
}

/// Lets time pass for the devices.
#[inline(always)]
pub(crate) fn elapse(bus: &mut Bus, ticks: u32)
    ensures { bus.new ≡ elapsed ticks bus.old }
{
    let rises = bus.vidc.advance(ticks);
    bus.ioc.advance(ticks);
    if rises != 0 {
        bus.ioc.flyback();
    }
}
