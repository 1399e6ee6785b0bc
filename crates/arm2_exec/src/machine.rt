ghost use Rattle.std.specs.Prelude.{◌≡◌, ◌+◌, ◌<◌, ◌%◌, ◌^◌, ℕ, IfOk, None};
ghost use Rattle.std.specs.Borrow.{sem};
ghost use Rattle.memc.specs.Memory.{shift_of_size};
ghost use Rattle.arm2_effect.specs.Modes.{r15_in};
ghost use Rattle.arm2_exec.specs.State.{IsReset, register_of, reset_r15, with_register_of};
ghost use Rattle.arm2_exec.specs.Step.{Step, address_in, fetched, traced_word};
ghost use Rattle.arm2_exec.specs.Run.{IsWithin, Runs, at_rest, with_one_step};
ghost use Rattle.arm2_exec.specs.Lent.{LendsIoc, LendsMemc, LendsVidc};
ghost use Rattle.arm2_effect.specs.declared.modes.Reg.TheVariants.{R15};
ghost use Rattle.arm2_exec.specs.declared.machine.MachineFault.TheVariants.{Memory};

use crate::decoded::Decoded;
use crate::step_work::{elapse, fetched, work};
use arm2_effect::{Kind, Mode, Prices, Reg, Registers, Why, address_of, r15_of};
use arm2_transfer::{Bus, Processor};
use bus_ticks::{Profile, SPACE_END};
use ioc::{Ioc, Lines};
use memc::{Memc, MemcFault, PageSize};
use std::alloc::{AllocError, Global};
use std::marker::Model;
use thiserror::Error;
use vidc::Vidc;

/// Why a machine is not made.
#[derive(Clone, Copy, Debug, PartialEq, Eq, Drop, Error)]
pub enum MachineFault {
    /// An allocation failed.
    #[error("Memory")]
    Memory,
}

impl From<MemcFault> for MachineFault {
    ghost from_gives = { λ _ fault. fault ≡ Memory };

    fn from(_refused: MemcFault) -> MachineFault {
        MachineFault::Memory
    }
}

impl From<AllocError> for MachineFault {
    ghost from_gives = { λ _ fault. fault ≡ Memory };

    fn from(_refused: AllocError) -> MachineFault {
        MachineFault::Memory
    }
}

/// What comes from outside in a step.
#[derive(Clone, Copy, Debug, PartialEq, Eq)]
pub struct Input {
    /// DMA bursts that stretch the step.
    pub bursts: u16,
    /// The interrupt lines that are active.
    pub lines: Lines,
    /// The word that a load among the devices reads where IOC has no register.
    pub port: u32,
}

/// What a step did.
#[derive(Clone, Copy, Debug, PartialEq, Eq)]
pub struct Stepped {
    pub kind: Kind,
    /// Processor ticks, without those of bursts; 0 where the machine stopped.
    pub ticks: u32,
    /// The address of the instruction, in bytes.
    pub from: u32,
    /// The address of the next one.
    pub to: u32,
}

/// A step and the word that it fetched.
#[derive(Clone, Copy, Debug, PartialEq, Eq)]
pub struct Traced {
    pub stepped: Stepped,
    /// None where an interrupt was taken, and where the fetch was refused.
    pub word: Option<u32>,
}

/// What a run did.
#[derive(Clone, Copy, Debug, PartialEq, Eq)]
pub struct Ran {
    /// The steps before the one that stopped.
    pub steps: u64,
    /// Their processor ticks.
    pub ticks: u128,
    /// The ticks that passed, with those of bursts.
    pub elapsed: u128,
    /// Why the machine stopped, if it did.
    pub stopped: Option<Why>,
}

impl Ran {
    /// No steps, before the first.
    pub fn new() -> Ran
        ensures { result ≡ at_rest None }
    {
        Ran {
            steps: 0,
            ticks: 0,
            elapsed: 0,
            stopped: None,
        }
    }

    /// Counts one step more, which was not stopped: its ticks, and those of its bursts by the profile.
    #[inline(always)]
    pub fn count(&mut self, profile: &Profile, input: Input, stepped: Stepped)
        requires within { IsWithin (2 ^ 63) self.old }
        requires small { stepped.ticks < 2 ^ 16 }
        ensures step { self.new ≡ with_one_step profile.now.burst input stepped self.old }
        ensures bound { (made : ℕ) → IsWithin made self.old → IsWithin (made + 1) self.new }
    {
        let ticks = u128::from(stepped.ticks);
        self.steps += 1;
        self.ticks += ticks;
        self.elapsed += ticks + u128::from(profile.burst_ticks(input.bursts));
    }
}

/// The machine: processor, memory, devices, and the prices of their accesses.
#[derive(Drop)]
pub struct Machine {
    // The port and the time fields of ROM are those of the last step.
    processor: Processor,
    decoded: Decoded,
}

impl Model for Machine {
    ghost use Rattle.arm2_exec.specs.State.{State};

    ghost Value = { State };

    ghost view = { λ m. record {
      regs = m.processor.registers;
      bus = m.processor.bus;
      profile = m.processor.prices.profile;
    } };
}

impl Machine {
    /// A machine in the reset state: R15 is 0C000003 (address 0, SVC mode, IRQ and FIQ masked), every other
    /// register and all RAM 0, logical page i on physical page i for i from 0 to 127, and IOC and VIDC at
    /// their start.
    ///
    /// # Errors
    ///
    /// `Memory`: an allocation failed.
    pub fn new(alloc: Global, size: PageSize, profile: Profile) -> Result<Machine, MachineFault>
        ensures { IfOk result (λ m. IsReset (shift_of_size size) profile m) }
    {
        let memc = Memc::new(alloc, size)?;
        let prices = Prices {
            profile,
            rom: memc.rom_times(),
        };
        let mut machine = Machine {
            processor: Processor {
                registers: Registers::new(),
                bus: Bus {
                    memc,
                    ioc: Ioc::new(),
                    vidc: Vidc::new(),
                },
                port: 0,
                prices,
            },
            decoded: Decoded::new(alloc)?,
        };
        machine.reset();
        Ok(machine)
    }

    /// Sets R15 to 0C000003, and changes nothing else.
    pub fn reset(&mut self)
        ensures { self.new ≡ with_register_of R15 reset_r15 self.old }
    {
        // I and F are set.
        self.set(Reg::R15, r15_of(0b11, 0, Mode::Svc));
    }

    /// The word in a register.
    pub fn get(&self, register: Reg) -> u32
        ensures { result ≡ register_of register self.now }
    {
        self.processor.registers.get(register)
    }

    /// Puts a word into a register.
    pub fn set(&mut self, register: Reg, word: u32)
        ensures { self.new ≡ with_register_of register word self.old }
    {
        self.processor.registers.set(register, word);
    }

    /// All registers.
    pub fn registers(&self) -> &Registers
        ensures { result.now ≡ self.now.regs }
    {
        &self.processor.registers
    }

    /// The address in R15, in bytes: a multiple of 4 below 2^26.
    #[inline(always)]
    pub fn address(&self) -> u32
        ensures address { result ≡ address_in self.now.regs }
        ensures below { result < SPACE_END }
        ensures aligned { result % 4 ≡ 0 }
    {
        address_of(self.get(Reg::R15))
    }

    /// The memory controller, with its RAM and ROM.
    pub fn memc(&self) -> &Memc
        ensures { result.now ≡ self.now.bus.memc }
    {
        &self.processor.bus.memc
    }

    /// The memory controller, to be changed.
    pub fn memc_mut(&mut self) -> &mut Memc
        ensures* writes_back { sem 𝓛 (LendsMemc self.entry result) }
        ensures value { result.now ≡ self.old.bus.memc }
    {
        &mut self.processor.bus.memc
    }

    /// IOC.
    pub fn ioc(&self) -> &Ioc
        ensures { result.now ≡ self.now.bus.ioc }
    {
        &self.processor.bus.ioc
    }

    /// IOC, to be changed.
    pub fn ioc_mut(&mut self) -> &mut Ioc
        ensures* writes_back { sem 𝓛 (LendsIoc self.entry result) }
        ensures value { result.now ≡ self.old.bus.ioc }
    {
        &mut self.processor.bus.ioc
    }

    /// VIDC.
    pub fn vidc(&self) -> &Vidc
        ensures { result.now ≡ self.now.bus.vidc }
    {
        &self.processor.bus.vidc
    }

    /// VIDC, to be changed.
    pub fn vidc_mut(&mut self) -> &mut Vidc
        ensures* writes_back { sem 𝓛 (LendsVidc self.entry result) }
        ensures value { result.now ≡ self.old.bus.vidc }
    {
        &mut self.processor.bus.vidc
    }

    /// The prices of accesses.
    pub fn profile(&self) -> Profile
        ensures { result ≡ self.now.profile }
    {
        self.processor.prices.profile
    }

    /// The word at the address in R15; none where the mode may not fetch there, and among the devices.
    pub fn fetched(&self) -> Option<u32>
        ensures { result ≡ fetched self.now.bus.memc (r15_in self.now.regs) }
    {
        fetched(
            &self.processor.bus.memc,
            self.processor.registers.get(Reg::R15),
        )
    }

    /// One step: an interrupt is taken, or the instruction at the address in R15 is carried out or passed
    /// over. It takes constant time and no memory.
    #[inline(always)]
    pub fn step(&mut self, input: Input) -> Stepped
        ensures step { Step self.old input result self.new }
        ensures bound { result.ticks < 2 ^ 16 }
    {
        self.step_traced(input).stepped
    }

    /// The same, with the word that the step fetches.
    #[tactic(auto, unfolding(crate::specs::Step::answer_of, crate::specs::Step::state_after))]
    #[inline(always)]
    pub fn step_traced(&mut self, input: Input) -> Traced
        ensures step { Step self.old input result.stepped self.new }
        ensures word { result.word ≡ traced_word self.old input }
        ensures bound { result.stepped.ticks < 2 ^ 16 }
    {
        let from = address_of(self.processor.registers.get(Reg::R15));
        self.processor.port = input.port;
        self.processor.prices.rom = self.processor.bus.memc.rom_times();
        let lines = self.processor.bus.ioc.line_state();
        self.processor.bus.ioc.lines(input.lines);
        let made = work(&mut self.processor, &mut self.decoded);
        let mut stepped = Stepped {
            kind: made.done.kind,
            ticks: 0,
            from,
            to: from,
        };
        let word = made.word;
        if let Kind::Stopped(_) = made.done.kind {
            self.processor.bus.ioc.set_line_state(lines);
            return Traced { stepped, word };
        }
        let stretched = self.processor.prices.profile.burst_ticks(input.bursts);
        elapse(&mut self.processor.bus, made.done.ticks + stretched);
        stepped.ticks = made.done.ticks;
        stepped.to = address_of(self.processor.registers.get(Reg::R15));
        Traced { stepped, word }
    }

    /// Steps, one for each input, up to the first that is stopped.
    pub fn run(&mut self, inputs: &[Input]) -> Ran
        ensures { Runs self.old inputs.now result self.new }
    {
        let mut ran = Ran::new();
        for input in inputs {
            let stepped = self.step(*input);
            if let Kind::Stopped(why) = stepped.kind {
                ran.stopped = Some(why);
                return ran;
            }
            ran.count(&self.processor.prices.profile, *input, stepped);
        }
        ran
    }
}
